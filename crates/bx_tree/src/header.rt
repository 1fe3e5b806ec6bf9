//! The line before the bytes of each file in a bundle: its length and its path.

ghost use Rattle.std.specs.Prelude.{◌≡◌, ◌≢◌, ◌↔◌, ◌<◌, ◌≤◌, ◌++◌, ℕ, List, IsTrue, MatchOption};
ghost use Rattle.std.specs.Int.{IsInRange};
ghost use Rattle.std.specs.List.{AllByRecursion};
ghost use Rattle.std.specs.Str.Parse.{digits_value};
ghost use Rattle.bx_tree.specs.Bundle.{StartsWithHeader, IsLength};
ghost use Rattle.bx_tree.specs.Headers.{HasNo, IsSplitOnce, header_of};
ghost use Rattle.bx_tree.specs.declared.limits.TheConstants.{MAX_FILE_BYTES};

use crate::limits::MAX_FILE_BYTES;

// The digits of the length and the path of a complete header, and the text after it.
#[derive(Clone, Copy)]
pub(crate) struct Header<'a> {
    pub(crate) digits: &'a [u8],
    pub(crate) path: &'a [u8],
    pub(crate) rest: &'a [u8],
}

// The text after a prefix, if the text starts with it.
pub(crate) fn after_prefix<'a>(text: &'a [u8], prefix: &[u8]) -> Option<&'a [u8]>
    ensures { MatchOption result
        ((rest : List ℕ) → text.entry.now ≢ prefix.now ++ rest)
        (λ rest. text.entry.now ≡ prefix.now ++ rest.now) }
{
    text.strip_prefix(prefix)
}

/// The parts of a text before and after the first such byte.
pub fn split_once(text: &[u8], byte: u8) -> Option<(&[u8], &[u8])>
    ensures { MatchOption result
        (HasNo byte text.now)
        (λ parts. IsSplitOnce byte text.now parts.0.now parts.1.now) }
{
    for (i, b) in text.iter().enumerate() {
        if *b == byte {
            return Some((&text[..i], &text[i + 1..]));
        }
    }
    None
}

fn is_digit(byte: u8) -> bool
    ensures { IsTrue result ↔ IsInRange 48 57 byte }
{
    byte >= b'0' && byte <= b'9'
}

fn has_digits(text: &[u8]) -> bool
    ensures { IsTrue result ↔ AllByRecursion (λ b. IsInRange 48 57 b) text.now }
{
    text.iter().all(|byte| is_digit(*byte))
}

// Whether a text is a length: `0`, or digits without a leading zero.
fn is_length(text: &[u8]) -> bool
    ensures { IsTrue result ↔ IsLength text.now }
{
    if text.is_empty() {
        return false;
    }
    if text[0] == b'0' {
        return text.len() == 1;
    }
    has_digits(text)
}

// The value of a length, if a file may have this many bytes.
pub(crate) fn size_of(digits: &[u8]) -> Option<usize>
    requires { IsLength digits.now }
    ensures { MatchOption result
        (MAX_FILE_BYTES < digits_value 10 digits.now)
        (λ size. (size ≡ digits_value 10 digits.now) × (size ≤ MAX_FILE_BYTES)) }
{
    let mut size = 0;
    for digit in digits {
        size = 10 * size + (*digit - b'0') as usize;
        if size > MAX_FILE_BYTES {
            return None;
        }
    }
    Some(size)
}

// The header that a text starts with, if it starts with a complete one.
pub(crate) fn read_header(text: &[u8]) -> Option<Header<'_>>
    ensures { MatchOption result
        ((h : _) → StartsWithHeader text.now h → ⊥)
        (λ h. StartsWithHeader text.now (header_of h)) }
{
    let after = after_prefix(text, b"file ")?;
    let (digits, after) = split_once(after, b' ')?;
    if !is_length(digits) {
        return None;
    }
    let (path, rest) = split_once(after, b'\n')?;
    Some(Header { digits, path, rest })
}
