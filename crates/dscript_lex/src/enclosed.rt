//! The values between the delimiters of strings, of templates and of their parts.

ghost use Rattle.std.specs.Prelude.{◌≡◌, ◌≤◌, length, IfOk, IfSome};
ghost use Rattle.dscript_lex.specs.Bytes.{escape_of};
ghost use Rattle.dscript_lex.specs.Scanning.{step_of, reach, Means};

use crate::bytes::is_escaped_as_itself;
use bx_tree::Text;
use std::alloc::{AllocError, Global};

/// What comes next between delimiters, and how many bytes it takes.
#[derive(Clone, Copy)]
pub(crate) enum Step {
    /// A byte of the value, plain or escaped.
    Byte(u8, usize),
    /// The closing delimiter; whether it opens a hole.
    End(bool, usize),
    /// Nothing that is allowed there.
    Bad,
}

/// The value after an opening delimiter, whether a hole ends it, and how many bytes it takes with its
/// closing delimiter.
#[derive(Drop)]
pub(crate) struct Reach {
    pub value: Text,
    pub hole: bool,
    pub len: usize,
}

/// The byte that a backslash and this byte spell before the rest.
fn escape_of(byte: u8, rest: &[u8]) -> Option<u8>
    ensures { result ≡ escape_of byte rest.now }
{
    match byte {
        b'n' => Some(b'\n'),
        b'r' => Some(b'\r'),
        b't' => Some(b'\t'),
        b'b' => Some(8),
        b'f' => Some(12),
        b'v' => Some(11),
        b'0' => match rest.first() {
            Some(next) if next.is_ascii_digit() => None,
            _ => Some(0),
        },
        _ => is_escaped_as_itself(byte).then_some(byte),
    }
}

/// What these bytes begin with.
#[tactic(auto, unfolding(crate::specs::Scanning::step_of))]
fn step_of(bytes: &[u8], delimiter: u8) -> Step
    ensures { result ≡ step_of delimiter bytes.now }
{
    let Some((first, others)) = bytes.split_first() else {
        return Step::Bad;
    };
    if *first == delimiter {
        return Step::End(false, 1);
    }
    let Some((second, rest)) = others.split_first() else {
        return Step::Bad;
    };
    if *first == b'\\' {
        match escape_of(*second, rest) {
            Some(byte) => Step::Byte(byte, 2),
            None => Step::Bad,
        }
    } else if delimiter == b'`' && *first == b'$' && *second == b'{' {
        Step::End(true, 2)
    } else if delimiter != b'`' && *first == b'\n' {
        Step::Bad
    } else {
        Step::Byte(*first, 1)
    }
}

/// What these bytes begin with, seen as the first step of the value that they begin.
fn next_step(bytes: &[u8], delimiter: u8) -> Step
    ensures { Means delimiter bytes.now result (reach delimiter bytes.now) }
{
    step_of(bytes, delimiter)
}

/// The value after an opening delimiter, if a closing one ends it.
pub(crate) fn enclosed(
    alloc: Global,
    bytes: &[u8],
    delimiter: u8,
) -> Result<Option<Reach>, AllocError>
    ensures found { IfOk result (λ found. found ≡ reach delimiter bytes.now) }
    ensures in_range { IfOk result (λ found. IfSome found (λ r. r.len ≤ length bytes.now)) }
{
    let mut value = Vec::new(alloc);
    let mut at = 0;
    'steps: while at < bytes.len() {
        let rest = &bytes[at..];
        match next_step(rest, delimiter) {
            Step::Byte(byte, len) => {
                value.push(byte)?;
                at += len;
            }
            Step::End(hole, len) => {
                let value = Text::new(alloc, value)?;
                return Ok(Some(Reach {
                    value,
                    hole,
                    len: at + len,
                }));
            }
            Step::Bad => return Ok(None),
        }
    }
    Ok(None)
}
