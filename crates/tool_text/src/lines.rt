//! Lines, their labels, and what follows them.
ghost use Rattle.std.specs.Prelude.{◌≡◌, ◌==◌, ◌≤◌, length, filter, IfOk};
ghost use Rattle.std.specs.List.{position_or_len};
ghost use Rattle.std.specs.Option.{option_copied};
ghost use Rattle.tool_text.specs.Grammar.{says as says_something};
ghost use Rattle.tool_text.specs.Reading.{after_byte, after_label as rest_of, before_byte};
ghost use Rattle.tool_text.specs.Reading.{label_of as label_read, skip_blanks as without_blanks};
ghost use Rattle.bx_tree.specs.Lent.{texts_now};

use crate::bytes::is_label;
use std::alloc::{AllocError, Global};

// The place of the first such byte of a text, or the text's length if there is none.
fn place_of(text: &[u8], byte: u8) -> usize
    ensures value { result ≡ position_or_len (λ b. b == byte) text.now }
    ensures within { result ≤ length text.now }
{
    'bytes: for (at, b) in text.iter().enumerate() {
        if *b == byte {
            return at;
        }
    }
    text.len()
}

/// What precedes the first such byte of a text, and what follows it: all and nothing where it has none.
pub fn cut(text: &[u8], byte: u8) -> (&[u8], &[u8])
    ensures before { result.0.now ≡ before_byte byte text.entry.now }
    ensures after { result.1.now ≡ after_byte byte text.entry.now }
{
    let (before, after) = text.split_at(place_of(text, byte));
    match after.split_first() {
        Some((_, rest)) => (before, rest),
        None => (before, after),
    }
}

/// The label of a line, if it has one, and what follows the label and its `:`.
pub fn label_parts(line: &[u8]) -> (Option<&[u8]>, &[u8])
    ensures label { option_copied result.0 ≡ label_read line.entry.now }
    ensures rest { result.1.now ≡ rest_of line.entry.now }
{
    let (label, rest) = cut(line, b':');
    if label.len() < line.len() && is_label(label) {
        (Some(label), rest)
    } else {
        (None, line)
    }
}

/// A text without the spaces and tabs before it.
pub fn skip_blanks(text: &[u8]) -> &[u8]
    ensures { result.now ≡ without_blanks text.entry.now }
{
    let mut rest = text;
    'blanks: while let Some((b' ' | b'\t', more)) = rest.split_first() {
        rest = more;
    }
    rest
}

/// Whether a line says something: it is not empty and does not begin with `#`.
pub fn says(line: &[u8]) -> bool
    ensures { result ≡ says_something line.now }
{
    match line.split_first() {
        Some((first, _)) => *first != b'#',
        None => false,
    }
}

/// The lines that say something.
pub fn spoken<'a>(alloc: Global, lines: &[&'a [u8]]) -> Result<Vec<&'a [u8]>, AllocError>
    ensures { IfOk result (λ spoken. texts_now spoken.items ≡ filter says_something (texts_now lines.now)) }
{
    let mut spoken = Vec::new(alloc);
    'lines: for line in lines {
        if says(line) {
            spoken.push(*line)?;
        }
    }
    Ok(spoken)
}
