//! What the instructions on values compute.
ghost use Rattle.std.specs.Prelude.{◌≡◌, take, drop};
ghost use Rattle.std.specs.Option.{option_copied};
ghost use Rattle.observed.specs.Texts.{after_prefix as rest_after};
ghost use Rattle.tool_run.specs.Values.{number_of as number, split_parts as parts};
ghost use Rattle.tool_run.specs.Values.{variable as variable_named};
ghost use Rattle.tool_run.specs.Values.{variables as variables_of};

use crate::digits::MAX_DIGITS;
use pip_model_types::EnvPair;
use tool_text::{is_number, value_below};

/// The number that a text stands for, if it is one of at most nine digits.
pub fn number_of(text: &[u8]) -> Option<usize>
    ensures { result ≡ number text.now }
{
    if !is_number(text) {
        return None;
    }
    if text.len() > MAX_DIGITS {
        return None;
    }
    value_below(text, 1_000_000_000)
}

/// The first bytes of a text, or all.
pub fn head(text: &[u8], count: usize) -> &[u8]
    ensures { result.now ≡ take count text.entry.now }
{
    if count < text.len() {
        &text[..count]
    } else {
        text
    }
}

/// A text without its first bytes.
pub fn tail(text: &[u8], count: usize) -> &[u8]
    ensures { result.now ≡ drop count text.entry.now }
{
    if count < text.len() {
        &text[count..]
    } else {
        text.split_at(text.len()).1
    }
}

// What follows a prefix of a text, if the text begins with it.
fn after_prefix<'a>(prefix: &[u8], text: &'a [u8]) -> Option<&'a [u8]>
    ensures { option_copied result ≡ rest_after prefix.now text.entry.now }
{
    let mut left = prefix;
    let mut rest = text;
    'bytes: while let Some((wanted, more)) = left.split_first() {
        let (byte, after) = rest.split_first()?;
        if wanted != byte {
            return None;
        }
        left = more;
        rest = after;
    }
    Some(rest)
}

/// What precedes the first place of some bytes in a text, and what follows them there.
pub fn split<'a>(text: &'a [u8], by: &[u8]) -> (&'a [u8], &'a [u8])
    ensures before { result.0.now ≡ (parts by.now text.entry.now).0 }
    ensures after { result.1.now ≡ (parts by.now text.entry.now).1 }
{
    let mut at = 0;
    'places: while at < text.len() {
        if let Some(after) = after_prefix(by, &text[at..]) {
            return (&text[..at], after);
        }
        at += 1;
    }
    text.split_at(text.len())
}

/// The value of the variable of a name.
pub fn variable<'a>(variables: &'a [EnvPair], name: &[u8]) -> Option<&'a [u8]>
    ensures { option_copied result ≡ variable_named (variables_of variables.entry.now) name.now }
{
    'variables: for variable in variables {
        if variable.name.bytes() == name {
            return Some(variable.value.bytes());
        }
    }
    None
}
