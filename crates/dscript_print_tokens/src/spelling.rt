//! The spelling of a token.

ghost use Rattle.std.specs.Prelude.{◌≡◌, ◌++◌, ◌∷◌, [], OnOk};
ghost use Rattle.std.specs.Fmt.{signed_decimal};
ghost use Rattle.dscript_print_tokens.specs.Spellings.{in_string, in_part, spelling};

use crate::enclosed::{push_in_part, push_in_string};
use dscript_lex::TokenKind;
use std::alloc::{AllocError, Global};

/// Appends a number.
fn push_number(alloc: Global, text: &mut Vec<u8>, value: i32) -> Result<(), AllocError>
    ensures { OnOk result (text.new.items ≡ text.old.items ++ signed_decimal value) }
{
    let digits = value.to_string(alloc)?;
    text.extend_from_slice(digits.as_bytes())?;
    Ok(())
}

/// Appends a string.
fn push_string(text: &mut Vec<u8>, value: &[u8]) -> Result<(), AllocError>
    ensures { OnOk result
        (text.new.items ≡ text.old.items ++ (0x22 ∷ (in_string value.now ++ 0x22 ∷ []))) }
{
    text.push(b'"')?;
    push_in_string(text, value)?;
    text.push(b'"')?;
    Ok(())
}

/// Appends a template, or a part of one, between its delimiters.
fn push_part(
    text: &mut Vec<u8>,
    opening: u8,
    value: &[u8],
    closing: &[u8],
) -> Result<(), AllocError>
    ensures { OnOk result
        (text.new.items ≡ text.old.items ++ (opening ∷ (in_part value.now ++ closing.now))) }
{
    text.push(opening)?;
    push_in_part(text, value)?;
    text.extend_from_slice(closing)?;
    Ok(())
}

/// Appends the spelling of a token.
#[tactic(auto, unfolding(crate::specs::Spellings::spelling))]
pub(crate) fn push_spelling(
    alloc: Global,
    text: &mut Vec<u8>,
    kind: &TokenKind,
) -> Result<(), AllocError>
    ensures { OnOk result (text.new.items ≡ text.old.items ++ spelling kind.now) }
{
    match kind {
        TokenKind::Word(bytes) | TokenKind::Punct(bytes) => {
            text.extend_from_slice(bytes.bytes())?;
        }
        TokenKind::Number(value) => push_number(alloc, text, *value)?,
        TokenKind::Str(value) => push_string(text, value.bytes())?,
        TokenKind::Whole(value) => push_part(text, b'`', value.bytes(), b"`")?,
        TokenKind::Head(value) => push_part(text, b'`', value.bytes(), b"${")?,
        TokenKind::Middle(value) => push_part(text, b'}', value.bytes(), b"${")?,
        TokenKind::Tail(value) => push_part(text, b'}', value.bytes(), b"`")?,
    }
    Ok(())
}
