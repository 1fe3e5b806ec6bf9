//! The longest lexeme at the start of a text.

ghost use Rattle.std.specs.Prelude.{◌≡◌, ◌<◌, ◌≤◌, ◌+◌, ◌∷◌, take, length, IfOk, IfSome, IsTrue};
ghost use Rattle.std.specs.List.{prefix_len};
ghost use Rattle.dscript_lex.specs.Bytes.{is_word_byte};
ghost use Rattle.dscript_lex.specs.Lexemes.{number_of};
ghost use Rattle.dscript_lex.specs.Scanning.{reach, scanned_word, scanned_string, scanned_part};
ghost use Rattle.dscript_lex.specs.Scanning.{scanned_number, scanned_other, comment_len, scan_of, IsWithin};
ghost use Rattle.dscript_lex.specs.Scanning.{NeverCloses};

use crate::bytes::word_len;
use crate::comments::comment_len;
use crate::enclosed::enclosed;
use crate::lexeme::{LexemeKind, Scanned};
use crate::numbers::number_of;
use crate::opening::{Opening, opening_of};
use crate::punctuators::punctuator_len;
use crate::shared_texts::SharedTexts;
use crate::token::TokenKind;
use std::alloc::{AllocError, Global};

/// The word of this many bytes at the start.
fn scanned_word(
    alloc: Global,
    bytes: &[u8],
    len: usize,
    texts: &mut SharedTexts,
) -> Result<Option<Scanned>, AllocError>
    requires { len ≤ length bytes.now }
    ensures { IfOk result (λ scanned. scanned ≡ scanned_word len bytes.now) }
{
    let word = texts.text(alloc, &bytes[..len])?;
    Ok(Some(Scanned {
        len,
        kind: LexemeKind::Spelled(TokenKind::Word(word)),
    }))
}

/// The string whose opening quote is before these bytes.
fn scanned_string(alloc: Global, bytes: &[u8], quote: u8) -> Result<Option<Scanned>, AllocError>
    ensures scanned { IfOk result (λ scanned. scanned ≡ scanned_string (reach quote bytes.now)) }
    ensures in_range { IfOk result (IsWithin (1 + length bytes.now)) }
{
    let Some(reached) = enclosed(alloc, bytes, quote)? else {
        return Ok(None);
    };
    Ok(Some(Scanned {
        len: 1 + reached.len,
        kind: LexemeKind::Spelled(TokenKind::Str(reached.value)),
    }))
}

/// The template, or the part of one, whose delimiter is before these bytes.
fn scanned_part(alloc: Global, bytes: &[u8], is_first: bool) -> Result<Option<Scanned>, AllocError>
    ensures scanned { IfOk result (λ scanned. scanned ≡ scanned_part is_first (reach 0x60 bytes.now)) }
    ensures in_range { IfOk result (IsWithin (1 + length bytes.now)) }
{
    let Some(reached) = enclosed(alloc, bytes, b'`')? else {
        return Ok(None);
    };
    let kind = match (is_first, reached.hole) {
        (true, false) => TokenKind::Whole(reached.value),
        (true, true) => TokenKind::Head(reached.value),
        (false, true) => TokenKind::Middle(reached.value),
        (false, false) => TokenKind::Tail(reached.value),
    };
    Ok(Some(Scanned {
        len: 1 + reached.len,
        kind: LexemeKind::Spelled(kind),
    }))
}

/// The number of this many bytes at the start.
fn scanned_number(bytes: &[u8], len: usize) -> Option<Scanned>
    requires { len ≤ length bytes.now }
    ensures scanned { result ≡ scanned_number len (number_of (take len bytes.now)) }
    ensures in_range { IfSome result (λ scanned. scanned.len ≡ len) }
{
    let value = number_of(&bytes[..len])?;
    Some(Scanned {
        len,
        kind: LexemeKind::Spelled(TokenKind::Number(value as i32)),
    })
}

/// The comment or the punctuator at the start.
fn scanned_other(
    alloc: Global,
    bytes: &[u8],
    unclosed: &mut bool,
    texts: &mut SharedTexts,
) -> Result<Option<Scanned>, AllocError>
    requires { IsTrue unclosed.old → NeverCloses bytes.now }
    ensures scanned { IfOk result (λ scanned. scanned ≡ scanned_other bytes.now (comment_len bytes.now)) }
    ensures in_range { IfOk result (IsWithin (length bytes.now)) }
    ensures unclosed { IsTrue unclosed.new → NeverCloses bytes.now }
{
    if let Some(len) = comment_len(bytes, unclosed) {
        return Ok(Some(Scanned {
            len,
            kind: LexemeKind::Comment,
        }));
    }
    let len = punctuator_len(bytes);
    if len == 0 {
        return Ok(None);
    }
    let text = texts.text(alloc, &bytes[..len])?;
    Ok(Some(Scanned {
        len,
        kind: LexemeKind::Spelled(TokenKind::Punct(text)),
    }))
}

/// The longest lexeme at the start. `unclosed` says that no `/*` here is closed.
#[tactic(auto, unfolding(crate::specs::Scanning::scan_of, crate::specs::Scanning::scan_as))]
pub(crate) fn scan(
    alloc: Global,
    in_hole: bool,
    bytes: &[u8],
    unclosed: &mut bool,
    texts: &mut SharedTexts,
) -> Result<Option<Scanned>, AllocError>
    requires { IsTrue unclosed.old → NeverCloses bytes.now }
    ensures scanned { IfOk result (λ scanned. scanned ≡ scan_of in_hole bytes.now) }
    ensures in_range { IfOk result (IsWithin (length bytes.now)) }
    ensures unclosed { IsTrue unclosed.new → NeverCloses bytes.now }
{
    let Some((first, rest)) = bytes.split_first() else {
        return Ok(None);
    };
    match opening_of(in_hole, *first) {
        Opening::Blank => Ok(Some(Scanned {
            len: 1,
            kind: LexemeKind::Blank,
        })),
        Opening::Word => scanned_word(alloc, bytes, 1 + word_len(rest), texts),
        Opening::Number => Ok(scanned_number(bytes, 1 + word_len(rest))),
        Opening::Quote => scanned_string(alloc, rest, *first),
        Opening::Template => scanned_part(alloc, rest, true),
        Opening::Part => scanned_part(alloc, rest, false),
        Opening::Other => scanned_other(alloc, bytes, unclosed, texts),
    }
}
