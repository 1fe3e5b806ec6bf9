//! Cutting a text into lexemes.

ghost use Rattle.std.specs.Prelude.{◌≡◌, ◌≤◌, ◌++◌, length, MatchResult, OnOk};
ghost use Rattle.dscript_lex.specs.Tokens.{mark_len, token_of, AreTokens, Refuses};

use crate::brackets::{follow, has_no_hole, in_hole};
use crate::fault::LexFault;
use crate::lexeme::LexemeKind;
use crate::limits::MAX_LEXED_BYTES;
use crate::scanner::scan;
use crate::shared_texts::SharedTexts;
use crate::token::Token;
use std::alloc::{AllocError, Global};

/// For how many tokens at most memory is taken before the first is met.
const FIRST_TOKENS: usize = 1024;

/// How many bytes the byte order mark takes with which a text may begin.
fn mark_len(bytes: &[u8]) -> usize
    ensures len { result ≡ mark_len bytes.now }
    ensures in_range { result ≤ length bytes.now }
{
    if bytes.starts_with(&[0xef, 0xbb, 0xbf]) {
        3
    } else {
        0
    }
}

/// Adds the token that a lexeme spells, if it spells one.
fn push_token(
    tokens: &mut Vec<Token>,
    kind: LexemeKind,
    start: usize,
    end: usize,
) -> Result<(), AllocError>
    requires start { start ≤ MAX_LEXED_BYTES }
    requires end { end ≤ MAX_LEXED_BYTES }
    ensures { OnOk result (tokens.new.items ≡ tokens.old.items ++ token_of start end kind) }
{
    if let LexemeKind::Spelled(kind) = kind {
        tokens.push(Token {
            kind,
            start: start as u32,
            end: end as u32,
        })?;
    }
    Ok(())
}

/// The tokens of a text, in order. docs/FORMATS.md says how tokens are spelled.
pub fn lex(alloc: Global, bytes: &[u8]) -> Result<Vec<Token>, LexFault>
    requires { length bytes.now ≤ MAX_LEXED_BYTES }
    ensures { MatchResult result
        (λ tokens. AreTokens bytes.now tokens.items)
        (λ fault. Refuses fault bytes.now) }
{
    let mut tokens = Vec::with_capacity(alloc, FIRST_TOKENS.min(bytes.len() / 4))?;
    let mut brackets = Vec::new(alloc);
    let mut texts = SharedTexts::new(alloc)?;
    let mut unclosed = false;
    let mut at = mark_len(bytes);
    'lexemes: while at < bytes.len() {
        let is_in_hole = in_hole(&brackets);
        let Some(scanned) = scan(alloc, is_in_hole, &bytes[at..], &mut unclosed, &mut texts)? else {
            return Err(LexFault::Lex { at: at as u32 });
        };
        let end = at + scanned.len;
        follow(&mut brackets, &scanned.kind)?;
        push_token(&mut tokens, scanned.kind, at, end)?;
        at = end;
    }
    if has_no_hole(brackets) {
        Ok(tokens)
    } else {
        Err(LexFault::Lex { at: at as u32 })
    }
}
