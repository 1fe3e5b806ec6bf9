//! Lexemes: the blanks, comments and tokens of a text.

use crate::token::TokenKind;

/// What a lexeme is.
#[derive(Drop)]
pub enum LexemeKind {
    Blank,
    Comment,
    /// The spelling of a token.
    Spelled(TokenKind),
}

/// The longest lexeme at the start of a text, and how many bytes it takes.
#[derive(Drop)]
pub struct Scanned {
    pub kind: LexemeKind,
    pub len: usize,
}
