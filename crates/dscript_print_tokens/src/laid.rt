//! Tokens as they are laid out.

use dscript_lex::TokenKind;

/// The blanks before a token.
#[derive(Clone, Copy)]
pub enum Gap {
    /// Nothing, or one space where the token would run together with the one before it.
    None,
    /// One space.
    Space,
    /// A newline, and four spaces for each of these levels.
    Line(u32),
}

/// A token that is to be written, and the blanks before it.
#[derive(Drop)]
pub struct Laid {
    pub kind: TokenKind,
    pub gap: Gap,
}
