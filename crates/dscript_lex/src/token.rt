//! Tokens.

use bx_tree::Text;

/// What a token is, and its value.
#[derive(Drop)]
pub enum TokenKind {
    /// A word, reserved or not, by its spelling.
    Word(Text),
    /// A number, by its value.
    Number(i32),
    /// A string, by its value.
    Str(Text),
    /// A template without holes, by its value.
    Whole(Text),
    /// The part of a template before its first hole, by its value.
    Head(Text),
    /// The part of a template between two holes, by its value.
    Middle(Text),
    /// The part of a template after its last hole, by its value.
    Tail(Text),
    /// A bracket, an operator or another punctuator, by its spelling.
    Punct(Text),
}

/// A token, and the place of its spelling in the text: from byte `start` to before byte `end`.
#[derive(Drop)]
pub struct Token {
    pub kind: TokenKind,
    pub start: u32,
    pub end: u32,
}
