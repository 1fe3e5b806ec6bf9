//! Which lexeme begins with a byte.

ghost use Rattle.std.specs.Prelude.{◌≡◌};
ghost use Rattle.dscript_lex.specs.Lexemes.{opening_of};

use crate::bytes::{is_blank, is_word_start};

/// Which lexeme a byte begins.
#[derive(Clone, Copy)]
pub enum Opening {
    /// A blank, of one byte.
    Blank,
    Word,
    Number,
    /// A string.
    Quote,
    /// A template, or its first part.
    Template,
    /// A further part of a template.
    Part,
    /// A comment, a punctuator, or nothing.
    Other,
}

/// Which lexeme the byte begins, inside a template's hole or not.
pub(crate) fn opening_of(in_hole: bool, byte: u8) -> Opening
    ensures { result ≡ opening_of in_hole byte }
{
    if is_blank(byte) {
        Opening::Blank
    } else if is_word_start(byte) {
        Opening::Word
    } else if byte.is_ascii_digit() {
        Opening::Number
    } else if byte == b'"' || byte == b'\'' {
        Opening::Quote
    } else if byte == b'`' {
        Opening::Template
    } else if in_hole && byte == b'}' {
        Opening::Part
    } else {
        Opening::Other
    }
}
