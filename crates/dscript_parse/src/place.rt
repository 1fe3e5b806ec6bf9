//! Lines and columns.

ghost use Rattle.std.specs.Prelude.{◌≡◌, ◌≤◌, length};
ghost use Rattle.dscript_parse.specs.Places.{place_of, start_of as byte_of_token};

use bx_tree::MAX_FILE_BYTES;
use dscript_lex::Token;
use dscript_program::Place;

/// The place of the byte with this number, counted from 0, or of the text's end where there is no such byte.
pub fn place_at(text: &[u8], at: usize) -> Place
    requires { length text.now ≤ MAX_FILE_BYTES }
    ensures { result ≡ place_of text.now at }
{
    let mut line = 1;
    let mut column = 1;
    let before = &text[..at.min(text.len())];
    'bytes: for byte in before {
        if *byte == b'\n' {
            line += 1;
            column = 1;
        } else {
            column += 1;
        }
    }
    Place { line, column }
}

/// Where the token with this number starts, counted from 0, or the text's end where there is no such token.
pub fn start_of(text: &[u8], tokens: &[Token], number: usize) -> usize
    ensures { result ≡ byte_of_token text.now tokens.now number }
{
    match tokens.get(number) {
        Some(token) => token.start as usize,
        None => text.len(),
    }
}
