//! The lexer of DScript.
//!
//! A text is split into lexemes: blanks, comments and the spellings of tokens. This crate depends on `bx_tree` for
//! its shared texts. It carries the promise that `lex` finds exactly the tokens that the lexical grammar gives a
//! text, and rejects exactly a text that has none, at the first byte at which no lexeme begins.
#![tactic(auto)]

mod brackets;
mod bytes;
mod comments;
mod enclosed;
mod fault;
mod laws;
mod lexeme;
mod lexing;
mod limits;
mod numbers;
mod opening;
mod punctuators;
mod scanner;
mod shared_texts;
mod token;

pub use fault::LexFault;
pub use laws::{
    failing_text_has_no_tokens, one_place, one_reading, place_in_text, places, tokens_or_failure,
};
pub use lexing::lex;
pub use limits::{MAX_LEXED_BYTES, MAX_NUMBER};
pub use token::{Token, TokenKind};
