//! Writes a list of tokens as a text that lexes back to exactly these tokens.
//!
//! Each token gets a spelling of its own, with the blanks between them that are asked for, and one where two would
//! run together. This crate depends on `dscript_lex`, whose tokens these are, and on `bx_tree` for shared texts. It
//! carries the promise that a written text has the given tokens, no others, and in their order.
#![tactic(auto)]

mod enclosed;
mod laid;
mod laws;
mod side;
mod spelling;
mod writing;

pub use laid::{Gap, Laid};
pub use laws::spelled_tokens;
pub use writing::spell;
