//! The formatter: lexes, parses and pretty-prints a text.
//!
//! Here the two ways between texts and trees meet. This crate depends on `dscript_lex`, `dscript_parse` and
//! `dscript_print`. It carries the promise of the round trip: a formatted text parses to the same file as the
//! original, and a text is rejected exactly where it is no file.
#![tactic(auto)]

mod fault;
mod layout;

pub use fault::LayoutFault;
pub use layout::lay_out;
