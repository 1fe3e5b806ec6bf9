//! The pretty-printer: a text for each syntax tree, which parses back to it.
//!
//! A writer traverses the tree once and collects tokens, with the blanks before each; then they are written as
//! text. This crate depends on `dscript_ast` for trees, on `dscript_grammar` for what they are derived from, on
//! `dscript_lex` for tokens and on `dscript_print_tokens`, which writes them. It carries the promise of the round
//! trip: the tokens of a printed text derive the file that was printed, wherever the tokens of some text do.
#![tactic(auto)]

mod decls;
mod exprs;
mod files;
mod laws;
mod names;
mod params;
mod printing;
mod stmts;
mod type_params;
mod types;
mod writer;

pub use laws::{printed_text_reads_back, printed_tokens_derive};
pub use printing::print;
