//! The grammar of DScript as a relation between tokens and syntax trees, with a reader and laws.
//!
//! `specs/` has the rules as a relation between trees and lists of tokens, and once more as a reader, a function
//! that finds the one tree. docs/FORMATS.md has the rules in prose. This crate depends on `dscript_ast` for trees
//! and on `dscript_lex` for tokens. It carries the promises that the grammar is unambiguous, that the reader is
//! sound and complete, and that a list of tokens without a file has exactly one error position.
#![tactic(auto)]

mod height;
mod laws;

pub use height::MAX_HEIGHT;
pub use laws::{
    at_most_one_file, at_most_one_place, file_or_place, heights_that_count, items_are_prefix_free,
    reading_finds_the_place, reading_is_deriving,
};
