//! The parser of DScript: declarations, items, whole files, and texts read as files.
//!
//! This is the layer above `dscript_parse_tokens` and `dscript_parse_exprs`. It carries the promise that a list of
//! tokens is parsed as exactly the file that the grammar of `dscript_grammar` derives, and rejected exactly where
//! it derives none, at the grammar's error position. [`read_file`] lexes and parses a text in one call, and its
//! fault names a line and a column: each text, read as a file of a form, is exactly one file or has exactly one
//! first fault.
#![tactic(auto)]

mod config;
mod decls;
mod fault;
mod items;
mod parsing;
mod place;
mod project;
mod read_fault;
mod reading;
mod reading_laws;

pub use dscript_program::Place;
pub use fault::SyntaxFault;
pub use parsing::parse;
pub use place::{place_at, start_of};
pub use read_fault::ReadFault;
pub use reading::read_file;
pub use reading_laws::{one_reading, some_reading};
