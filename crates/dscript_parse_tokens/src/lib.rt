//! The lowest layers of the parser of DScript: single tokens, lists, and types.
//!
//! A function of the parser reads from the start of a list of tokens, with as many levels of nesting as are left.
//! It gives what the reader of the grammar with its name gives, and fails exactly where that one does:
//! `specs/Gives.antt` says it once for all of them. This crate depends on `dscript_grammar` for the readers, on
//! `dscript_ast` for trees and on `dscript_lex` for tokens.
#![tactic(auto)]

mod depth;
mod laws;
mod lists;
mod parsed;
mod syntax;
mod tokens;
mod type_laws;
mod types;

pub use depth::Depth;
pub use laws::names_are_derived;
pub use lists::{closed, dotted, list, many, names, separated, until};
pub use parsed::{Parse, Parsed, Refusal, higher, node};
pub use syntax::Syntax;
pub use tokens::{
    at_identifier, at_punctuator, flag, identifier, is_text, keyword, name, punctuator, string,
    string_at, take_keyword, take_punctuator,
};
pub use type_laws::{bodies_are_derived, rows_of_types_are_derived, types_are_derived};
pub use types::{body, type_list, type_node};
