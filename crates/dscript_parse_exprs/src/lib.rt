//! The parser of expressions and statements.
//!
//! Expressions and statements contain each other, and so one cycle of functions parses them; the levels of nesting
//! that are left bound its depth. This crate depends on `dscript_parse_tokens`, and carries the same promise: each
//! function gives what the reader of the grammar with its name gives.
#![tactic(auto)]

mod exprs;
mod laws;
mod lookahead;
mod parts;
mod stmts;

pub use exprs::expr;
pub use laws::{
    blocks_are_derived, expressions_are_derived, notes_are_derived, params_are_derived,
    values_are_derived,
};
pub use parts::{note, params};
pub use stmts::{block, value};
