//! The type system of DScript: types, what fits a type, and the types of expressions, statements and declarations.
//!
//! A type is a union of kinds of values, of lists and of closed objects. `specs/` has the rules, form by form: an
//! expression has a type or none, what needs its own type to find it has none, and a program is typed where each
//! expression in it has a type. This crate depends on `dscript_program` for programs, on `dscript_sdk_members` for
//! the names of members, and on `dscript_value` for the values that have a type. It has no code but names and limits.
#![tactic(auto)]

mod kind;
mod limits;

pub use kind::Kind;
pub use limits::MAX_TYPE_NODES;
