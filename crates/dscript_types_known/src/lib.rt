//! What is known of the types of declarations while a program is checked.
//!
//! A type is found together with its rank: how many declarations and callbacks have to be looked into for it, one for
//! another. What is found holds wherever at least as many may be looked into, so no type is found twice. This crate has
//! the table of what is found of each declaration, and the locals that an expression sees with what is found of them. It
//! depends on `dscript_types_meaning` for what the rules say and on `dscript_types_data` for types, and carries the promise
//! that a table which is filled by the rules is right at each rank.
#![tactic(auto)]

mod finding;
mod locals;
mod table;

pub use finding::{Finding, Pending, one_more};
pub use locals::{Hold, Local, Locals};
pub use table::Table;
