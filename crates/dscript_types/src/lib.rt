//! The type checker.
//!
//! It finds the type of each expression of a program, or the first file in which an expression has none. The rules
//! are in `dscript_types_meaning`, and the law that a typed program keeps to the kinds of values in
//! `dscript_types_laws`. It carries the promise that its answer is that of the rules.
#![tactic(auto)]

mod checking;
mod fault;
mod finding;
mod verdicts;
mod visits;

pub use checking::check_types;
pub use fault::TypeFault;
