//! The types of expressions and bodies.
//!
//! This crate finds the type of an expression where it stands, and of the body of a callback at once what it answers and
//! from which number of declarations on, that may be looked into, each expression in it has a type: so no body is looked at
//! twice. It depends on `dscript_types_meaning` for the rules, and on `dscript_types_scenes` for all that does not look into
//! the parts of an expression. It carries the promise that what it finds is what the rules say.
#![tactic(auto)]

mod bodies;
mod callbacks;
mod calls;
mod collections;
mod declarations;
mod exprs;
mod literals;
mod statements;

pub use declarations::{is_right, look};
