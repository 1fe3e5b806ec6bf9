//! Laws of the type system: what a typed program cannot do.
//!
//! A program in which each expression has a type evaluates to its pips or to a fault, but never to one of kinds, nor
//! to a member that is missing. This crate depends on `dscript_types_meaning` for types and on `dscript_eval_meaning`
//! for the semantics. It has no code: its function carries the law.
#![tactic(auto)]

mod laws;

pub use laws::typed_programs_keep_to_kinds;
