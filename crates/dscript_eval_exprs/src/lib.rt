//! The evaluator's transitions for expressions and constants.
//!
//! Each call here does one work of the machine, or begins an expression. This crate depends on
//! `dscript_eval_frames`, and carries the promise that a transition preserves what the machine evaluates to.
#![tactic(auto)]

mod collections;
mod constants;
mod exprs;
mod given;
mod literals;
mod names;

pub use collections::{fields, item, items, named_field, spread_fields, spread_item};
pub use constants::{demands, keep};
pub use exprs::{choose, eval, operands, operated, prefix};
pub use given::at_once;
pub use literals::{first_hole, hole, other_holes};
