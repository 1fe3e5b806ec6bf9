//! Evaluation of operators, interpolation, indexing and spreads on values.
//!
//! Evaluation takes an expression apart, and these functions compute its value from those of its parts. This crate
//! depends on `dscript_value` and `dscript_ast`, on `dscript_sdk_values` for faults and limits, and on `bx_path`.
//! It carries the promise that each function evaluates as defined, to its value or its first fault.
#![tactic(auto)]

mod callbacks;
mod comparisons;
mod equalities;
mod indexing;
mod numbers;
mod operators;
mod path_literals;
mod relative_literals;
mod spreads;
mod sums;
mod texts;
mod truth;

pub use callbacks::{callback, reduction};
pub use indexing::index;
pub use operators::{is_settled, operate, with_prefixes};
pub use path_literals::{add_first_hole, path_literal};
pub use relative_literals::{atom_literal, relative_literal};
pub use spreads::{add_fields, add_items};
pub use texts::{add_literal_hole, add_template_hole};
pub use truth::is_true;
