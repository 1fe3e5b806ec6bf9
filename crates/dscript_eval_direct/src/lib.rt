//! The evaluator's fast path for expressions that open no call.
//!
//! The value of a literal, of a local, of a constant that was evaluated, of operators, of conditions and of ambient
//! calls that change nothing is computed directly, from what is known of the running body. Where the fast path gives
//! nothing, evaluation goes its usual way. This crate depends on
//! `dscript_eval_meaning`, in whose words it is defined, and carries the promise that what it gives is the value of
//! the semantics, with its exact steps.
#![tactic(auto)]

mod known;
mod leaves;
mod numbers;
mod values;

pub use known::Known;
pub use leaves::named_parts;
pub use values::{MAX_NESTING, value_now};
