//! The evaluator: runs a program to its pips or its first fault.
//!
//! Here are the transitions for calls, members, callbacks and statements, and the loop over all works; those for
//! expressions are in `dscript_eval_exprs`. This crate depends on `dscript_eval_meaning`, which has the semantics,
//! and carries the promise that the answer is that of the semantics, with its exact steps.
#![tactic(auto)]

mod callbacks;
mod calls;
mod calls_now;
mod evaluation;
mod parts;
mod running;
mod statements;
mod statements_now;

pub use dscript_eval_meaning::{EvalFault, EvalKind, MAX_OPEN_CALLS};
pub use dscript_sdk::TreeAsk;
pub use evaluation::{Asked, evaluate, evaluate_asked};
