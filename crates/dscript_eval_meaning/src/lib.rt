//! The semantics of evaluation: what each form of a program evaluates to, with its exact steps, and its laws.
//!
//! `specs/` has the semantics, form by form, as evaluation with a step budget, a limit on open calls, and any
//! function that answers what is asked of the source tree. The laws say what these do. A program takes a fixed number of steps: within a budget of as many steps it has its answer,
//! and within a smaller one it runs out of them. A call that does not reach the limit on open calls evaluates the
//! same under each higher limit. This crate depends on `dscript_program` for programs, on `dscript_value` for
//! values, and on `dscript_sdk` and `dscript_eval_operators` for the results of calls, members and operators.
#![tactic(auto)]

mod fault;
mod laws;
mod limits;

pub use fault::{EvalFault, EvalKind};
pub use laws::{calls_that_are_open, meaning_over_sources, steps_of_programs};
pub use limits::MAX_OPEN_CALLS;
