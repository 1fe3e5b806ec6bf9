//! Graph validation: all six rules in their order, which turns pips into a plan.
//!
//! Each rule is checked over the pips by number. [`check`] gives the plan of the pips, or the first rule that
//! fails, with its pip and that pip's specification file. The rules on declared outputs are those of
//! `graph_check_outputs`; twins are found by an order of processes in which exactly equal descriptions tie. This
//! crate also depends on `pip_model`, `pip_model_types`, `bx_tree` and `bx_digest`, and has no types with an
//! invariant of their own.
#![tactic(auto)]

mod checking;
mod descriptions;
mod fault;
mod laws;
mod limit;
mod named;
mod no_such_source;
mod twin;

pub use checking::check;
pub use descriptions::process_order;
pub use fault::{GraphFault, GraphKind};
pub use laws::{one_answer, some_answer};
