//! The text of the build report, of the report of an error, and of the notes.
//!
//! This crate depends on `violations` for verdicts, on `pip_model` for the plan, and on `dscript_program` for
//! positions. It carries the promise that each text is exactly the one of its definition.
#![tactic(auto)]

mod built;
mod counts;
mod laws;
mod names;
mod refusal;

pub use built::{all_succeeded, report};
pub use bx_tree::Memory;
pub use counts::{Counts, GraphLine, notes};
pub use laws::one_set_of_counts;
pub use refusal::{MAX_SHOWN_BYTES, Refusal, refused_report};
