//! Graph validation: the rules on declared outputs.
//!
//! No two pips declare one file; files, output directories and full seals do not overlap; all outputs lie below
//! `out`. Each call gives the first pip at which its rule fails. This crate depends on `pip_model_types`, `bx_tree`,
//! `bx_tree_paths` and `bx_digest`, and has no types with an invariant of their own.
#![tactic(auto)]

mod declared;
mod double_producer;
mod gathered;
mod nesting;
mod outside_out;
mod overlap;
mod seen;
mod unlisted;
mod unshared;

pub use declared::add_path;
pub use double_producer::first_double_producer;
pub use outside_out::first_outside;
pub use overlap::first_overlap;
