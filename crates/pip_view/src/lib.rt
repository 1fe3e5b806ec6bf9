//! File access rules: what a process sees of the file system around it.
//!
//! The view of a process is given by its input files, by other source files, and by what other pips can produce.
//! This crate depends on `pip_view_inputs` for the results of dependencies, on `violations` for what pips can
//! produce, on `pip_view_directories` for the directories that matter at a path, and on `observed`, `tool_run` and
//! `tool_run_writes` for asks, answers and listings. It carries the promise that a view answers by these rules.
#![tactic(auto)]

mod below;
mod laws;
mod members;
mod taken;
mod view;

pub use bx_tree::Memory;
pub use laws::view_agrees;
pub use pip_view_inputs::{Inputs, desc, plain};
pub use view::PipView;
