//! The results of a pip's dependencies, and the execution of copy, write and seal pips.
//!
//! A pip that is no process produces a copy, a text or nothing, and a process is described by its declarations and
//! the contents of its files. This crate depends on `pip_model` for pips and plans and on `violations` for the
//! results in slots. Its invariant: `Inputs` has only the results of a pip's dependencies.
#![tactic(auto)]

mod inputs;
mod making;
mod sharing;

pub use inputs::Inputs;
pub use making::{desc, input_file, made_at, no_files, plain, process_at, source_blob};
