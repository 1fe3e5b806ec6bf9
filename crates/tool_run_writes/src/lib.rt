//! The file system overlay of a running process: the files that it has written.
//!
//! A run sees its own writes before all else: they answer reads and probes, add names to listings, and forbid a
//! write below a file or above one. All of these are found by binary search, in the files and in the directories
//! that contain them. The crate depends on `observed` and `pip_model_types`. It carries the promise that a run's
//! own writes are a list of files by path, as in the definition of a run.
#![tactic(auto)]

mod below;
mod writes;

pub use writes::{Writes, with_file};
