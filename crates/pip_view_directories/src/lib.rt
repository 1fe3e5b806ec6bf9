//! Lookup of the directory dependencies of a process that can affect a path.
//!
//! Of a process with many directory dependencies not each is searched at each path: the seals that list a file at a
//! path or below it are found in the plan, and opaque directories and source seals by binary search over their
//! paths. This crate depends on `pip_model` for pips and plans. It carries the promise that no directory which
//! matters is left out.
#![tactic(auto)]

mod around;
mod near;
mod ranges;

pub use around::{MANY_DIRS, around_dirs};
pub use near::{near_dirs, searched};
pub use ranges::other_dirs;
