//! File accesses of a process: asks, answers, and path sets with their text.
//!
//! A run of a tool reads, probes and lists paths. This crate has those asks, their answers, the trait of a view
//! that answers them, and path sets: the asks that the outcome of a run depends on, sorted and each once, with
//! their text. It depends on `bx_tree` and `bx_path` for paths and on `bx_digest` for contents. It carries the
//! promise that a path set and its text convert to each other exactly.
#![tactic(auto)]

mod access;
mod ask;
mod laws;
mod path_set;
mod texts;
mod view;

pub use access::{Access, Answer, End};
pub use ask::{Ask, AskKind};
pub use bx_path::Pattern;
pub use bx_tree::Memory;
pub use laws::{one_path_set, path_set_text};
pub use path_set::{PathSet, SetFault};
pub use view::{View, answers_to};
