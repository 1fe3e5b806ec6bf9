//! The data model of pips: processes, copies, writes and seals, with their inputs and outputs.
//!
//! This crate has the types of pips, the list of all pips in the order in which they were added, the source files
//! by path, the outputs of a pip, and a process with the contents of its files. It depends on `bx_tree`,
//! `bx_tree_paths` and `bx_digest`. Its invariant: in a `PipList`, an output that a pip takes is produced by the
//! earlier pip that it names.
#![tactic(auto)]

mod args;
mod desc;
mod dir_inputs;
mod file_inputs;
mod fits;
mod made;
mod outputs;
mod pip;
mod pip_list;
mod sets;
mod sources;

pub use args::{Arguments, EnvPair, Variables};
pub use bx_tree::Memory;
pub use desc::Desc;
pub use dir_inputs::{DirInput, DirInputs, SealForm};
pub use file_inputs::{FileInputs, no_inputs};
pub use made::{Made, MadeFile, Slot};
pub use outputs::{OutDir, OutDirs, Outputs, is_console};
pub use pip::{CopyDesc, Pip, PipKind, ProcessDesc, SealDesc, WriteDesc, pip_at};
pub use pip_list::PipList;
pub use sources::Sources;
