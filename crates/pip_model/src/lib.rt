//! The pip graph: the pips of a build with their dependency edges, reachability, and indexes of outputs and seals.
//!
//! This crate depends on `pip_model_types`, which it re-exports, on `bx_tree` and on `bx_digest`. Its invariant:
//! the dependencies, the outputs and the reachability in a `Plan` are those of its list of pips, and each seal is
//! found by the files that it lists, where a pip takes many directories.
#![tactic(auto)]

mod bits;
mod edges;
mod listings;
mod outputs;
mod plan;
mod producing;
mod reach;

pub use listings::FEW_DIRS;
pub use pip_model_types::{
    Arguments, CopyDesc, Desc, DirInput, DirInputs, EnvPair, FileInputs, Made, MadeFile, Memory,
    OutDir, OutDirs, Outputs, Pip, PipKind, PipList, ProcessDesc, SealDesc, SealForm, Slot,
    Sources, Variables, WriteDesc,
};
pub use plan::{MAX_PIPS, Plan};
