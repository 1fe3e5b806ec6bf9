//! Ambient calls without side effects: `Cmd`, `Artifact`, `Contract` and globs.
//!
//! This crate depends on `dscript_sdk_values` and `bx_path`, and asks the source tree in one file, sources.rt. It
//! carries the promise that each of these calls evaluates as defined, to its value or its first fault.
#![tactic(auto)]

mod artifacts;
mod assertions;
mod cmd;
mod globs;
mod paths;
mod sources;
mod tree_ask;

pub use artifacts::{artifact_input, artifact_none, artifact_output};
pub use assertions::{contract_assert, contract_fail};
pub use cmd::{cmd_argument, cmd_flag, cmd_option};
pub use globs::glob_files;
pub use paths::{path_bytes, path_bytes_after};
pub use sources::{ask_tree, find_below, find_directly_in};
pub use tree_ask::TreeAsk;
