//! Ambient calls that add pips: writes, copies and seals; and those that name output directories.
//!
//! Processes are in `dscript_sdk_execute`. This crate depends on `pip_model_types`, `dscript_sdk_values`,
//! `dscript_sdk_members` and `dscript_sdk_calls`. It carries the promise that each of these calls evaluates as
//! defined, to its value or its first fault, and that a fault leaves the state as it was.
#![tactic(auto)]

mod counts;
mod file_sets;
mod limits;
mod new_directories;
mod sealing;
mod site;
mod state;
mod writing;

pub use file_sets::files_by_path;
pub use limits::MAX_NUMBERED_PIPS;
pub use new_directories::new_output_directory;
pub use sealing::{seal_directory, seal_partial_directory, seal_source_directory};
pub use site::Site;
pub use state::SdkState;
pub use writing::{copy_file, write_all_lines, write_all_text};
