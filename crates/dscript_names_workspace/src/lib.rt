//! Workspace discovery: the modules of a tree with their files, or the first fault of its configurations.
//!
//! `config.dsc` lists module files, and a module file names its module and perhaps lists its files. Both are
//! objects whose fields are strings, lists and one fixed name, and a listed file is known by its position in the
//! tree. This crate depends on `bx_tree` and `bx_path` for files, and on `dscript_parse` for texts. It carries the
//! promise that each tree has exactly one workspace or exactly one first fault.
#![tactic(auto)]

mod config;
mod finding;
mod gathering;
mod glob_call;
mod laws;
mod list;
mod listed_files;
mod literal;
mod membership;
mod module;
mod module_file;
mod module_reading;
mod object;
mod path_set;
mod paths;

pub use config::configured;
pub use finding::find_workspace;
pub use laws::{
    files_are_own, modules_within_files, names_differ, no_file_is_shared, one_answer, some_answer,
};
pub use module::{Description, described};
pub use paths::{is_module_file, is_specification, path_at};
