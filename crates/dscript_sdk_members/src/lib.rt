//! Methods and properties of strings, lists, paths, files and directories.
//!
//! This crate evaluates `x.name` and `x.name(..)` where `x` is a text, a list, a path, a file or a directory.
//! Members of processes and static directories, which need the list of pips, are in `dscript_sdk`. This crate
//! depends on `dscript_sdk_values` and `bx_path`. It carries the promise that each of these members evaluates as
//! defined.
#![tactic(auto)]

mod finding;
mod list_members;
mod member;
mod path_members;
mod text_members;

pub use list_members::{call_list, member_of_list};
pub use member::{MEMBERS, Member};
pub use path_members::{call_directory, call_path, member_of_file, member_of_path, parent_of};
pub use text_members::{call_text, member_of_text};
