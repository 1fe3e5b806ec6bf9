//! Path joining, the directories of a path, patterns, and globs.
//!
//! A text joined to a path leads from it to another path. A pattern matches names, and a glob lists the files of a
//! tree whose last atom it matches. The directories that contain a path are found step by step upwards. This crate depends on
//! `bx_tree` for paths and trees. It carries the promise that all of these calls answer exactly as they are
//! defined.
#![tactic(auto)]

mod above;
mod globbing;
mod joining;
mod matching;
mod pattern;

pub use above::{add_directories, directories, parent};
pub use globbing::{GlobFault, MAX_PATTERN_BYTES, glob};
pub use joining::{join, parts_of};
pub use pattern::{Pattern, is_pattern, name_matches};
