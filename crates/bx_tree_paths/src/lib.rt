//! Paths by number and in order: a table that numbers paths, and sorted paths that are searched by halving.
//!
//! What looks for a path, or for the paths below a directory, does it here: each other index keeps numbers of a
//! table or a list in the order of paths. This crate depends on `bx_tree` for paths and on `indexmap` for the table.
//! It carries the promise that a search is exact and takes no more steps than the number of paths has binary digits.
#![tactic(auto)]

mod below;
mod between;
mod has_path;
mod path_table;
mod search;
mod sorted_paths;
mod steps;

pub use below::{Span, items_below};
pub use between::span_between;
pub use has_path::HasPath;
pub use path_table::{PathId, PathTable};
pub use search::place_of;
pub use sorted_paths::SortedPaths;
pub use steps::Steps;
