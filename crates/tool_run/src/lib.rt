//! The interpreter of tools: runs a tool's instructions over a view of the file system.
//!
//! A run sees its executable, the files that it declares and its own writes, and all others through a view. It
//! gives the accesses, the written files, the console output, how the run ended and how many steps it took. This
//! crate depends on `tool_text` for tools, on `observed` for accesses, and on `tool_run_writes` for the overlay of
//! written files. It carries the promises that a run is as defined, and depends on nothing but its process and the
//! answers in its path set.
#![tactic(auto)]

mod acting;
mod content;
mod counted;
mod digits;
mod effect;
mod instructions;
mod laws;
mod limits;
mod listing;
mod looking;
mod name_lines;
mod path_sets;
mod paths;
mod running;
mod state;
mod values;

pub use digits::MAX_DIGITS;
pub use laws::{accesses_hold, noninterference};
pub use limits::{MAX_OUTPUT, MAX_REGISTER};
pub use listing::asked_names;
pub use name_lines::{in_order, lines, matching, names_of_lines};
pub use path_sets::path_set_of;
pub use running::{Ran, run, run_no_tool};
pub use values::{head, number_of, split, tail, variable};
