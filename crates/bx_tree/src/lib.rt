//! Paths, shared strings, source trees, and the bundle format that writes a tree as one text.
//!
//! Everything that the engine reads or writes is a tree of files, and a tree goes in and out as a bundle. This
//! crate depends on std alone. It carries the promise of the round trip: each text is the bundle of exactly one
//! tree or has exactly one first fault, and is read and written accordingly.
#![tactic(auto)]

mod below;
mod bundle;
mod file_input;
mod header;
mod laws;
mod limits;
mod order;
mod path;
mod ranges;
mod text;
mod tree;
mod tree_file;

pub use below::{next_atom, text_below};
pub use bundle::{BundleFault, append_file, read_bundle, write_bundle};
pub use file_input::FileInput;
pub use header::split_once;
pub use laws::{one_path, one_reading, some_reading};
pub use limits::{MAX_ATOM_BYTES, MAX_BUNDLE_BYTES, MAX_FILE_BYTES, MAX_FILES, MAX_PATH_BYTES};
pub use path::{Path, PathFault, has_dir_prefix, is_atom, is_path};
pub use ranges::{comes_before, prefix_of};
pub use text::{Text, lines_of};
pub use tree::{Tree, reserved, text_order};
pub use tree_file::TreeFile;

/// Out of memory: the one error whose cause no contract states.
pub type Memory = std::alloc::AllocError;
