//! Command line, messages and on-disk folder of the program `bundle`.
//!
//! It depends on `bundle_folder`, whose trait the folder on disk implements, and on `bx_tree` for paths. It carries
//! no promise but that the folder counts a fault where it reports one; `cases/folders` shows what it does.
#![tactic(auto)]

mod message;
mod system_folder;
mod words;

pub use message::{bundle_message, pack_message, unpack_message};
pub use system_folder::SystemFolder;
pub use words::{Command, read_words};
