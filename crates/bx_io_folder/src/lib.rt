//! A store in the files of a folder, over any disk.
//!
//! Puts and drops are made under the lock of the folder, in an order that a loss of power cannot turn round, and which no
//! other program's puts can disturb. The folder held anything at first, and the store tells what it holds as long as no
//! answer disagrees with that and with what was done since. Nothing here knows the system. This crate depends on `bx_io`,
//! whose store it is, and on `bx_io_disk`, whose calls it makes and notes.
#![tactic(auto)]

mod folder_keeper;
mod laws;
mod ordered;
mod system;

pub use folder_keeper::{FolderKeeper, FolderReader};
pub use laws::folder_tells_on;
pub use ordered::{OrderedDisk, PLACES};
pub use system::System;
