//! Packing a folder as a bundle, and unpacking a bundle to a folder.
//!
//! A folder is a trait with a count of faults, whose contract holds for a folder on disk and for one in memory
//! alike. The files of a folder are packed as a bundle, and a bundle is unpacked as files of a folder that has none
//! of them. This crate depends on `bx_io` for counted faults and on `bx_tree` for paths and bundles. It carries the
//! promises that packing and unpacking undo each other, and that each error names the path that causes it.
#![tactic(auto)]

mod fault;
mod folder;
mod laws;
mod mem_folder;
mod packing;
mod places;
mod unpacking;

pub use fault::{PackFault, UnpackFault};
pub use folder::{Entry, Folder, FolderFault, Kind, ListFault, ReadFault, WriteFault};
pub use laws::{one_packing, packed_is_unpacked, unpacked_is_packed};
pub use mem_folder::{MemFolder, Placed, Thing};
pub use packing::pack;
pub use places::{is_left_out, is_within};
pub use unpacking::{Replace, unpack};
