//! The calls on the files of one folder, such a folder in memory, and the record of what a system answered.
//!
//! Each call of a [`Disk`] says what it does to the files, where these are known, and what is noted of it, so that a clause can
//! ask for an order of calls. A [`Record`] takes no bytes: it has what an adapter says that the system answered, from which
//! follows what a stream or a folder is told to hold. Nothing here knows which files are those of names, or makes a call of
//! the system. This crate depends on `bx_io`, whose answers are noted.
#![tactic(auto)]

mod disk;
mod kind;
mod mem_disk;
mod record;

pub use disk::{Disk, FILE_LIMIT};
pub use kind::Kind;
pub use mem_disk::MemDisk;
pub use record::Record;
