//! The streams and the files of the system, and the arguments of a call.
//!
//! An adapter says what the system answered, and keeps a record of it. A stream had any contents at first, and tells what it
//! has as long as no answer disagrees with these. Of what the files of a folder hold nothing is known, as others may change
//! them at any moment. This crate depends on `bx_io`, whose source and sink its streams are, and on `bx_io_disk`, whose calls
//! on files it makes.
#![tactic(auto)]

mod laws;
mod std_sink;
mod std_source;
mod system_disk;
mod words;

pub use laws::source_tells_on;
pub use std_sink::StdSink;
pub use std_source::StdSource;
pub use system_disk::SystemDisk;
pub use words::program_words;
