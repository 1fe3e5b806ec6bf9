//! A reader of a store that remembers the contents that it found last.
//!
//! Many cached results name the same contents, such as one path set. A [`RecentReader`] asks the reader that it is made of once
//! for them, as long as it remembers them. What it remembers is a copy, so a store that others change meanwhile answers as it
//! did before. It depends on `bx_io` for readers. It carries the promise that what it answers is what the reader that it is made
//! of told.
#![tactic(auto)]

mod recent_reader;

pub use recent_reader::RecentReader;
