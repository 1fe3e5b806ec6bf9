//! The content-addressable store: contents by digest and cache entries by strong fingerprint.
//!
//! A content is stored under the name that its digest gives, and an entry under that of its strong digest. This
//! crate has those names, the calls that get and put a content, and the call that gets an entry. It depends on
//! `bx_io` for stores, on `bx_digest` for contents and on `memo_format` for entries and for well-formed names. It
//! carries the promise that what is found has the requested digest.
#![tactic(auto)]

mod content;
mod entries;
mod names;

pub use content::{Fetched, content_of, get_blob, put_blob};
pub use entries::{FetchedEntry, entry_of, get_entry};
pub use names::{blob_name, entry_name, list_name};
