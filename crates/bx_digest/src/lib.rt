//! SHA-256 digests, and content blobs that keep their digest.
//!
//! Whatever the engine stores or compares by content is named by its digest, and contents are passed on as blobs, which
//! are shared between threads and hashed once, when their digest is first asked for. This crate depends on `sha2` and `hex`. It carries the
//! promises that a blob's digest is SHA-256 of its bytes, and that a digest and its text convert to each other
//! exactly.
#![tactic(auto)]

mod blob;
mod digest;

pub use blob::Blob;
pub use digest::{Digest, NotHex, digest_of};
