//! Contents that a store is known to hold.
ghost use Rattle.std.specs.Prelude.{◌≡◌, ℕ, IsTrue, List, OnErr, OnOk, Option, Some};
ghost use Rattle.bx_io.specs.Holdings.{Holdings};
ghost use Rattle.two_phase.specs.Held.{AreHeld, Tracks, key_of as number_of, noted_at};

use bx_digest::{Blob, Digest};
use std::alloc::{AllocError, Global};
use std::collections::BTreeMap;

/// Contents that were put into a store, shared, by the first eight bytes of their digests: they are not put again. A store of which
/// a name was dropped needs a new table.
#[derive(Drop)]
pub struct HeldContents {
    contents: BTreeMap<u64, Blob>,
}

// The number at which a content with this digest is noted.
fn key_of(digest: &Digest) -> u64
    ensures { result ≡ number_of digest.now }
{
    match digest.bytes().split_first_chunk::<8>() {
        Some((first, _)) => u64::from_be_bytes(*first),
        None => unreachable!(),
    }
}

impl HeldContents {
    /// No content is known to be held.
    pub fn new(alloc: Global) -> HeldContents
        ensures { (told : Option Holdings) → AreHeld told result }
    {
        HeldContents {
            contents: BTreeMap::new(alloc),
        }
    }

    // Whether this content is noted at the digest.
    pub(crate) fn has(&self, digest: &Digest, content: &Blob) -> bool
        ensures { IsTrue result → noted_at self.now (number_of digest.now) ≡ Some content.now }
    {
        match self.contents.get(&key_of(digest)) {
            Some(noted) => noted.bytes() == content.bytes(),
            None => false,
        }
    }

    // Takes out what is noted at a digest.
    pub(crate) fn forget(&mut self, digest: &Digest)
        ensures { (content : List ℕ) → Tracks self.old self.new (number_of digest.now) content }
    {
        self.contents.remove(&key_of(digest));
    }

    fn add(&mut self, digest: &Digest, content: &Blob) -> Result<(), AllocError>
        ensures added { OnOk result (Tracks self.old self.new (number_of digest.now) content.now) }
        ensures refused { OnErr result ((q : ℕ) → noted_at self.new q ≡ noted_at self.old q) }
    {
        self.contents.insert(key_of(digest), content.share()?)?;
        Ok(())
    }

    // Notes a content at its digest. Where there is no memory for it, nothing is noted there.
    pub(crate) fn note(&mut self, digest: &Digest, content: &Blob)
        ensures { Tracks self.old self.new (number_of digest.now) content.now }
    {
        self.forget(digest);
        let _ = self.add(digest, content);
    }
}
