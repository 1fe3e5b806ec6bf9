//! Sets of digests.
ghost use Rattle.std.specs.Prelude.{◌≡◌, ◌||◌, ℕ, List, OnOk, false};
ghost use Rattle.std.specs.Str.{bytes_eq};
ghost use Rattle.bx_digest.specs.Digests.{IsDigest};
ghost use Rattle.cache_care.specs.Digests.{has_digest};

use bx_digest::Digest;
use std::alloc::{AllocError, Global};
use std::collections::BTreeMap;

/// A set of digests.
#[derive(Drop)]
pub(crate) struct DigestSet {
    digests: BTreeMap<Vec<u8>, ()>,
}

impl DigestSet {
    /// No digests.
    pub(crate) fn new(alloc: Global) -> DigestSet
        ensures { (q : List ℕ) → has_digest result q ≡ false }
    {
        DigestSet {
            digests: BTreeMap::new(alloc),
        }
    }

    /// Whether the set has a digest.
    pub(crate) fn has(&self, digest: &Digest) -> bool
        ensures has { result ≡ has_digest self.now digest.now }
        ensures is_digest { IsDigest digest.now }
    {
        self.digests.get(digest.bytes()).is_some()
    }

    /// Adds a digest.
    pub(crate) fn add(&mut self, alloc: Global, digest: &Digest) -> Result<(), AllocError>
        ensures { OnOk result ((q : List ℕ) →
            has_digest self.new q ≡ (bytes_eq digest.now q || has_digest self.old q)) }
    {
        let key = Vec::from_slice(alloc, digest.bytes())?;
        self.digests.insert(key, ())?;
        Ok(())
    }
}
