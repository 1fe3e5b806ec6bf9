//! Contents of a store, each read and hashed once.
ghost use Rattle.std.specs.Prelude.{◌≡◌, ℕ, List, Err, IfOk, OnErr, OnOk, Option, Some};
ghost use Rattle.bx_io.specs.Holdings.{Holdings, Keeps, held_in};
ghost use Rattle.content_store.specs.Contents.{IsContent};
ghost use Rattle.two_phase.specs.Calls.{KeeperCall};
ghost use Rattle.two_phase.specs.Finding.{FindsOne};
ghost use Rattle.cache_care_check.specs.Known.{AreRight, Matches, noted_at};

use crate::fault::CareFault;
use bx_digest::{Blob, Digest};
use bx_io::{Got, Keeper};
use content_store::{Fetched, blob_name, content_of};
use std::alloc::{AllocError, Global};
use std::collections::BTreeMap;

/// What was found at the digests that were asked for: the content of each, shared, or that none is held.
#[derive(Drop)]
pub struct KnownContents {
    contents: BTreeMap<Vec<u8>, Option<Blob>>,
}

fn share(found: &Option<Blob>) -> Result<Option<Blob>, AllocError>
    ensures { IfOk result (λ shared. shared ≡ found.now) }
{
    match found {
        Some(blob) => Ok(Some(blob.share()?)),
        None => Ok(None),
    }
}

// What bytes that are held under a digest say: that they are its content, or that none is held.
fn matched(fetched: Fetched) -> Result<Option<Blob>, CareFault>
    ensures { Matches fetched result }
{
    match fetched {
        Fetched::Found(blob) => Ok(Some(blob)),
        Fetched::NotWell => Ok(None),
        Fetched::Fault => Err(CareFault::Failed),
        Fetched::Memory => Err(CareFault::Memory),
    }
}

// The content of a digest that a store holds, hashed.
fn held_content<K: Keeper>(
    alloc: Global,
    keeper: &mut K,
    digest: &Digest,
) -> Result<Option<Blob>, CareFault>
    ensures found { IfOk result (FindsOne (held_in (K.known keeper.new)) (λ S x. IsContent S digest.now x)) }
    ensures known { Keeps (K.known keeper.old) (K.known keeper.new) }
    ensures keeper { KeeperCall (K.bound keeper.old) (K.bound keeper.new) (K.faults keeper.old)
        (K.faults keeper.new) (result ≡ Err CareFault.Failed) }
{
    let name = blob_name(alloc, digest)?;
    match keeper.get(alloc, name.as_str()) {
        Got::Found(bytes) => matched(content_of(alloc, bytes, digest)),
        Got::None => Ok(None),
        Got::Failed => Err(CareFault::Failed),
        Got::Memory => Err(CareFault::Memory),
    }
}

impl KnownContents {
    /// Nothing was asked for yet.
    pub fn new(alloc: Global) -> KnownContents
        ensures { (told : Option Holdings) → AreRight told result }
    {
        KnownContents {
            contents: BTreeMap::new(alloc),
        }
    }

    // Notes what was found at a digest.
    fn note(
        &mut self,
        alloc: Global,
        digest: &Digest,
        found: &Option<Blob>,
    ) -> Result<(), AllocError>
        ensures noted { OnOk result (noted_at self.new digest.now ≡ Some found.now) }
        ensures others { OnOk result ((q : List ℕ) → (digest.now ≡ q → ⊥) → noted_at self.new q ≡ noted_at self.old q) }
        ensures refused { OnErr result ((q : List ℕ) → noted_at self.new q ≡ noted_at self.old q) }
    {
        let key = Vec::from_slice(alloc, digest.bytes())?;
        self.contents.insert(key, share(found)?)?;
        Ok(())
    }

    /// The content of a digest, which is asked for once.
    pub fn get<K: Keeper>(
        &mut self,
        alloc: Global,
        keeper: &mut K,
        digest: &Digest,
    ) -> Result<Option<Blob>, CareFault>
        requires { AreRight (held_in (K.known keeper.old)) self.old }
        ensures found { IfOk result
            (FindsOne (held_in (K.known keeper.new)) (λ S x. IsContent S digest.now x)) }
        ensures right { AreRight (held_in (K.known keeper.new)) self.new }
        ensures known { Keeps (K.known keeper.old) (K.known keeper.new) }
        ensures keeper { KeeperCall (K.bound keeper.old) (K.bound keeper.new) (K.faults keeper.old)
            (K.faults keeper.new) (result ≡ Err CareFault.Failed) }
    {
        if let Some(found) = self.contents.get(digest.bytes()) {
            return Ok(share(found)?);
        }
        let found = held_content(alloc, keeper, digest)?;
        self.note(alloc, digest, &found)?;
        Ok(found)
    }
}
