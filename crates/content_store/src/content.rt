//! Getting and putting contents.
ghost use Rattle.std.specs.Prelude.{◌≡◌, ◌≢◌, ◌∷◌, [], OnOk, OnErr, Err};
ghost use Rattle.bx_io.specs.Causes.{CanRise, HasCause, IsWithin};
ghost use Rattle.bx_io.specs.Holdings.{Keeps, Makes};
ghost use Rattle.bx_io.specs.Told.{Stays};
ghost use Rattle.content_store.specs.Contents.{Checks, Fetches, HasDigest, blob_put};

use crate::names::blob_name;
use bx_digest::{Blob, Digest};
use bx_io::{Got, KeepReader, Keeper, PutFault};
use std::alloc::Global;

/// The answer to a call for a content.
#[derive(Drop)]
pub enum Fetched {
    /// The content of this digest.
    Found(Blob),
    /// No bytes of this digest are held under its name.
    NotWell,
    /// The reader failed.
    Fault,
    /// There was no memory.
    Memory,
}

/// Bytes that were held under a digest, if it is theirs: they are hashed.
pub fn content_of(alloc: Global, bytes: Vec<u8>, digest: &Digest) -> Fetched
    ensures { Checks bytes.items digest.now result }
{
    match Blob::new(alloc, bytes) {
        Ok(blob) => {
            if blob.digest() == *digest {
                Fetched::Found(blob)
            } else {
                Fetched::NotWell
            }
        }
        Err(_) => Fetched::Memory,
    }
}

/// The content of a digest, hashed anew: a damaged one is not well-formed.
#[tactic(auto, using(crate::proofs::HeldContents::held_content, crate::proofs::HeldContents::no_content))]
pub fn get_blob<R: KeepReader>(alloc: Global, reader: &mut R, digest: &Digest) -> Fetched
    ensures fetched { Fetches (R.held reader.new) digest.now result }
    ensures digest { HasDigest digest.now result }
    ensures held { Stays (R.held reader.old) (R.held reader.new) }
    ensures bound { R.bound reader.new ≡ R.bound reader.old }
    ensures within { IsWithin (R.bound reader.old) (R.faults reader.old) →
        IsWithin (R.bound reader.new) (R.faults reader.new) }
    ensures can_rise { CanRise (R.bound reader.old) (R.faults reader.old) →
        CanRise (R.bound reader.new) (R.faults reader.new) }
    ensures cause { HasCause (R.faults reader.old) (R.faults reader.new) (result ≡ Fetched.Fault) }
    ensures no_fault { result ≢ Fetched.Fault → R.faults reader.new ≡ R.faults reader.old }
{
    let Ok(name) = blob_name(alloc, digest) else {
        return Fetched::Memory;
    };
    match reader.get(alloc, name.as_str()) {
        Got::Found(bytes) => content_of(alloc, bytes, digest),
        Got::None => Fetched::NotWell,
        Got::Failed => Fetched::Fault,
        Got::Memory => Fetched::Memory,
    }
}

/// Puts a content under its digest.
pub fn put_blob<K: Keeper>(alloc: Global, keeper: &mut K, blob: &Blob) -> Result<(), PutFault>
    ensures made { OnOk result (Makes (K.known keeper.old) (blob_put blob.now ∷ []) (K.known keeper.new)) }
    ensures refused { OnErr result (Keeps (K.known keeper.old) (K.known keeper.new)) }
    ensures bound { K.bound keeper.new ≡ K.bound keeper.old }
    ensures can_rise { CanRise (K.bound keeper.old) (K.faults keeper.old) →
        CanRise (K.bound keeper.new) (K.faults keeper.new) }
    ensures failed_can_rise { result ≡ Err PutFault.Failed →
        CanRise (K.bound keeper.new) (K.faults keeper.new) }
    ensures cause { HasCause (K.faults keeper.old) (K.faults keeper.new) (result ≡ Err PutFault.Failed) }
    ensures no_fault { result ≢ Err PutFault.Failed → K.faults keeper.new ≡ K.faults keeper.old }
{
    let name = blob_name(alloc, &blob.digest())?;
    keeper.put(alloc, name.as_str(), blob.bytes())
}
