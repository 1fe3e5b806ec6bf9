//! Path sets that were read, so that one text is hashed and read once, and the answers that the last hit was given.
ghost use Rattle.std.specs.Prelude.{◌≡◌, ◌≢◌, Err, IfOk, IfSome};
ghost use Rattle.memo_format.specs.PathsTexts.{IsPathsText};
ghost use Rattle.two_phase.specs.ReadSets.{ReadsSet, ReadsText};

use crate::store_fault::StoreFault;
use bx_digest::{Blob, Digest};
use content_store::{Fetched, content_of};
use memo_format::{AnswerList, ReadPaths};
use observed::{Answer, PathSet, SetFault};
use run_record::are_same_answers;
use std::alloc::{AllocError, Global};
use std::collections::BTreeMap;

/// Path sets that were read, by the digests of their texts. What was read is used only where a store has the same bytes
/// under the digest, so any table is right for any store. And the answers of the last hit, which the next one shares if its
/// asks are answered the same.
#[derive(Drop)]
pub struct PathSets {
    read: BTreeMap<Vec<u8>, ReadPaths>,
    last: Option<AnswerList>,
}

// The path set of a text, with that text, if it is one.
#[tactic(auto, using(crate::proofs::Fetched::text_bad))]
fn read_text(alloc: Global, text: Blob) -> Result<Option<ReadPaths>, StoreFault>
    ensures read { IfOk result (ReadsText text) }
    ensures no_fault { result ≢ Err StoreFault.Fault }
{
    match PathSet::read(alloc, text.bytes()) {
        Ok(asks) => Ok(Some(ReadPaths::of(alloc, text, asks)?)),
        Err(SetFault::BadSet) => Ok(None),
        Err(SetFault::Memory) => Err(StoreFault::Memory),
    }
}

// The path set of bytes that are held under a digest, if they have that digest and are the text of one.
fn read_held(
    alloc: Global,
    digest: &Digest,
    bytes: Vec<u8>,
) -> Result<Option<ReadPaths>, StoreFault>
    ensures read { IfOk result (ReadsSet bytes.items digest.now) }
    ensures no_fault { result ≢ Err StoreFault.Fault }
{
    match content_of(alloc, bytes, digest) {
        Fetched::Found(text) => read_text(alloc, text),
        Fetched::NotWell => Ok(None),
        Fetched::Fault => unreachable!(),
        Fetched::Memory => Err(StoreFault::Memory),
    }
}

// A path set, shared, if its text is these bytes and has this digest.
fn share_if(
    read: &ReadPaths,
    digest: &Digest,
    bytes: &[u8],
) -> Result<Option<ReadPaths>, AllocError>
    ensures { IfOk result (λ shared. IfSome shared (λ paths. IsPathsText paths
        × ((paths.text ≡ bytes.now) × (paths.digest ≡ digest.now)))) }
{
    let own = read.digest();
    if own != *digest {
        return Ok(None);
    }
    if read.text().bytes() != bytes {
        return Ok(None);
    }
    Ok(Some(read.share()?))
}

impl PathSets {
    /// No path set was read.
    pub fn new(alloc: Global) -> PathSets {
        PathSets {
            read: BTreeMap::new(alloc),
            last: None,
        }
    }

    // The path set that was read for a digest, if its text was these bytes.
    fn kept(&self, digest: &Digest, bytes: &[u8]) -> Result<Option<ReadPaths>, AllocError>
        ensures { IfOk result (λ kept. IfSome kept (λ paths. IsPathsText paths
            × ((paths.text ≡ bytes.now) × (paths.digest ≡ digest.now)))) }
    {
        match self.read.get(digest.bytes()) {
            Some(read) => share_if(read, digest, bytes),
            None => Ok(None),
        }
    }

    // Keeps a path set for its digest.
    fn keep(&mut self, alloc: Global, read: &ReadPaths) -> Result<(), AllocError> {
        let digest = read.digest();
        let key = Vec::from_slice(alloc, digest.bytes())?;
        self.read.insert(key, read.share()?)?;
        Ok(())
    }

    // The path set of bytes that are held under a digest, read now or before.
    pub(crate) fn set_of(
        &mut self,
        alloc: Global,
        digest: &Digest,
        bytes: Vec<u8>,
    ) -> Result<Option<ReadPaths>, StoreFault>
        ensures read { IfOk result (ReadsSet bytes.items digest.now) }
        ensures no_fault { result ≢ Err StoreFault.Fault }
    {
        if let Some(kept) = self.kept(digest, bytes.as_slice())? {
            return Ok(Some(kept));
        }
        let Some(read) = read_held(alloc, digest, bytes)? else {
            return Ok(None);
        };
        self.keep(alloc, &read)?;
        Ok(Some(read))
    }

    // The answers of a hit, shared with the last hit if that was answered the same.
    pub(crate) fn share(
        &mut self,
        alloc: Global,
        answers: Vec<Answer>,
    ) -> Result<AnswerList, AllocError>
        ensures { IfOk result (λ shared. shared ≡ answers.items) }
    {
        if let Some(last) = &self.last {
            if are_same_answers(last.answers(), answers.as_slice()) {
                return last.share();
            }
        }
        let made = AnswerList::of(alloc, answers)?;
        self.last = Some(made.share()?);
        Ok(made)
    }
}
