//! Whether a store still has what was found in it. Nothing is hashed for that but the seal of the list: what is held is compared,
//! byte by byte, with what was found.
ghost use Rattle.std.specs.Prelude.{◌≡◌, Err, IfOk, IsTrue, Some};
ghost use Rattle.std.specs.List.{list_any};
ghost use Rattle.sha2.specs.Sha256.{sha256};
ghost use Rattle.bx_io.specs.Holdings.{Holdings};
ghost use Rattle.bx_tree.specs.Trees.{paths_of};
ghost use Rattle.memo_format.specs.Entries.{read_entry_text};
ghost use Rattle.memo_format.specs.StoreNames.{HoldsBlob, HoldsEntry};
ghost use Rattle.pip_model_types.specs.Made.{made_files};
ghost use Rattle.run_record.specs.Collisions.{contents_of};
ghost use Rattle.two_phase_meaning.specs.Contents.{HoldsAll, HoldsPaths};
ghost use Rattle.two_phase_meaning.specs.Saving.{same_selector};
ghost use Rattle.two_phase_meaning.specs.Usable.{fits as all_fit};
ghost use Rattle.two_phase.specs.Calls.{ReaderCall};
ghost use Rattle.two_phase.specs.Kept.{IsListed, Keeps, entry_selector};

use crate::fetching::selectors;
use crate::fitting::fits;
use crate::saving::is_same;
use crate::store_fault::StoreFault;
use bx_digest::Digest;
use bx_io::{Got, KeepReader};
use content_store::{blob_name, entry_name};
use memo_format::{Entry, Found, ReadPaths, Selector};
use pip_model_types::{MadeFile, ProcessDesc};
use std::alloc::Global;

/// The answer to the question whether a store still has what was found.
#[derive(Clone, Copy, Debug, PartialEq, Eq)]
pub enum Rechecked {
    /// It has all of it, and the files are what the process may make.
    Kept,
    /// It has not all of it, or they are not.
    Changed,
    /// The reader failed.
    Fault,
    /// There was no memory.
    Memory,
}

// ## Selectors

// Whether one of the selectors of a list leads to an entry.
fn has_selector(list: &[Selector], entry: &Entry) -> bool
    ensures { result ≡ list_any (same_selector (entry_selector entry.now)) list.now }
{
    let own = Selector {
        paths: entry.paths,
        strong: entry.strong,
    };
    list.iter().any(|selector| is_same(&own, selector))
}

// ## What is held

// Whether the list of an entry's weak text has its selector.
fn is_listed<R: KeepReader>(
    alloc: Global,
    reader: &mut R,
    entry: &Entry,
) -> Result<bool, StoreFault>
    ensures listed { IfOk result (λ listed. IsTrue listed → (S : Holdings) → R.held reader.new ≡ Some S → IsListed S entry.now) }
    ensures reader { ReaderCall (R.held reader.old) (R.held reader.new) (R.bound reader.old) (R.bound reader.new)
        (R.faults reader.old) (R.faults reader.new) (result ≡ Err StoreFault.Fault) }
{
    match selectors(alloc, reader, &entry.weak)? {
        Some(held) => Ok(has_selector(held.list(), entry)),
        None => Ok(false),
    }
}

// Whether bytes are the same.
fn are_same_bytes(a: &[u8], b: &[u8]) -> bool
    ensures { IsTrue result → a.now ≡ b.now }
{
    a == b
}

// Whether the text of an entry is held under the entry's strong digest.
fn has_entry<R: KeepReader>(
    alloc: Global,
    reader: &mut R,
    entry: &Entry,
    text: &[u8],
) -> Result<bool, StoreFault>
    requires { read_entry_text text.now ≡ Some entry.now }
    ensures held { IfOk result (λ held. IsTrue held → (S : Holdings) → R.held reader.new ≡ Some S → HoldsEntry S entry.now) }
    ensures reader { ReaderCall (R.held reader.old) (R.held reader.new) (R.bound reader.old) (R.bound reader.new)
        (R.faults reader.old) (R.faults reader.new) (result ≡ Err StoreFault.Fault) }
{
    let name = entry_name(alloc, &entry.strong)?;
    match reader.get(alloc, name.as_str()) {
        Got::Found(bytes) => Ok(are_same_bytes(bytes.as_slice(), text)),
        Got::None => Ok(false),
        Got::Failed => Err(StoreFault::Fault),
        Got::Memory => Err(StoreFault::Memory),
    }
}

// Whether a content is held under its digest.
fn has_content<R: KeepReader>(
    alloc: Global,
    reader: &mut R,
    digest: &Digest,
    content: &[u8],
) -> Result<bool, StoreFault>
    requires { digest.now ≡ sha256 content.now }
    ensures held { IfOk result (λ held. IsTrue held → (S : Holdings) → R.held reader.new ≡ Some S → HoldsBlob S content.now) }
    ensures reader { ReaderCall (R.held reader.old) (R.held reader.new) (R.bound reader.old) (R.bound reader.new)
        (R.faults reader.old) (R.faults reader.new) (result ≡ Err StoreFault.Fault) }
{
    let name = blob_name(alloc, digest)?;
    match reader.get(alloc, name.as_str()) {
        Got::Found(bytes) => Ok(are_same_bytes(bytes.as_slice(), content)),
        Got::None => Ok(false),
        Got::Failed => Err(StoreFault::Fault),
        Got::Memory => Err(StoreFault::Memory),
    }
}

// Whether the text of a path set is held under its digest.
fn has_paths<R: KeepReader>(
    alloc: Global,
    reader: &mut R,
    paths: &ReadPaths,
) -> Result<bool, StoreFault>
    ensures held { IfOk result (λ held. IsTrue held → (S : Holdings) → R.held reader.new ≡ Some S
        → HoldsPaths S paths.now.digest paths.now.asks) }
    ensures reader { ReaderCall (R.held reader.old) (R.held reader.new) (R.bound reader.old) (R.bound reader.new)
        (R.faults reader.old) (R.faults reader.new) (result ≡ Err StoreFault.Fault) }
{
    let digest = paths.digest();
    has_content(alloc, reader, &digest, paths.text().bytes())
}

// Whether the contents of files are held, each under its digest.
fn has_files<R: KeepReader>(
    alloc: Global,
    reader: &mut R,
    files: &[MadeFile],
) -> Result<bool, StoreFault>
    ensures held { IfOk result (λ held. IsTrue held → (S : Holdings) → R.held reader.new ≡ Some S
        → HoldsAll S (contents_of (made_files files.now))) }
    ensures reader { ReaderCall (R.held reader.old) (R.held reader.new) (R.bound reader.old) (R.bound reader.new)
        (R.faults reader.old) (R.faults reader.new) (result ≡ Err StoreFault.Fault) }
{
    'files: for file in files {
        let digest = file.blob.digest();
        let held = has_content(alloc, reader, &digest, file.blob.bytes())?;
        if !held {
            return Ok(false);
        }
    }
    Ok(true)
}

// Whether all of what was found is held.
fn is_kept<R: KeepReader>(alloc: Global, reader: &mut R, found: &Found) -> Result<bool, StoreFault>
    ensures kept { IfOk result (λ kept. IsTrue kept → Keeps (R.held reader.new) found.now) }
    ensures reader { ReaderCall (R.held reader.old) (R.held reader.new) (R.bound reader.old) (R.bound reader.new)
        (R.faults reader.old) (R.faults reader.new) (result ≡ Err StoreFault.Fault) }
{
    let entry = found.entry();
    let listed = is_listed(alloc, reader, entry)?;
    if !listed {
        return Ok(false);
    }
    let there = has_entry(alloc, reader, entry, found.entry_text())?;
    if !there {
        return Ok(false);
    }
    let read = has_paths(alloc, reader, found.read_paths())?;
    if !read {
        return Ok(false);
    }
    has_files(alloc, reader, found.made().files())
}

// Whether files that were found are what a process declares to make and may make.
fn fits_process(process: &ProcessDesc, found: &Found) -> bool
    ensures { result ≡ all_fit process.now (paths_of found.now.made) }
{
    let _rising = found.made().files();
    fits(process, found.entry().outputs.lines())
}

/// Whether a store still has what was found, and its files are what a process may make: the selector in the list, the entry, the
/// path set and the files, byte by byte. It stops at the first get that fails.
pub fn recheck<R: KeepReader>(
    alloc: Global,
    reader: &mut R,
    process: &ProcessDesc,
    found: &Found,
) -> Rechecked
    ensures kept { result ≡ Rechecked.Kept → Keeps (R.held reader.new) found.now }
    ensures fit { result ≡ Rechecked.Kept → IsTrue (all_fit process.now (paths_of found.now.made)) }
    ensures reader { ReaderCall (R.held reader.old) (R.held reader.new) (R.bound reader.old) (R.bound reader.new)
        (R.faults reader.old) (R.faults reader.new) (result ≡ Rechecked.Fault) }
{
    if !fits_process(process, found) {
        return Rechecked::Changed;
    }
    match is_kept(alloc, reader, found) {
        Ok(kept) => {
            if kept {
                Rechecked::Kept
            } else {
                Rechecked::Changed
            }
        }
        Err(StoreFault::Fault) => Rechecked::Fault,
        Err(StoreFault::Memory) => Rechecked::Memory,
    }
}
