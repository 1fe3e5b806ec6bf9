//! What the names of a store hold, as far as that is well-formed.
ghost use Rattle.std.specs.Prelude.{◌≡◌, ◌≢◌, Err, IfOk, IfSome};
ghost use Rattle.sha2.specs.Sha256.{sha256};
ghost use Rattle.bx_tree.specs.Trees.{NoneNested, paths_of};
ghost use Rattle.content_store.specs.Contents.{IsContent};
ghost use Rattle.content_store.specs.HeldEntries.{IsHeld};
ghost use Rattle.memo_format.specs.Entries.{OutputsRise};
ghost use Rattle.memo_format.specs.Found.{output_lines};
ghost use Rattle.memo_format.specs.PathsTexts.{PathsText};
ghost use Rattle.memo_format.specs.Selectors.{read_selectors_text};
ghost use Rattle.memo_format.specs.StoreNames.{HoldsList};
ghost use Rattle.two_phase_meaning.specs.Contents.{HoldsPaths};
ghost use Rattle.two_phase.specs.Calls.{ReaderCall};
ghost use Rattle.two_phase.specs.Finding.{AddsTo, AreOutputs, FindsOne, PutsIn};
ghost use Rattle.two_phase.specs.ReadSets.{IsEntryText, ReadsEntry, entry_in};

use crate::path_sets::PathSets;
use crate::store_fault::StoreFault;
use bx_digest::{Blob, Digest};
use bx_io::{Got, KeepReader};
use content_store::{Fetched, blob_name, entry_name, get_blob, list_name};
use memo_format::{
    Entry, FormatFault, OutputLine, ReadPaths, Selector, read_entry, read_selectors,
};
use pip_model_types::Made;
use std::alloc::Global;
use std::marker::Model;
use tool_run_writes::Writes;

/// Selectors, in order. Contracts see them as a list.
#[derive(Drop)]
pub(crate) struct SelectorList {
    list: Vec<Selector>,
}

impl Model for SelectorList {
    ghost use Rattle.std.specs.Prelude.{List};
    ghost use Rattle.memo_format.specs.declared.selector.Selector.{Selector};

    ghost Value = { List Selector };

    ghost view = { λ s. s.list.items };
}

// An entry with its text.
#[derive(Drop)]
pub(crate) struct HeldEntry {
    pub(crate) entry: Entry,
    pub(crate) text: Vec<u8>,
}

impl SelectorList {
    // The selectors, in order.
    pub(crate) fn list(&self) -> &[Selector]
        ensures { result.now ≡ self.now }
    {
        self.list.as_slice()
    }
}

/// The content of a digest, if it is held.
pub fn content<R: KeepReader>(
    alloc: Global,
    reader: &mut R,
    digest: &Digest,
) -> Result<Option<Blob>, StoreFault>
    ensures found { IfOk result (FindsOne (R.held reader.new) (λ S bytes. IsContent S digest.now bytes)) }
    ensures digest { IfOk result (λ found. IfSome found (λ bytes. sha256 bytes ≡ digest.now)) }
    ensures reader { ReaderCall (R.held reader.old) (R.held reader.new) (R.bound reader.old) (R.bound reader.new)
        (R.faults reader.old) (R.faults reader.new) (result ≡ Err StoreFault.Fault) }
{
    match get_blob(alloc, reader, digest) {
        Fetched::Found(blob) => Ok(Some(blob)),
        Fetched::NotWell => Ok(None),
        Fetched::Fault => Err(StoreFault::Fault),
        Fetched::Memory => Err(StoreFault::Memory),
    }
}

// The path set whose text has a digest, with that text.
pub(crate) fn path_set<R: KeepReader>(
    alloc: Global,
    reader: &mut R,
    sets: &mut PathSets,
    digest: &Digest,
) -> Result<Option<ReadPaths>, StoreFault>
    ensures found { IfOk result (FindsOne (R.held reader.new) (λ S (p : PathsText). HoldsPaths S digest.now p.asks)) }
    ensures digest { IfOk result (λ found. IfSome found (λ paths. paths.digest ≡ digest.now)) }
    ensures reader { ReaderCall (R.held reader.old) (R.held reader.new) (R.bound reader.old) (R.bound reader.new)
        (R.faults reader.old) (R.faults reader.new) (result ≡ Err StoreFault.Fault) }
{
    let name = blob_name(alloc, digest)?;
    match reader.get(alloc, name.as_str()) {
        Got::Found(bytes) => sets.set_of(alloc, digest, bytes),
        Got::None => Ok(None),
        Got::Failed => Err(StoreFault::Fault),
        Got::Memory => Err(StoreFault::Memory),
    }
}

// The entry of a text that was held under a strong digest, with that text, if it is of that digest.
#[tactic(auto, using(crate::proofs::Fetched::entry_other, crate::proofs::Fetched::entry_bad))]
fn read_held_entry(
    alloc: Global,
    text: Vec<u8>,
    strong: &Digest,
) -> Result<Option<HeldEntry>, StoreFault>
    ensures read { IfOk result (ReadsEntry text.items strong.now) }
    ensures no_fault { result ≢ Err StoreFault.Fault }
{
    match read_entry(alloc, text.as_slice()) {
        Ok(entry) => {
            if entry.strong == *strong {
                Ok(Some(HeldEntry { entry, text }))
            } else {
                Ok(None)
            }
        }
        Err(FormatFault::BadForm) => Ok(None),
        Err(FormatFault::Memory) => Err(StoreFault::Memory),
    }
}

// The entry of a strong digest, with its text.
pub(crate) fn entry<R: KeepReader>(
    alloc: Global,
    reader: &mut R,
    strong: &Digest,
) -> Result<Option<HeldEntry>, StoreFault>
    ensures found { IfOk result (λ found. FindsOne (R.held reader.new) (λ S e. IsHeld S strong.now e) (entry_in found)) }
    ensures entry { IfOk result (λ found. IfSome found (λ h. IsEntryText h × (h.entry.strong ≡ strong.now))) }
    ensures reader { ReaderCall (R.held reader.old) (R.held reader.new) (R.bound reader.old) (R.bound reader.new)
        (R.faults reader.old) (R.faults reader.new) (result ≡ Err StoreFault.Fault) }
{
    let name = entry_name(alloc, strong)?;
    match reader.get(alloc, name.as_str()) {
        Got::Found(text) => read_held_entry(alloc, text, strong),
        Got::None => Ok(None),
        Got::Failed => Err(StoreFault::Fault),
        Got::Memory => Err(StoreFault::Memory),
    }
}

// The selectors of a text, if it is a list of them.
fn read_list(alloc: Global, text: &[u8]) -> Result<Option<SelectorList>, StoreFault>
    ensures read { IfOk result (λ list. read_selectors_text text.now ≡ list) }
    ensures no_fault { result ≢ Err StoreFault.Fault }
{
    match read_selectors(alloc, text) {
        Ok(list) => Ok(Some(SelectorList { list })),
        Err(FormatFault::BadForm) => Ok(None),
        Err(FormatFault::Memory) => Err(StoreFault::Memory),
    }
}

// The selectors that are held for a weak text.
pub(crate) fn selectors<R: KeepReader>(
    alloc: Global,
    reader: &mut R,
    weak: &Digest,
) -> Result<Option<SelectorList>, StoreFault>
    ensures found { IfOk result (FindsOne (R.held reader.new) (λ S list. HoldsList S weak.now list)) }
    ensures reader { ReaderCall (R.held reader.old) (R.held reader.new) (R.bound reader.old) (R.bound reader.new)
        (R.faults reader.old) (R.faults reader.new) (result ≡ Err StoreFault.Fault) }
{
    let name = list_name(alloc, weak)?;
    match reader.get(alloc, name.as_str()) {
        Got::Found(text) => read_list(alloc, text.as_slice()),
        Got::None => Ok(None),
        Got::Failed => Err(StoreFault::Fault),
        Got::Memory => Err(StoreFault::Memory),
    }
}

// Puts an output among files: none where its path clashes with one of them.
fn put_output(
    alloc: Global,
    writes: Writes,
    output: &OutputLine,
    blob: Blob,
) -> Result<Option<Writes>, StoreFault>
    ensures put { IfOk result (PutsIn writes output.now.path blob) }
    ensures no_fault { result ≢ Err StoreFault.Fault }
{
    let path = output.path.share()?;
    let (now, is_put) = writes.put(alloc, path, blob)?;
    if is_put { Ok(Some(now)) } else { Ok(None) }
}

// Adds an output to files: none where it is not held, or its path clashes with one of them.
fn add_output<R: KeepReader>(
    alloc: Global,
    reader: &mut R,
    writes: Writes,
    output: &OutputLine,
) -> Result<Option<Writes>, StoreFault>
    ensures added { IfOk result (AddsTo (R.held reader.new) writes output.now) }
    ensures reader { ReaderCall (R.held reader.old) (R.held reader.new) (R.bound reader.old) (R.bound reader.new)
        (R.faults reader.old) (R.faults reader.new) (result ≡ Err StoreFault.Fault) }
{
    match content(alloc, reader, &output.digest)? {
        Some(blob) => put_output(alloc, writes, output, blob),
        None => Ok(None),
    }
}

// The files of outputs, which rise by path.
pub(crate) fn outputs<R: KeepReader>(
    alloc: Global,
    reader: &mut R,
    outputs: &[OutputLine],
) -> Result<Option<Made>, StoreFault>
    requires { OutputsRise outputs.now }
    ensures found { IfOk result (FindsOne (R.held reader.new) (λ S files. AreOutputs S outputs.now files)) }
    ensures made { IfOk result (λ found. IfSome found (λ files. output_lines files ≡ outputs.now)) }
    ensures unnested { IfOk result (λ found. IfSome found (λ files. NoneNested (paths_of files))) }
    ensures reader { ReaderCall (R.held reader.old) (R.held reader.new) (R.bound reader.old) (R.bound reader.new)
        (R.faults reader.old) (R.faults reader.new) (result ≡ Err StoreFault.Fault) }
{
    let mut writes = Writes::new(alloc);
    'outputs: for output in outputs {
        match add_output(alloc, reader, writes, output)? {
            Some(now) => writes = now,
            None => return Ok(None),
        }
    }
    Ok(Some(writes.into_made(alloc)?))
}
