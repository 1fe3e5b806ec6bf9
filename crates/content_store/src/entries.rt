//! Getting entries.
ghost use Rattle.std.specs.Prelude.{◌≡◌, ◌≢◌};
ghost use Rattle.bx_io.specs.Causes.{CanRise, HasCause, IsWithin};
ghost use Rattle.bx_io.specs.Told.{Stays};
ghost use Rattle.content_store.specs.HeldEntries.{ChecksEntry, FetchesEntry, HasStrong};

use crate::names::entry_name;
use bx_digest::Digest;
use bx_io::{Got, KeepReader};
use memo_format::{Entry, FormatFault, read_entry};
use std::alloc::Global;

/// The answer to a call for an entry.
#[derive(Drop)]
pub enum FetchedEntry {
    /// The entry of this strong digest.
    Found(Entry),
    /// No text of an entry of this strong digest is held under its name.
    NotWell,
    /// The reader failed.
    Fault,
    /// There was no memory.
    Memory,
}

/// The entry of a text that was held under a strong digest, if it is of that digest.
#[tactic(auto, using(crate::proofs::HeldEntries::another_entry, crate::proofs::HeldEntries::no_entry))]
pub fn entry_of(alloc: Global, bytes: Vec<u8>, strong: &Digest) -> FetchedEntry
    ensures { ChecksEntry bytes.items strong.now result }
{
    match read_entry(alloc, bytes.as_slice()) {
        Ok(entry) => {
            if entry.strong == *strong {
                FetchedEntry::Found(entry)
            } else {
                FetchedEntry::NotWell
            }
        }
        Err(FormatFault::BadForm) => FetchedEntry::NotWell,
        Err(FormatFault::Memory) => FetchedEntry::Memory,
    }
}

/// The cache entry of a strong fingerprint: one that is stored under another name is not well-formed.
#[tactic(auto, using(crate::proofs::HeldEntries::held_entry, crate::proofs::HeldEntries::none_held))]
pub fn get_entry<R: KeepReader>(alloc: Global, reader: &mut R, strong: &Digest) -> FetchedEntry
    ensures fetched { FetchesEntry (R.held reader.new) strong.now result }
    ensures strong { HasStrong strong.now result }
    ensures held { Stays (R.held reader.old) (R.held reader.new) }
    ensures bound { R.bound reader.new ≡ R.bound reader.old }
    ensures within { IsWithin (R.bound reader.old) (R.faults reader.old) →
        IsWithin (R.bound reader.new) (R.faults reader.new) }
    ensures can_rise { CanRise (R.bound reader.old) (R.faults reader.old) →
        CanRise (R.bound reader.new) (R.faults reader.new) }
    ensures cause { HasCause (R.faults reader.old) (R.faults reader.new) (result ≡ FetchedEntry.Fault) }
    ensures no_fault { result ≢ FetchedEntry.Fault → R.faults reader.new ≡ R.faults reader.old }
{
    let Ok(name) = entry_name(alloc, strong) else {
        return FetchedEntry::Memory;
    };
    match reader.get(alloc, name.as_str()) {
        Got::Found(bytes) => entry_of(alloc, bytes, strong),
        Got::None => FetchedEntry::NotWell,
        Got::Failed => FetchedEntry::Fault,
        Got::Memory => FetchedEntry::Memory,
    }
}
