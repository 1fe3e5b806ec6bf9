//! Saving execution records to the store.
ghost use Rattle.std.specs.Prelude.{◌≡◌, ◌∷◌, [], Err, IfOk, OnErr, OnOk, map};
ghost use Rattle.sha2.specs.Sha256.{sha256};
ghost use Rattle.bx_io.specs.Holdings.{Keeps, Makes, Put, held_in};
ghost use Rattle.content_store.specs.Contents.{blob_put};
ghost use Rattle.memo_format.specs.Selectors.{read_selectors_text};
ghost use Rattle.memo_format.specs.StoreNames.{at_entry, at_list};
ghost use Rattle.prints.specs.Processes.{weak_parts};
ghost use Rattle.prints.specs.Weak.{weak_text};
ghost use Rattle.run_record.specs.Digests.{IsWeakOf, weak_of};
ghost use Rattle.two_phase_meaning.specs.Saving.{IsGood, or_none, same_selector};
ghost use Rattle.two_phase_meaning.specs.Saving.{with_first as first_of};
ghost use Rattle.two_phase.specs.Applying.{Applies, AppliesAll, AppliesPrefix};
ghost use Rattle.two_phase.specs.Calls.{KeeperCall};
ghost use Rattle.two_phase.specs.Held.{AreHeld};
ghost use Rattle.two_phase.specs.Putting.{IsListAt, IsNextList, PutsAll, PutsUpTo, all_blobs, all_puts};

use crate::held::HeldContents;
use crate::recording::{Written, write};
use bx_digest::{Blob, Digest};
use bx_io::{Got, Keeper, PutFault};
use content_store::{blob_name, entry_name, list_name};
use memo_format::{FormatFault, MAX_SELECTORS, Selector, read_selectors, write_selectors};
use prints::{Printed, weak};
use run_record::Record;
use std::alloc::{AllocError, Global};

/// The result of a save.
#[derive(Clone, Copy, Debug, PartialEq, Eq)]
pub enum SaveResult {
    /// All puts were made, but for those of contents that were held.
    Saved,
    /// The store failed, and the puts after that were not made.
    Fault,
    /// There was no memory, and the puts after that were not made.
    Memory,
}

// Whether a selector is another.
pub(crate) fn is_same(a: &Selector, b: &Selector) -> bool
    ensures { result ≡ same_selector a.now b.now }
{
    a.paths == b.paths && a.strong == b.strong
}

// The list with a selector first and no other equal to it, cut to the greatest length.
fn with_first(alloc: Global, first: Selector, old: &[Selector]) -> Result<Vec<Selector>, AllocError>
    ensures { IfOk result (λ list. list.items ≡ first_of first old.now) }
{
    let mut list = Vec::new(alloc);
    list.push(first)?;
    'old: for selector in old {
        if !is_same(&first, selector) {
            list.push(*selector)?;
        }
    }
    list.truncate(MAX_SELECTORS);
    Ok(list)
}

// The selectors of a text, none where it is no list of them.
fn selectors_in(alloc: Global, text: &[u8]) -> Result<Vec<Selector>, AllocError>
    ensures { IfOk result (λ list. list.items ≡ or_none (read_selectors_text text.now)) }
{
    match read_selectors(alloc, text) {
        Ok(list) => Ok(list),
        Err(FormatFault::BadForm) => Ok(Vec::new(alloc)),
        Err(FormatFault::Memory) => Err(AllocError),
    }
}

// The selectors that are held for a weak text, none where their list is not well-formed.
fn held_list<K: Keeper>(
    alloc: Global,
    keeper: &mut K,
    weak: &Digest,
) -> Result<Vec<Selector>, PutFault>
    ensures list { IfOk result (λ list. IsListAt (held_in (K.known keeper.new)) weak.now list.items) }
    ensures known { Keeps (K.known keeper.old) (K.known keeper.new) }
    ensures keeper { KeeperCall (K.bound keeper.old) (K.bound keeper.new) (K.faults keeper.old)
        (K.faults keeper.new) (result ≡ Err PutFault.Failed) }
{
    let name = list_name(alloc, weak)?;
    match keeper.get(alloc, name.as_str()) {
        Got::Found(text) => Ok(selectors_in(alloc, text.as_slice())?),
        Got::None => Ok(Vec::new(alloc)),
        Got::Failed => Err(PutFault::Failed),
        Got::Memory => Err(PutFault::Memory),
    }
}

// Puts bytes under their digest.
fn put_bytes<K: Keeper>(
    alloc: Global,
    keeper: &mut K,
    digest: &Digest,
    bytes: &[u8],
) -> Result<(), PutFault>
    requires { digest.now ≡ sha256 bytes.now }
    ensures made { OnOk result (Makes (K.known keeper.old) (blob_put bytes.now ∷ []) (K.known keeper.new)) }
    ensures refused { OnErr result (Keeps (K.known keeper.old) (K.known keeper.new)) }
    ensures keeper { KeeperCall (K.bound keeper.old) (K.bound keeper.new) (K.faults keeper.old)
        (K.faults keeper.new) (result ≡ Err PutFault.Failed) }
{
    let name = blob_name(alloc, digest)?;
    keeper.put(alloc, name.as_str(), bytes)
}

// Puts a text under its digest.
fn put_text<K: Keeper>(
    alloc: Global,
    keeper: &mut K,
    held: &mut HeldContents,
    printed: &Printed,
) -> Result<(), PutFault>
    requires digest { printed.now.digest ≡ sha256 printed.now.text.items }
    requires held { AreHeld (held_in (K.known keeper.old)) held.old }
    ensures made { OnOk result
        (Applies (K.known keeper.old) (blob_put printed.now.text.items) (K.known keeper.new)) }
    ensures refused { OnErr result (Keeps (K.known keeper.old) (K.known keeper.new)) }
    ensures held { AreHeld (held_in (K.known keeper.new)) held.new }
    ensures keeper { KeeperCall (K.bound keeper.old) (K.bound keeper.new) (K.faults keeper.old)
        (K.faults keeper.new) (result ≡ Err PutFault.Failed) }
{
    put_bytes(alloc, keeper, &printed.digest, printed.text.as_slice())?;
    held.forget(&printed.digest);
    Ok(())
}

/// Puts a content under its digest, unless it is known to be held there.
pub fn put_content<K: Keeper>(
    alloc: Global,
    keeper: &mut K,
    held: &mut HeldContents,
    content: &Blob,
) -> Result<(), PutFault>
    requires { AreHeld (held_in (K.known keeper.old)) held.old }
    ensures made { OnOk result
        (Applies (K.known keeper.old) (blob_put content.now) (K.known keeper.new)) }
    ensures refused { OnErr result (Keeps (K.known keeper.old) (K.known keeper.new)) }
    ensures held { AreHeld (held_in (K.known keeper.new)) held.new }
    ensures keeper { KeeperCall (K.bound keeper.old) (K.bound keeper.new) (K.faults keeper.old)
        (K.faults keeper.new) (result ≡ Err PutFault.Failed) }
{
    let digest = content.digest();
    if held.has(&digest, content) {
        return Ok(());
    }
    put_bytes(alloc, keeper, &digest, content.bytes())?;
    held.note(&digest, content);
    Ok(())
}

// Puts contents under their digests.
fn put_contents<K: Keeper>(
    alloc: Global,
    keeper: &mut K,
    held: &mut HeldContents,
    contents: &[Blob],
) -> Result<(), PutFault>
    requires { AreHeld (held_in (K.known keeper.old)) held.old }
    ensures made { OnOk result
        (AppliesAll (K.known keeper.old) (map blob_put contents.now) (K.known keeper.new)) }
    ensures first { AppliesPrefix (K.known keeper.old) (K.known keeper.new) (map blob_put contents.now) }
    ensures held { AreHeld (held_in (K.known keeper.new)) held.new }
    ensures keeper { KeeperCall (K.bound keeper.old) (K.bound keeper.new) (K.faults keeper.old)
        (K.faults keeper.new) (result ≡ Err PutFault.Failed) }
{
    'contents: for blob in contents {
        put_content(alloc, keeper, held, blob)?;
    }
    Ok(())
}

// Puts the texts and the contents of a record.
fn put_blobs<K: Keeper>(
    alloc: Global,
    keeper: &mut K,
    held: &mut HeldContents,
    written: &Written,
) -> Result<(), PutFault>
    requires weak { written.now.weak.digest ≡ sha256 written.now.weak.text.items }
    requires strong { written.now.strong.digest ≡ sha256 written.now.strong.text.items }
    requires held { AreHeld (held_in (K.known keeper.old)) held.old }
    ensures made { OnOk result
        (AppliesAll (K.known keeper.old) (map blob_put (all_blobs written.now)) (K.known keeper.new)) }
    ensures first { AppliesPrefix (K.known keeper.old) (K.known keeper.new)
        (map blob_put (all_blobs written.now)) }
    ensures held { AreHeld (held_in (K.known keeper.new)) held.new }
    ensures keeper { KeeperCall (K.bound keeper.old) (K.bound keeper.new) (K.faults keeper.old)
        (K.faults keeper.new) (result ≡ Err PutFault.Failed) }
{
    put_text(alloc, keeper, held, &written.weak)?;
    put_content(alloc, keeper, held, &written.paths)?;
    put_text(alloc, keeper, held, &written.strong)?;
    put_contents(alloc, keeper, held, written.contents.as_slice())
}

// Puts the text of an entry under the strong digest.
fn put_entry<K: Keeper>(alloc: Global, keeper: &mut K, written: &Written) -> Result<(), PutFault>
    ensures made { OnOk result (Makes (K.known keeper.old)
        (Put (at_entry written.now.strong.digest) written.now.entry.items ∷ []) (K.known keeper.new)) }
    ensures refused { OnErr result (Keeps (K.known keeper.old) (K.known keeper.new)) }
    ensures keeper { KeeperCall (K.bound keeper.old) (K.bound keeper.new) (K.faults keeper.old)
        (K.faults keeper.new) (result ≡ Err PutFault.Failed) }
{
    let name = entry_name(alloc, &written.strong.digest)?;
    keeper.put(alloc, name.as_str(), written.entry.as_slice())
}

// Puts the text of a list of selectors under the weak digest.
fn put_list<K: Keeper>(
    alloc: Global,
    keeper: &mut K,
    weak: &Digest,
    text: &[u8],
) -> Result<(), PutFault>
    ensures made { OnOk result
        (Makes (K.known keeper.old) (Put (at_list weak.now) text.now ∷ []) (K.known keeper.new)) }
    ensures refused { OnErr result (Keeps (K.known keeper.old) (K.known keeper.new)) }
    ensures keeper { KeeperCall (K.bound keeper.old) (K.bound keeper.new) (K.faults keeper.old)
        (K.faults keeper.new) (result ≡ Err PutFault.Failed) }
{
    let name = list_name(alloc, weak)?;
    keeper.put(alloc, name.as_str(), text)
}

// Puts all that was written for a record, and its list.
fn put_all<K: Keeper>(
    alloc: Global,
    keeper: &mut K,
    held: &mut HeldContents,
    written: &Written,
    list: &[u8],
) -> Result<(), PutFault>
    requires weak { written.now.weak.digest ≡ sha256 written.now.weak.text.items }
    requires strong { written.now.strong.digest ≡ sha256 written.now.strong.text.items }
    requires held { AreHeld (held_in (K.known keeper.old)) held.old }
    ensures made { OnOk result
        (AppliesAll (K.known keeper.old) (all_puts written.now list.now) (K.known keeper.new)) }
    ensures first { AppliesPrefix (K.known keeper.old) (K.known keeper.new) (all_puts written.now list.now) }
    ensures held { AreHeld (held_in (K.known keeper.new)) held.new }
    ensures keeper { KeeperCall (K.bound keeper.old) (K.bound keeper.new) (K.faults keeper.old)
        (K.faults keeper.new) (result ≡ Err PutFault.Failed) }
{
    put_blobs(alloc, keeper, held, written)?;
    put_entry(alloc, keeper, written)?;
    put_list(alloc, keeper, &written.weak.digest, list)
}

// The text of the list of selectors that is put for what was written.
fn next_list<K: Keeper>(
    alloc: Global,
    keeper: &mut K,
    written: &Written,
) -> Result<Vec<u8>, PutFault>
    ensures list { IfOk result (λ text. IsNextList (held_in (K.known keeper.new)) written.now text.items) }
    ensures known { Keeps (K.known keeper.old) (K.known keeper.new) }
    ensures keeper { KeeperCall (K.bound keeper.old) (K.bound keeper.new) (K.faults keeper.old)
        (K.faults keeper.new) (result ≡ Err PutFault.Failed) }
{
    let old = held_list(alloc, keeper, &written.weak.digest)?;
    let selector = Selector {
        paths: written.paths.digest(),
        strong: written.strong.digest,
    };
    let list = with_first(alloc, selector, old.as_slice())?;
    let text = write_selectors(alloc, list.as_slice())?;
    Ok(text)
}

fn put_record<K: Keeper>(
    alloc: Global,
    keeper: &mut K,
    held: &mut HeldContents,
    ran: &Record,
    printed: Printed,
) -> Result<(), PutFault>
    requires good { IsGood ran.now }
    requires text { printed.text.items ≡ weak_text (weak_parts ran.now.desc) }
    requires digest { printed.digest ≡ weak_of ran.now.desc }
    requires held { AreHeld (held_in (K.known keeper.old)) held.old }
    ensures made { OnOk result (PutsAll (K.known keeper.old) (K.known keeper.new) ran.now) }
    ensures first { PutsUpTo (K.known keeper.old) (K.known keeper.new) ran.now }
    ensures held { AreHeld (held_in (K.known keeper.new)) held.new }
    ensures keeper { KeeperCall (K.bound keeper.old) (K.bound keeper.new) (K.faults keeper.old)
        (K.faults keeper.new) (result ≡ Err PutFault.Failed) }
{
    let written = write(alloc, ran, printed)?;
    let list = next_list(alloc, keeper, &written)?;
    put_all(alloc, keeper, held, &written, list.as_slice())
}

/// Puts what a record of a success is: its texts and contents, then its entry, then the list of its process
/// with its selector first. Path sets and contents of files that are noted as held are left out, and those
/// that it puts are noted. It stops at the first refusal. The weak text of its process is given, with its digest.
pub fn keep_with<K: Keeper>(
    alloc: Global,
    keeper: &mut K,
    held: &mut HeldContents,
    ran: &Record,
    printed: Printed,
) -> SaveResult
    requires good { IsGood ran.now }
    requires text { printed.text.items ≡ weak_text (weak_parts ran.now.desc) }
    requires digest { printed.digest ≡ weak_of ran.now.desc }
    requires held { AreHeld (held_in (K.known keeper.old)) held.old }
    ensures saved { result ≡ SaveResult.Saved → PutsAll (K.known keeper.old) (K.known keeper.new) ran.now }
    ensures first { PutsUpTo (K.known keeper.old) (K.known keeper.new) ran.now }
    ensures held { AreHeld (held_in (K.known keeper.new)) held.new }
    ensures keeper { KeeperCall (K.bound keeper.old) (K.bound keeper.new) (K.faults keeper.old)
        (K.faults keeper.new) (result ≡ SaveResult.Fault) }
{
    match put_record(alloc, keeper, held, ran, printed) {
        Ok(()) => SaveResult::Saved,
        Err(PutFault::Failed) => SaveResult::Fault,
        Err(PutFault::Memory) => SaveResult::Memory,
    }
}

// The weak text of the process of a record: the one that came with it, or else written and hashed here.
fn weak_with(alloc: Global, ran: &Record) -> Result<Printed, AllocError>
    ensures { IfOk result (IsWeakOf ran.now.desc) }
{
    match ran.weak() {
        Some(weak) => weak.copy(alloc),
        None => weak(alloc, ran.desc()),
    }
}

/// The same with the weak text that came with the record; where none did, it is written and hashed here.
pub fn keep<K: Keeper>(
    alloc: Global,
    keeper: &mut K,
    held: &mut HeldContents,
    ran: &Record,
) -> SaveResult
    requires good { IsGood ran.now }
    requires held { AreHeld (held_in (K.known keeper.old)) held.old }
    ensures saved { result ≡ SaveResult.Saved → PutsAll (K.known keeper.old) (K.known keeper.new) ran.now }
    ensures first { PutsUpTo (K.known keeper.old) (K.known keeper.new) ran.now }
    ensures held { AreHeld (held_in (K.known keeper.new)) held.new }
    ensures keeper { KeeperCall (K.bound keeper.old) (K.bound keeper.new) (K.faults keeper.old)
        (K.faults keeper.new) (result ≡ SaveResult.Fault) }
{
    match weak_with(alloc, ran) {
        Ok(printed) => keep_with(alloc, keeper, held, ran, printed),
        Err(_) => SaveResult::Memory,
    }
}
