//! What is found of each name of a store.
ghost use Rattle.std.specs.Prelude.{◌≡◌, All, Err, IfOk, IfSome, Some, length, map, string_bytes};
ghost use Rattle.std.specs.FinMap.{keys};
ghost use Rattle.bx_io.specs.Holdings.{Holdings, Keeps, held_in};
ghost use Rattle.bx_io.specs.Names.{IsName};
ghost use Rattle.memo_format.specs.Entries.{IsEntry};
ghost use Rattle.memo_format.specs.StoreNames.{at_blob, at_entry, at_list};
ghost use Rattle.content_store.specs.HeldEntries.{IsHeld};
ghost use Rattle.two_phase.specs.Calls.{KeeperCall};
ghost use Rattle.two_phase.specs.Finding.{FindsOne};
ghost use Rattle.cache_care_check.specs.Findings.{IsFinding, IsSurvey};
ghost use Rattle.cache_care_check.specs.Known.{AreRight};

use crate::fault::CareFault;
use crate::judging::is_honest;
use crate::known::KnownContents;
use crate::names::{Named, read_name};
use bx_digest::Digest;
use bx_io::{Got, Keeper, Listed};
use content_store::{FetchedEntry, entry_of};
use memo_format::{Entry, FormatFault, read_selectors};
use std::alloc::Global;

/// What is found of a name.
#[derive(Clone, Copy, Debug, PartialEq, Eq)]
pub enum Finding {
    /// It does not hold what it says.
    Damaged,
    /// It holds an entry that is not honest.
    Bad,
    /// It holds an honest entry.
    Honest,
    /// It holds a content or selectors.
    Other,
}

/// The names of a store, rising by bytes, and what is found of each.
#[derive(Drop)]
pub struct Survey {
    pub names: Vec<String>,
    pub findings: Vec<Finding>,
}

/// The names of a store.
pub fn names_of<K: Keeper>(alloc: Global, keeper: &mut K) -> Result<Vec<String>, CareFault>
    ensures listed { (S : Holdings) → held_in (K.known keeper.new) ≡ Some S →
        IfOk result (λ names. map string_bytes names.items ≡ keys S) }
    ensures names { IfOk result (λ names. All (λ name. IsName (string_bytes name)) names.items) }
    ensures known { Keeps (K.known keeper.old) (K.known keeper.new) }
    ensures keeper { KeeperCall (K.bound keeper.old) (K.bound keeper.new) (K.faults keeper.old)
        (K.faults keeper.new) (result ≡ Err CareFault.Failed) }
{
    match keeper.names(alloc) {
        Listed::Names(names) => Ok(names),
        Listed::Failed => Err(CareFault::Failed),
        Listed::Memory => Err(CareFault::Memory),
    }
}

// What is found of the name of a content.
fn of_content<K: Keeper>(
    alloc: Global,
    keeper: &mut K,
    contents: &mut KnownContents,
    digest: &Digest,
) -> Result<Finding, CareFault>
    requires { AreRight (held_in (K.known keeper.old)) contents.old }
    ensures finding { (S : Holdings) → held_in (K.known keeper.new) ≡ Some S →
        IfOk result (IsFinding S (at_blob digest.now)) }
    ensures right { AreRight (held_in (K.known keeper.new)) contents.new }
    ensures known { Keeps (K.known keeper.old) (K.known keeper.new) }
    ensures keeper { KeeperCall (K.bound keeper.old) (K.bound keeper.new) (K.faults keeper.old)
        (K.faults keeper.new) (result ≡ Err CareFault.Failed) }
{
    let _bytes = digest.bytes();
    match contents.get(alloc, keeper, digest)? {
        Some(_) => Ok(Finding::Other),
        None => Ok(Finding::Damaged),
    }
}

// What is found of the name of selectors.
fn of_selectors<K: Keeper>(
    alloc: Global,
    keeper: &mut K,
    name: &str,
    weak: &Digest,
) -> Result<Finding, CareFault>
    requires is_name { IsName name.now }
    requires name { name.now ≡ at_list weak.now }
    ensures finding { (S : Holdings) → held_in (K.known keeper.new) ≡ Some S →
        IfOk result (IsFinding S name.now) }
    ensures known { Keeps (K.known keeper.old) (K.known keeper.new) }
    ensures keeper { KeeperCall (K.bound keeper.old) (K.bound keeper.new) (K.faults keeper.old)
        (K.faults keeper.new) (result ≡ Err CareFault.Failed) }
{
    let _bytes = weak.bytes();
    match keeper.get(alloc, name) {
        Got::Found(text) => match read_selectors(alloc, text.as_slice()) {
            Ok(_) => Ok(Finding::Other),
            Err(FormatFault::BadForm) => Ok(Finding::Damaged),
            Err(FormatFault::Memory) => Err(CareFault::Memory),
        },
        Got::None => Ok(Finding::Damaged),
        Got::Failed => Err(CareFault::Failed),
        Got::Memory => Err(CareFault::Memory),
    }
}

/// The entry that is held under the name of a strong digest, if one is.
pub fn held_entry<K: Keeper>(
    alloc: Global,
    keeper: &mut K,
    name: &str,
    strong: &Digest,
) -> Result<Option<Entry>, CareFault>
    requires is_name { IsName name.now }
    requires name { name.now ≡ at_entry strong.now }
    ensures found { IfOk result (FindsOne (held_in (K.known keeper.new)) (λ S e. IsHeld S strong.now e)) }
    ensures entry { IfOk result (λ found. IfSome found IsEntry) }
    ensures known { Keeps (K.known keeper.old) (K.known keeper.new) }
    ensures keeper { KeeperCall (K.bound keeper.old) (K.bound keeper.new) (K.faults keeper.old)
        (K.faults keeper.new) (result ≡ Err CareFault.Failed) }
{
    match keeper.get(alloc, name) {
        Got::Found(text) => match entry_of(alloc, text, strong) {
            FetchedEntry::Found(entry) => Ok(Some(entry)),
            FetchedEntry::NotWell => Ok(None),
            FetchedEntry::Fault => Err(CareFault::Failed),
            FetchedEntry::Memory => Err(CareFault::Memory),
        },
        Got::None => Ok(None),
        Got::Failed => Err(CareFault::Failed),
        Got::Memory => Err(CareFault::Memory),
    }
}

// What is found of the name of an entry.
fn of_entry<K: Keeper>(
    alloc: Global,
    keeper: &mut K,
    contents: &mut KnownContents,
    name: &str,
    strong: &Digest,
) -> Result<Finding, CareFault>
    requires right { AreRight (held_in (K.known keeper.old)) contents.old }
    requires is_name { IsName name.now }
    requires name { name.now ≡ at_entry strong.now }
    ensures finding { (S : Holdings) → held_in (K.known keeper.new) ≡ Some S →
        IfOk result (IsFinding S name.now) }
    ensures right { AreRight (held_in (K.known keeper.new)) contents.new }
    ensures known { Keeps (K.known keeper.old) (K.known keeper.new) }
    ensures keeper { KeeperCall (K.bound keeper.old) (K.bound keeper.new) (K.faults keeper.old)
        (K.faults keeper.new) (result ≡ Err CareFault.Failed) }
{
    let _bytes = strong.bytes();
    let entry = match held_entry(alloc, keeper, name, strong)? {
        Some(entry) => entry,
        None => return Ok(Finding::Damaged),
    };
    if is_honest(alloc, keeper, contents, &entry)? {
        Ok(Finding::Honest)
    } else {
        Ok(Finding::Bad)
    }
}

// What is found of a name.
fn of_name<K: Keeper>(
    alloc: Global,
    keeper: &mut K,
    contents: &mut KnownContents,
    name: &str,
) -> Result<Finding, CareFault>
    requires right { AreRight (held_in (K.known keeper.old)) contents.old }
    requires is_name { IsName name.now }
    ensures finding { (S : Holdings) → held_in (K.known keeper.new) ≡ Some S →
        IfOk result (IsFinding S name.now) }
    ensures right { AreRight (held_in (K.known keeper.new)) contents.new }
    ensures known { Keeps (K.known keeper.old) (K.known keeper.new) }
    ensures keeper { KeeperCall (K.bound keeper.old) (K.bound keeper.new) (K.faults keeper.old)
        (K.faults keeper.new) (result ≡ Err CareFault.Failed) }
{
    match read_name(name) {
        Named::Content(digest) => of_content(alloc, keeper, contents, &digest),
        Named::Entry(strong) => of_entry(alloc, keeper, contents, name, &strong),
        Named::Selectors(weak) => of_selectors(alloc, keeper, name, &weak),
    }
}

/// What is found of each name of a store. Contents come first in the order of names, so each is read and hashed where
/// its name comes, and kept for the entries after it.
pub fn survey_store<K: Keeper>(alloc: Global, keeper: &mut K) -> Result<Survey, CareFault>
    ensures survey { (S : Holdings) → held_in (K.known keeper.new) ≡ Some S → IfOk result (IsSurvey S) }
    ensures names { IfOk result (λ survey. All (λ name. IsName (string_bytes name)) survey.names.items) }
    ensures number { IfOk result (λ survey. length survey.findings.items ≡ length survey.names.items) }
    ensures known { Keeps (K.known keeper.old) (K.known keeper.new) }
    ensures keeper { KeeperCall (K.bound keeper.old) (K.bound keeper.new) (K.faults keeper.old)
        (K.faults keeper.new) (result ≡ Err CareFault.Failed) }
{
    let names = names_of(alloc, keeper)?;
    let mut contents = KnownContents::new(alloc);
    let mut findings = Vec::new(alloc);
    'names: for name in names.iter() {
        findings.push(of_name(alloc, keeper, &mut contents, name.as_str())?)?;
    }
    Ok(Survey { names, findings })
}
