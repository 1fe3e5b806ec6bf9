//! Lookups.
ghost use Rattle.std.specs.Prelude.{◌≡◌, ◌↔◌, Err, IfOk, IfSome, IsTrue, length, map};
ghost use Rattle.sha2.specs.Sha256.{sha256};
ghost use Rattle.memo_format.specs.Entries.{OutputsRise, output_paths};
ghost use Rattle.observed.specs.Texts.{has_match};
ghost use Rattle.prints.specs.Strong.{strong_parts, strong_text};
ghost use Rattle.run_record.specs.Digests.{IsReadBack, weak_of};
ghost use Rattle.two_phase_meaning.specs.Usable.{fits as all_fit};
ghost use Rattle.two_phase.specs.Calls.{ReaderCall};
ghost use Rattle.two_phase.specs.Finding.{FindsOne, HasParts, IsEntryFor, IsNamedBy, IsOf, IsOn, IsStrongMatch, IsWith};
ghost use Rattle.two_phase.specs.ReadSets.{IsEntryText, entry_in};
ghost use Rattle.two_phase.specs.Lookups.{FindsFirst, FindsUsable, IsCurrentHit, LeadsTo, LookupGives, LookupHitIsCurrent};

use crate::fetching::{HeldEntry, entry, outputs, path_set, selectors};
use crate::fitting::fits;
use crate::path_sets::PathSets;
use crate::store_fault::StoreFault;
use bx_digest::Digest;
use bx_io::KeepReader;
use memo_format::{Entry, Found, ReadPaths, Selector};
use observed::{Answer, View, answers_to};
use pip_model_types::Desc;
use prints::{reads_back, strong_of};
use run_record::weak_digest;
use std::alloc::{AllocError, Global};

/// The answer to a lookup.
#[derive(Drop)]
pub enum LookupResult {
    /// What the first usable selector leads to.
    Hit(Found),
    /// No selector is usable.
    Miss,
    /// The reader failed.
    Fault,
    /// There was no memory.
    Memory,
}

// What the asks of a path set are answered now, with the digest of their strong text.
#[derive(Drop)]
struct Asked {
    answers: Vec<Answer>,
    digest: Digest,
}

// What a view answers now to the asks of a path set, under a weak text with this digest.
fn ask_all<V: View>(
    alloc: Global,
    weak: &Digest,
    paths: &ReadPaths,
    view: &mut V,
) -> Result<Asked, AllocError>
    ensures answers { IfOk result (λ asked. asked.answers.items ≡ map (V.answers view.old) paths.now.asks) }
    ensures digest { IfOk result (λ asked. asked.digest ≡ sha256 (strong_text
        (strong_parts (has_match paths.now.asks) weak.now paths.now.digest asked.answers.items))) }
    ensures same { V.answers view.new ≡ V.answers view.old }
{
    let asks = paths.asks();
    let answers = answers_to(alloc, asks, view)?;
    let second = asks.has_match();
    let named = paths.digest();
    let printed = strong_of(alloc, second, weak, &named, answers.as_slice())?;
    Ok(Asked {
        answers,
        digest: printed.digest,
    })
}

// Whether an entry is one of a process with this weak digest and of a path set, and its outputs fit.
fn is_taken(entry: &Entry, desc: &Desc, weak: &Digest, paths: &Digest) -> bool
    requires { OutputsRise entry.now.outputs }
    ensures { IsTrue result ↔ (entry.now.weak ≡ weak.now) × ((entry.now.paths ≡ paths.now)
        × IsTrue (all_fit desc.now.process (output_paths entry.now.outputs))) }
{
    entry.weak == *weak && entry.paths == *paths && fits(&desc.process, entry.outputs.lines())
}

// The entry to which a selector of a process leads, with its text, if its outputs fit.
fn entry_for<R: KeepReader>(
    alloc: Global,
    reader: &mut R,
    desc: &Desc,
    weak: &Digest,
    selector: &Selector,
) -> Result<Option<HeldEntry>, StoreFault>
    requires { weak.now ≡ weak_of desc.now }
    ensures found { IfOk result (λ found. FindsOne (R.held reader.new)
        (λ S e. IsEntryFor S desc.now selector.now e) (entry_in found)) }
    ensures entry { IfOk result (λ found. IfSome found (λ h. IsNamedBy desc.now selector.now h.entry × IsEntryText h)) }
    ensures fit { IfOk result (λ found. IfSome found (λ h.
        IsTrue (all_fit desc.now.process (output_paths h.entry.outputs)))) }
    ensures reader { ReaderCall (R.held reader.old) (R.held reader.new) (R.bound reader.old) (R.bound reader.new)
        (R.faults reader.old) (R.faults reader.new) (result ≡ Err StoreFault.Fault) }
{
    match entry(alloc, reader, &selector.strong)? {
        Some(held) => {
            if is_taken(&held.entry, desc, weak, &selector.paths) {
                Ok(Some(held))
            } else {
                Ok(None)
            }
        }
        None => Ok(None),
    }
}

// An entry with its outputs, under a path set and answers.
fn with_outputs<R: KeepReader>(
    alloc: Global,
    reader: &mut R,
    sets: &mut PathSets,
    held: HeldEntry,
    paths: ReadPaths,
    answers: Vec<Answer>,
) -> Result<Option<Found>, StoreFault>
    requires entry { IsEntryText held }
    requires one_each { length answers.items ≡ length paths.asks }
    requires paths { paths.digest ≡ held.entry.paths }
    requires strong { sha256 (strong_text
        (strong_parts (has_match paths.asks) held.entry.weak held.entry.paths answers.items)) ≡ held.entry.strong }
    ensures found { IfOk result (FindsOne (R.held reader.new)
        (λ S found. IsWith S held.entry paths.asks answers.items found)) }
    ensures parts { IfOk result (λ found. IfSome found (HasParts held.entry paths.asks answers.items)) }
    ensures reader { ReaderCall (R.held reader.old) (R.held reader.new) (R.bound reader.old) (R.bound reader.new)
        (R.faults reader.old) (R.faults reader.new) (result ≡ Err StoreFault.Fault) }
{
    match outputs(alloc, reader, held.entry.outputs.lines())? {
        Some(made) => {
            let HeldEntry { entry, text } = held;
            let answers = sets.share(alloc, answers)?;
            let found = Found::new(alloc, entry, text, paths, answers, made)?;
            Ok(Some(found))
        }
        None => Ok(None),
    }
}

// The entry to which a selector of a process leads, with its outputs, under a path set and answers.
fn found_by<R: KeepReader>(
    alloc: Global,
    reader: &mut R,
    sets: &mut PathSets,
    desc: &Desc,
    weak: &Digest,
    selector: &Selector,
    paths: ReadPaths,
    answers: Vec<Answer>,
) -> Result<Option<Found>, StoreFault>
    requires weak { weak.now ≡ weak_of desc.now }
    requires one_each { length answers.items ≡ length paths.asks }
    requires paths { paths.digest ≡ selector.now.paths }
    requires strong { sha256 (strong_text
        (strong_parts (has_match paths.asks) (weak_of desc.now) selector.now.paths answers.items)) ≡ selector.now.strong }
    ensures found { IfOk result (FindsOne (R.held reader.new)
        (λ S found. IsOn S desc.now selector.now paths.asks answers.items found)) }
    ensures of { IfOk result (λ found. IfSome found (IsOf desc.now paths.asks answers.items)) }
    ensures reader { ReaderCall (R.held reader.old) (R.held reader.new) (R.bound reader.old) (R.bound reader.new)
        (R.faults reader.old) (R.faults reader.new) (result ≡ Err StoreFault.Fault) }
{
    match entry_for(alloc, reader, desc, weak, selector)? {
        Some(held) => with_outputs(alloc, reader, sets, held, paths, answers),
        None => Ok(None),
    }
}

// What a selector of a process leads to, if its path set, asked now, gives its strong digest, and it is
// usable.
fn asked_now<R: KeepReader, V: View>(
    alloc: Global,
    reader: &mut R,
    sets: &mut PathSets,
    desc: &Desc,
    weak: &Digest,
    selector: &Selector,
    paths: ReadPaths,
    view: &mut V,
) -> Result<Option<Found>, StoreFault>
    requires weak { weak.now ≡ weak_of desc.now }
    requires paths { paths.digest ≡ selector.now.paths }
    ensures found { IfOk result (FindsOne (R.held reader.new)
        (λ S found. IsStrongMatch S desc.now (V.answers view.old) selector.now paths.asks found)) }
    ensures now { IfOk result (λ found. IfSome found (IsCurrentHit desc.now (V.answers view.old))) }
    ensures same { V.answers view.new ≡ V.answers view.old }
    ensures reader { ReaderCall (R.held reader.old) (R.held reader.new) (R.bound reader.old) (R.bound reader.new)
        (R.faults reader.old) (R.faults reader.new) (result ≡ Err StoreFault.Fault) }
{
    let asked = ask_all(alloc, weak, &paths, view)?;
    let digest = asked.digest;
    if digest == selector.strong {
        found_by(
            alloc,
            reader,
            sets,
            desc,
            weak,
            selector,
            paths,
            asked.answers,
        )
    } else {
        Ok(None)
    }
}

// What a selector of a process leads to, if it is usable.
fn follow<R: KeepReader, V: View>(
    alloc: Global,
    reader: &mut R,
    sets: &mut PathSets,
    desc: &Desc,
    weak: &Digest,
    selector: &Selector,
    view: &mut V,
) -> Result<Option<Found>, StoreFault>
    requires { weak.now ≡ weak_of desc.now }
    ensures found { IfOk result (FindsOne (R.held reader.new)
        (λ S found. LeadsTo S desc.now (V.answers view.old) selector.now found)) }
    ensures now { IfOk result (λ found. IfSome found (IsCurrentHit desc.now (V.answers view.old))) }
    ensures same { V.answers view.new ≡ V.answers view.old }
    ensures reader { ReaderCall (R.held reader.old) (R.held reader.new) (R.bound reader.old) (R.bound reader.new)
        (R.faults reader.old) (R.faults reader.new) (result ≡ Err StoreFault.Fault) }
{
    match path_set(alloc, reader, sets, &selector.paths)? {
        Some(paths) => asked_now(alloc, reader, sets, desc, weak, selector, paths, view),
        None => Ok(None),
    }
}

// What the first usable selector of a list leads to.
fn first_usable<R: KeepReader, V: View>(
    alloc: Global,
    reader: &mut R,
    sets: &mut PathSets,
    desc: &Desc,
    weak: &Digest,
    list: &[Selector],
    view: &mut V,
) -> Result<Option<Found>, StoreFault>
    requires { weak.now ≡ weak_of desc.now }
    ensures found { IfOk result
        (FindsFirst (R.held reader.new) desc.now (V.answers view.old) list.now) }
    ensures now { IfOk result (λ found. IfSome found (IsCurrentHit desc.now (V.answers view.old))) }
    ensures same { V.answers view.new ≡ V.answers view.old }
    ensures reader { ReaderCall (R.held reader.old) (R.held reader.new) (R.bound reader.old) (R.bound reader.new)
        (R.faults reader.old) (R.faults reader.new) (result ≡ Err StoreFault.Fault) }
{
    'selectors: for selector in list {
        match follow(alloc, reader, sets, desc, weak, selector, view)? {
            Some(found) => return Ok(Some(found)),
            None => (),
        }
    }
    Ok(None)
}

// The usable cached result of a process with a weak digest, if the store has one.
fn find_usable<R: KeepReader, V: View>(
    alloc: Global,
    reader: &mut R,
    sets: &mut PathSets,
    desc: &Desc,
    weak: &Digest,
    view: &mut V,
) -> Result<Option<Found>, StoreFault>
    requires { weak.now ≡ weak_of desc.now }
    ensures found { IfOk result (FindsUsable (R.held reader.new) desc.now (V.answers view.old)) }
    ensures now { IfOk result (λ found. IfSome found (λ f.
        IsReadBack desc.now × IsCurrentHit desc.now (V.answers view.old) f)) }
    ensures same { V.answers view.new ≡ V.answers view.old }
    ensures reader { ReaderCall (R.held reader.old) (R.held reader.new) (R.bound reader.old) (R.bound reader.new)
        (R.faults reader.old) (R.faults reader.new) (result ≡ Err StoreFault.Fault) }
{
    reads_back(desc);
    match selectors(alloc, reader, weak)? {
        Some(held) => first_usable(alloc, reader, sets, desc, weak, held.list(), view),
        None => Ok(None),
    }
}

/// Looks up what the run of a process on this view made, by the digest of its weak text: what the first usable selector
/// leads to. It stops at the first get that fails. Path sets that were read before are not read again.
pub fn lookup_by<R: KeepReader, V: View>(
    alloc: Global,
    reader: &mut R,
    sets: &mut PathSets,
    desc: &Desc,
    weak: &Digest,
    view: &mut V,
) -> LookupResult
    requires { weak.now ≡ weak_of desc.now }
    ensures answer { LookupGives (R.held reader.new) desc.now (V.answers view.old) result }
    ensures now { LookupHitIsCurrent desc.now (V.answers view.old) result }
    ensures same { V.answers view.new ≡ V.answers view.old }
    ensures reader { ReaderCall (R.held reader.old) (R.held reader.new) (R.bound reader.old) (R.bound reader.new)
        (R.faults reader.old) (R.faults reader.new) (result ≡ LookupResult.Fault) }
{
    match find_usable(alloc, reader, sets, desc, weak, view) {
        Ok(Some(found)) => LookupResult::Hit(found),
        Ok(None) => LookupResult::Miss,
        Err(StoreFault::Fault) => LookupResult::Fault,
        Err(StoreFault::Memory) => LookupResult::Memory,
    }
}

/// The same for a process whose weak text is written and hashed here.
pub fn lookup_with<R: KeepReader, V: View>(
    alloc: Global,
    reader: &mut R,
    sets: &mut PathSets,
    desc: &Desc,
    view: &mut V,
) -> LookupResult
    ensures answer { LookupGives (R.held reader.new) desc.now (V.answers view.old) result }
    ensures now { LookupHitIsCurrent desc.now (V.answers view.old) result }
    ensures same { V.answers view.new ≡ V.answers view.old }
    ensures reader { ReaderCall (R.held reader.old) (R.held reader.new) (R.bound reader.old) (R.bound reader.new)
        (R.faults reader.old) (R.faults reader.new) (result ≡ LookupResult.Fault) }
{
    match weak_digest(alloc, desc) {
        Ok(weak) => lookup_by(alloc, reader, sets, desc, &weak, view),
        Err(_) => LookupResult::Memory,
    }
}

/// The same where no path set was read before.
pub fn lookup<R: KeepReader, V: View>(
    alloc: Global,
    reader: &mut R,
    desc: &Desc,
    view: &mut V,
) -> LookupResult
    ensures answer { LookupGives (R.held reader.new) desc.now (V.answers view.old) result }
    ensures now { LookupHitIsCurrent desc.now (V.answers view.old) result }
    ensures same { V.answers view.new ≡ V.answers view.old }
    ensures reader { ReaderCall (R.held reader.old) (R.held reader.new) (R.bound reader.old) (R.bound reader.new)
        (R.faults reader.old) (R.faults reader.new) (result ≡ LookupResult.Fault) }
{
    let mut sets = PathSets::new(alloc);
    lookup_with(alloc, reader, &mut sets, desc, view)
}
