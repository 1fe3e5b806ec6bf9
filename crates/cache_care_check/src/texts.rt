//! The three texts that an entry names.
ghost use Rattle.std.specs.Prelude.{◌≡◌, ◌≢◌, ◌↔◌, Err, IfOk, IfSome, IsTrue, length};
ghost use Rattle.bx_io.specs.Holdings.{Keeps, held_in};
ghost use Rattle.observed.specs.Texts.{has_match, read_paths_text};
ghost use Rattle.prints.specs.Processes.{IsWeak, without_pips};
ghost use Rattle.prints.specs.ReadWeak.{read_weak_text};
ghost use Rattle.prints.specs.Strong.{read_strong_text};
ghost use Rattle.two_phase.specs.Calls.{KeeperCall};
ghost use Rattle.two_phase.specs.Finding.{FindsOne};
ghost use Rattle.two_phase_meaning.specs.Contents.{HoldsPaths, HoldsStrong, HoldsWeak};
ghost use Rattle.cache_care_check.specs.Judging.{AddsStrong, AreTexts};
ghost use Rattle.cache_care_check.specs.Known.{AreRight};

use crate::fault::CareFault;
use crate::known::KnownContents;
use bx_digest::Digest;
use bx_io::Keeper;
use memo_format::Entry;
use observed::{PathSet, SetFault};
use prints::{AnswerLines, PrintFault, StrongParts, WeakParts, read_strong, read_weak};
use std::alloc::Global;

/// What the texts of an entry say: a process, the asks of its path set, and a line for each of them.
#[derive(Drop)]
pub(crate) struct EntryTexts {
    pub(crate) weak: WeakParts,
    pub(crate) paths: PathSet,
    pub(crate) lines: AnswerLines,
}

// What a weak text says, if it is one.
fn weak_in(alloc: Global, text: &[u8]) -> Result<Option<WeakParts>, CareFault>
    ensures read { IfOk result (λ parts. read_weak_text text.now ≡ parts) }
    ensures weak { IfOk result (λ parts. IfSome parts (λ w. IsWeak w × (without_pips w ≡ w))) }
    ensures no_fault { result ≢ Err CareFault.Failed }
{
    match read_weak(alloc, text) {
        Ok(parts) => Ok(Some(parts)),
        Err(PrintFault::BadPrint) => Ok(None),
        Err(PrintFault::Memory) => Err(CareFault::Memory),
    }
}

// The path set of a text, if it is one.
fn paths_in(alloc: Global, text: &[u8]) -> Result<Option<PathSet>, CareFault>
    ensures read { IfOk result (λ set. read_paths_text text.now ≡ set) }
    ensures no_fault { result ≢ Err CareFault.Failed }
{
    match PathSet::read(alloc, text) {
        Ok(set) => Ok(Some(set)),
        Err(SetFault::BadSet) => Ok(None),
        Err(SetFault::Memory) => Err(CareFault::Memory),
    }
}

// What a strong text says, if it is one.
fn strong_in(alloc: Global, text: &[u8]) -> Result<Option<StrongParts>, CareFault>
    ensures read { IfOk result (λ parts. read_strong_text text.now ≡ parts) }
    ensures no_fault { result ≢ Err CareFault.Failed }
{
    match read_strong(alloc, text) {
        Ok(parts) => Ok(Some(parts)),
        Err(PrintFault::BadPrint) => Ok(None),
        Err(PrintFault::Memory) => Err(CareFault::Memory),
    }
}

/// What the weak text of a digest says.
pub fn weak_of<K: Keeper>(
    alloc: Global,
    keeper: &mut K,
    contents: &mut KnownContents,
    digest: &Digest,
) -> Result<Option<WeakParts>, CareFault>
    requires { AreRight (held_in (K.known keeper.old)) contents.old }
    ensures found { IfOk result (FindsOne (held_in (K.known keeper.new)) (λ S parts. HoldsWeak S digest.now parts)) }
    ensures weak { IfOk result (λ parts. IfSome parts (λ w. IsWeak w × (without_pips w ≡ w))) }
    ensures right { AreRight (held_in (K.known keeper.new)) contents.new }
    ensures known { Keeps (K.known keeper.old) (K.known keeper.new) }
    ensures keeper { KeeperCall (K.bound keeper.old) (K.bound keeper.new) (K.faults keeper.old)
        (K.faults keeper.new) (result ≡ Err CareFault.Failed) }
{
    match contents.get(alloc, keeper, digest)? {
        Some(text) => weak_in(alloc, text.bytes()),
        None => Ok(None),
    }
}

// The path set whose text has a digest.
fn paths_of<K: Keeper>(
    alloc: Global,
    keeper: &mut K,
    contents: &mut KnownContents,
    digest: &Digest,
) -> Result<Option<PathSet>, CareFault>
    requires { AreRight (held_in (K.known keeper.old)) contents.old }
    ensures found { IfOk result (FindsOne (held_in (K.known keeper.new)) (λ S asks. HoldsPaths S digest.now asks)) }
    ensures right { AreRight (held_in (K.known keeper.new)) contents.new }
    ensures known { Keeps (K.known keeper.old) (K.known keeper.new) }
    ensures keeper { KeeperCall (K.bound keeper.old) (K.bound keeper.new) (K.faults keeper.old)
        (K.faults keeper.new) (result ≡ Err CareFault.Failed) }
{
    match contents.get(alloc, keeper, digest)? {
        Some(text) => paths_in(alloc, text.bytes()),
        None => Ok(None),
    }
}

/// What the strong text of a digest says.
pub fn strong_of<K: Keeper>(
    alloc: Global,
    keeper: &mut K,
    contents: &mut KnownContents,
    digest: &Digest,
) -> Result<Option<StrongParts>, CareFault>
    requires { AreRight (held_in (K.known keeper.old)) contents.old }
    ensures found { IfOk result
        (FindsOne (held_in (K.known keeper.new)) (λ S parts. HoldsStrong S digest.now parts)) }
    ensures right { AreRight (held_in (K.known keeper.new)) contents.new }
    ensures known { Keeps (K.known keeper.old) (K.known keeper.new) }
    ensures keeper { KeeperCall (K.bound keeper.old) (K.bound keeper.new) (K.faults keeper.old)
        (K.faults keeper.new) (result ≡ Err CareFault.Failed) }
{
    match contents.get(alloc, keeper, digest)? {
        Some(text) => strong_in(alloc, text.bytes()),
        None => Ok(None),
    }
}

// Whether a strong text is of the version of the path set of an entry, names its weak text and that path set, and has a
// line for each ask.
fn is_strong_of(parts: &StrongParts, entry: &Entry, paths: &PathSet) -> bool
    ensures { IsTrue result ↔ (parts.now.second ≡ has_match paths.now) × ((parts.now.weak ≡ entry.now.weak)
        × ((parts.now.paths ≡ entry.now.paths) × (length parts.now.lines ≡ length paths.now))) }
{
    parts.second == paths.has_match()
        && parts.weak == entry.weak
        && parts.paths == entry.paths
        && parts.lines.lines().len() == paths.asks().len()
}

// The texts of an entry whose first two are read.
fn with_strong<K: Keeper>(
    alloc: Global,
    keeper: &mut K,
    contents: &mut KnownContents,
    entry: &Entry,
    weak: WeakParts,
    paths: PathSet,
) -> Result<Option<EntryTexts>, CareFault>
    requires right { AreRight (held_in (K.known keeper.old)) contents.old }
    ensures found { IfOk result (FindsOne (held_in (K.known keeper.new))
        (λ S t. AddsStrong S entry.now weak paths t)) }
    ensures parts { IfOk result (λ found. IfSome found (λ t.
        (t.weak ≡ weak) × ((t.paths ≡ paths) × (length t.lines ≡ length t.paths)))) }
    ensures right { AreRight (held_in (K.known keeper.new)) contents.new }
    ensures known { Keeps (K.known keeper.old) (K.known keeper.new) }
    ensures keeper { KeeperCall (K.bound keeper.old) (K.bound keeper.new) (K.faults keeper.old)
        (K.faults keeper.new) (result ≡ Err CareFault.Failed) }
{
    match strong_of(alloc, keeper, contents, &entry.strong)? {
        Some(parts) => {
            if !is_strong_of(&parts, entry, &paths) {
                return Ok(None);
            }
            Ok(Some(EntryTexts {
                weak,
                paths,
                lines: parts.lines,
            }))
        }
        None => Ok(None),
    }
}

/// The texts that an entry names, if they are held and are those of one run.
pub(crate) fn texts_of<K: Keeper>(
    alloc: Global,
    keeper: &mut K,
    contents: &mut KnownContents,
    entry: &Entry,
) -> Result<Option<EntryTexts>, CareFault>
    requires { AreRight (held_in (K.known keeper.old)) contents.old }
    ensures found { IfOk result (FindsOne (held_in (K.known keeper.new)) (λ S t. AreTexts S entry.now t)) }
    ensures weak { IfOk result (λ found. IfSome found (λ t. IsWeak t.weak × (without_pips t.weak ≡ t.weak))) }
    ensures one_each { IfOk result (λ found. IfSome found (λ t. length t.lines ≡ length t.paths)) }
    ensures right { AreRight (held_in (K.known keeper.new)) contents.new }
    ensures known { Keeps (K.known keeper.old) (K.known keeper.new) }
    ensures keeper { KeeperCall (K.bound keeper.old) (K.bound keeper.new) (K.faults keeper.old)
        (K.faults keeper.new) (result ≡ Err CareFault.Failed) }
{
    let weak = match weak_of(alloc, keeper, contents, &entry.weak)? {
        Some(weak) => weak,
        None => return Ok(None),
    };
    match paths_of(alloc, keeper, contents, &entry.paths)? {
        Some(paths) => with_strong(alloc, keeper, contents, entry, weak, paths),
        None => Ok(None),
    }
}
