//! The digests that an entry names.
ghost use Rattle.std.specs.Prelude.{◌≡◌, Err, OnOk, Some, map};
ghost use Rattle.bx_io.specs.Holdings.{Holdings, Keeps, held_in};
ghost use Rattle.memo_format.specs.Entries.{IsEntry};
ghost use Rattle.two_phase.specs.Calls.{KeeperCall};
ghost use Rattle.cache_care_check.specs.Known.{AreRight};
ghost use Rattle.cache_care.specs.Digests.{AddsAll};
ghost use Rattle.cache_care.specs.Naming.{in_entry, in_line, in_strong, in_weak, named_by, strong_at, weak_at};

use crate::digests::DigestSet;
use bx_digest::Digest;
use bx_io::Keeper;
use cache_care_check::{CareFault, KnownContents, strong_of, weak_of};
use memo_format::{Entry, OutputLine, seal_of};
use prints::{AnswerLine, StrongParts, WeakParts};
use std::alloc::{AllocError, Global};

fn add_digests(alloc: Global, named: &mut DigestSet, digests: &[Digest]) -> Result<(), AllocError>
    ensures { OnOk result (AddsAll named.old named.new digests.now) }
{
    'digests: for digest in digests {
        named.add(alloc, digest)?;
    }
    Ok(())
}

fn add_outputs(
    alloc: Global,
    named: &mut DigestSet,
    outputs: &[OutputLine],
) -> Result<(), AllocError>
    ensures { OnOk result (AddsAll named.old named.new (map (λ o. o.digest) outputs.now)) }
{
    'outputs: for output in outputs {
        named.add(alloc, &output.digest)?;
    }
    Ok(())
}

// The digests of the lines of an entry, its seal's too.
fn add_entry(alloc: Global, named: &mut DigestSet, entry: &Entry) -> Result<(), AllocError>
    requires { IsEntry entry.now }
    ensures { OnOk result (AddsAll named.old named.new (in_entry entry.now)) }
{
    named.add(alloc, &entry.weak)?;
    named.add(alloc, &entry.paths)?;
    named.add(alloc, &entry.strong)?;
    add_outputs(alloc, named, entry.outputs.lines())?;
    named.add(alloc, &seal_of(alloc, entry)?)
}

fn add_weak(alloc: Global, named: &mut DigestSet, parts: &WeakParts) -> Result<(), AllocError>
    ensures { OnOk result (AddsAll named.old named.new (in_weak (Some parts.now))) }
{
    named.add(alloc, &parts.exe)?;
    add_digests(alloc, named, parts.files.digests())
}

fn add_line(alloc: Global, named: &mut DigestSet, line: &AnswerLine) -> Result<(), AllocError>
    ensures { OnOk result (AddsAll named.old named.new (in_line line.now)) }
{
    match line {
        AnswerLine::Content(digest) | AnswerLine::Names(digest) => named.add(alloc, digest),
        AnswerLine::Absent | AnswerLine::File | AnswerLine::Directory | AnswerLine::Denied => Ok(
            (),
        ),
    }
}

fn add_strong(alloc: Global, named: &mut DigestSet, parts: &StrongParts) -> Result<(), AllocError>
    ensures { OnOk result (AddsAll named.old named.new (in_strong (Some parts.now))) }
{
    named.add(alloc, &parts.weak)?;
    named.add(alloc, &parts.paths)?;
    'lines: for line in parts.lines.lines() {
        add_line(alloc, named, line)?;
    }
    Ok(())
}

// Adds the digests that the weak text of a digest names, where it is held.
fn add_weak_of<K: Keeper>(
    alloc: Global,
    keeper: &mut K,
    contents: &mut KnownContents,
    named: &mut DigestSet,
    digest: &Digest,
) -> Result<(), CareFault>
    requires { AreRight (held_in (K.known keeper.old)) contents.old }
    ensures added { (S : Holdings) → held_in (K.known keeper.new) ≡ Some S →
        OnOk result (AddsAll named.old named.new (in_weak (weak_at S digest.now))) }
    ensures right { AreRight (held_in (K.known keeper.new)) contents.new }
    ensures known { Keeps (K.known keeper.old) (K.known keeper.new) }
    ensures keeper { KeeperCall (K.bound keeper.old) (K.bound keeper.new) (K.faults keeper.old)
        (K.faults keeper.new) (result ≡ Err CareFault.Failed) }
{
    match weak_of(alloc, keeper, contents, digest)? {
        Some(parts) => Ok(add_weak(alloc, named, &parts)?),
        None => Ok(()),
    }
}

// Adds the digests that the strong text of a digest names, where it is held.
fn add_strong_of<K: Keeper>(
    alloc: Global,
    keeper: &mut K,
    contents: &mut KnownContents,
    named: &mut DigestSet,
    digest: &Digest,
) -> Result<(), CareFault>
    requires { AreRight (held_in (K.known keeper.old)) contents.old }
    ensures added { (S : Holdings) → held_in (K.known keeper.new) ≡ Some S →
        OnOk result (AddsAll named.old named.new (in_strong (strong_at S digest.now))) }
    ensures right { AreRight (held_in (K.known keeper.new)) contents.new }
    ensures known { Keeps (K.known keeper.old) (K.known keeper.new) }
    ensures keeper { KeeperCall (K.bound keeper.old) (K.bound keeper.new) (K.faults keeper.old)
        (K.faults keeper.new) (result ≡ Err CareFault.Failed) }
{
    match strong_of(alloc, keeper, contents, digest)? {
        Some(parts) => Ok(add_strong(alloc, named, &parts)?),
        None => Ok(()),
    }
}

/// Adds the digests that an entry names, and that its weak and its strong text name, where these are held.
pub(crate) fn add_named<K: Keeper>(
    alloc: Global,
    keeper: &mut K,
    contents: &mut KnownContents,
    named: &mut DigestSet,
    entry: &Entry,
) -> Result<(), CareFault>
    requires right { AreRight (held_in (K.known keeper.old)) contents.old }
    requires entry { IsEntry entry.now }
    ensures added { (S : Holdings) → held_in (K.known keeper.new) ≡ Some S →
        OnOk result (AddsAll named.old named.new (named_by S entry.now)) }
    ensures right { AreRight (held_in (K.known keeper.new)) contents.new }
    ensures known { Keeps (K.known keeper.old) (K.known keeper.new) }
    ensures keeper { KeeperCall (K.bound keeper.old) (K.bound keeper.new) (K.faults keeper.old)
        (K.faults keeper.new) (result ≡ Err CareFault.Failed) }
{
    add_entry(alloc, named, entry)?;
    add_weak_of(alloc, keeper, contents, named, &entry.weak)?;
    add_strong_of(alloc, keeper, contents, named, &entry.strong)
}
