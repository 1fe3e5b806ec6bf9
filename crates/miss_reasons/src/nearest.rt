//! The stored description that is nearest to a process.
ghost use Rattle.std.specs.Prelude.{◌≡◌, ◌⊎◌, Err, IfOk, Some};
ghost use Rattle.pip_model_types.specs.declared.desc.Desc.{Desc as AnyDesc};
ghost use Rattle.prints.specs.Processes.{weak_parts};
ghost use Rattle.prints.specs.ReadWeak.{read_weak_text};
ghost use Rattle.two_phase.specs.Calls.{ReaderCall};
ghost use Rattle.miss_reasons.specs.Finding.{AreRead, IsBeside, IsHeldBest, Told};
ghost use Rattle.miss_reasons.specs.Reasons.{IsNear};

use crate::reason::{Near, ReadFault};
use crate::selectors::content;
use bx_digest::{Blob, Digest};
use bx_io::KeepReader;
use bx_tree::{Memory, Path, lines_of};
use pip_model_types::{Desc, OutDir, ProcessDesc};
use prints::{PrintFault, Printed, WeakParts, read_weak, weak};
use std::alloc::{AllocError, Global};
use std::collections::BTreeMap;

/// The stored descriptions, by what they make. They are read when the first is asked for.
#[derive(Drop)]
pub struct Known {
    names: Vec<String>,
    by_outputs: Option<BTreeMap<Vec<u8>, Vec<Digest>>>,
}

impl Known {
    /// The descriptions beside whose selectors these names stand. Nothing is read yet.
    pub fn new(names: Vec<String>) -> Known {
        Known {
            names,
            by_outputs: None,
        }
    }

    // The digests of the descriptions, as far as they were read, that make what a text says, if there are some.
    fn with_outputs(&self, text: &[u8]) -> Option<&[Digest]> {
        let digests = self.by_outputs.as_ref()?.get(text)?;
        Some(digests.as_slice())
    }
}

// A description that is held, and how many lines it has in common with an own one.
#[derive(Drop)]
pub(crate) struct Best {
    count: usize,
    text: Blob,
}

fn add_path(text: &mut Vec<u8>, word: &[u8], path: &Path) -> Result<(), Memory> {
    text.extend_from_slice(word)?;
    text.extend_from_slice(path.text().as_bytes())?;
    text.push(b'\n')?;
    Ok(())
}

fn add_files(text: &mut Vec<u8>, paths: &[Path]) -> Result<(), Memory> {
    'paths: for path in paths {
        add_path(text, b"out ", path)?;
    }
    Ok(())
}

fn add_dirs(text: &mut Vec<u8>, dirs: &[OutDir]) -> Result<(), Memory> {
    'dirs: for dir in dirs {
        add_path(text, b"outdir ", &dir.path)?;
    }
    Ok(())
}

// What a process makes, as a text: equal just where the paths are.
fn outputs_text(alloc: Global, process: &ProcessDesc) -> Result<Vec<u8>, Memory> {
    let mut text = Vec::new(alloc);
    if let Some(console) = &process.console {
        add_path(&mut text, b"console ", console)?;
    }
    add_files(&mut text, process.outs.paths())?;
    add_dirs(&mut text, process.outdirs.dirs())?;
    Ok(text)
}

// What a weak text says, if it is one.
fn parts_of(alloc: Global, text: &[u8]) -> Result<Option<WeakParts>, Memory>
    ensures { IfOk result (λ parts. read_weak_text text.now ≡ parts) }
{
    match read_weak(alloc, text) {
        Ok(parts) => Ok(Some(parts)),
        Err(PrintFault::BadPrint) => Ok(None),
        Err(PrintFault::Memory) => Err(AllocError),
    }
}

// The digest in the name of a list of selectors.
fn digest_in(name: &str) -> Option<Digest> {
    let digits = name.strip_prefix("w/")?;
    Digest::from_hex(digits.as_bytes()).ok()
}

// Adds a digest to those of the descriptions that make the same.
fn add_digest(
    alloc: Global,
    digest: Digest,
    key: Vec<u8>,
    by_outputs: &mut BTreeMap<Vec<u8>, Vec<Digest>>,
) -> Result<(), Memory> {
    if let Some(digests) = by_outputs.get_mut(key.as_slice()) {
        digests.push(digest)?;
        return Ok(());
    }
    let mut digests = Vec::new(alloc);
    digests.push(digest)?;
    by_outputs.insert(key, digests)?;
    Ok(())
}

// Adds the digest of a text, if that is a description.
fn add_text(
    alloc: Global,
    text: &[u8],
    digest: Digest,
    by_outputs: &mut BTreeMap<Vec<u8>, Vec<Digest>>,
) -> Result<(), Memory> {
    match parts_of(alloc, text)? {
        Some(parts) => add_digest(
            alloc,
            digest,
            outputs_text(alloc, &parts.process)?,
            by_outputs,
        ),
        None => Ok(()),
    }
}

// Adds the description that has a digest, if it is held.
fn add_description<R: KeepReader>(
    alloc: Global,
    reader: &mut R,
    digest: Digest,
    by_outputs: &mut BTreeMap<Vec<u8>, Vec<Digest>>,
) -> Result<(), ReadFault>
    ensures { ReaderCall (R.held reader.old) (R.held reader.new) (R.bound reader.old) (R.bound reader.new)
        (R.faults reader.old) (R.faults reader.new) (result ≡ Err ReadFault.Failed) }
{
    match content(alloc, reader, &digest)? {
        Some(text) => {
            add_text(alloc, text.bytes(), digest, by_outputs)?;
            Ok(())
        }
        None => Ok(()),
    }
}

// Adds the description beside whose selectors a name stands, if it is held.
fn add_name<R: KeepReader>(
    alloc: Global,
    reader: &mut R,
    name: &str,
    by_outputs: &mut BTreeMap<Vec<u8>, Vec<Digest>>,
) -> Result<(), ReadFault>
    ensures { ReaderCall (R.held reader.old) (R.held reader.new) (R.bound reader.old) (R.bound reader.new)
        (R.faults reader.old) (R.faults reader.new) (result ≡ Err ReadFault.Failed) }
{
    match digest_in(name) {
        Some(digest) => add_description(alloc, reader, digest, by_outputs),
        None => Ok(()),
    }
}

// All descriptions that are held, by what they make.
fn descriptions<R: KeepReader>(
    alloc: Global,
    reader: &mut R,
    names: &[String],
) -> Result<BTreeMap<Vec<u8>, Vec<Digest>>, ReadFault>
    ensures { ReaderCall (R.held reader.old) (R.held reader.new) (R.bound reader.old) (R.bound reader.new)
        (R.faults reader.old) (R.faults reader.new) (result ≡ Err ReadFault.Failed) }
{
    let mut by_outputs = BTreeMap::new(alloc);
    'names: for name in names {
        add_name(alloc, reader, name.as_str(), &mut by_outputs)?;
    }
    Ok(by_outputs)
}

// Reads all descriptions, if that was not done.
fn read_all<R: KeepReader>(
    alloc: Global,
    reader: &mut R,
    known: &mut Known,
) -> Result<(), ReadFault>
    ensures { ReaderCall (R.held reader.old) (R.held reader.new) (R.bound reader.old) (R.bound reader.new)
        (R.faults reader.old) (R.faults reader.new) (result ≡ Err ReadFault.Failed) }
{
    if known.by_outputs.is_some() {
        return Ok(());
    }
    let by_outputs = descriptions(alloc, reader, known.names.as_slice())?;
    known.by_outputs = Some(by_outputs);
    Ok(())
}

// How many lines of a text are among these, which are sorted.
fn common(alloc: Global, text: &[u8], own: &[&[u8]]) -> Result<usize, Memory> {
    let lines = lines_of(alloc, text)?;
    let mut count: usize = 0;
    'lines: for line in &lines {
        if own.binary_search_by(|other| (*other).cmp(*line)).is_ok() {
            count = count.saturating_add(1);
        }
    }
    Ok(count)
}

// The better one: that has more lines in common, the first of two.
fn better(best: Option<Best>, one: Best) -> Best
    ensures { (result ≡ one) ⊎ (best ≡ Some result) }
{
    let Some(best) = best else {
        return one;
    };
    if best.count >= one.count { best } else { one }
}

// The best description so far, with the one that has a digest.
fn nearer<R: KeepReader>(
    alloc: Global,
    reader: &mut R,
    own: &[&[u8]],
    digest: &Digest,
    best: Option<Best>,
) -> Result<Option<Best>, ReadFault>
    requires before { Told (R.held reader.old) (λ S b. IsHeldBest S b) best }
    ensures held { IfOk result (Told (R.held reader.new) (λ S b. IsHeldBest S b)) }
    ensures reader { ReaderCall (R.held reader.old) (R.held reader.new) (R.bound reader.old) (R.bound reader.new)
        (R.faults reader.old) (R.faults reader.new) (result ≡ Err ReadFault.Failed) }
{
    match content(alloc, reader, digest)? {
        Some(text) => {
            let count = common(alloc, text.bytes(), own)?;
            let one = Best { count, text };
            Ok(Some(better(best, one)))
        }
        None => Ok(best),
    }
}

// Of these texts the one that has most lines in common with a text, the first of several.
fn nearest_of<R: KeepReader>(
    alloc: Global,
    reader: &mut R,
    own: &Printed,
    digests: &[Digest],
) -> Result<Option<Best>, ReadFault>
    ensures held { IfOk result (Told (R.held reader.new) (λ S best. IsHeldBest S best)) }
    ensures reader { ReaderCall (R.held reader.old) (R.held reader.new) (R.bound reader.old) (R.bound reader.new)
        (R.faults reader.old) (R.faults reader.new) (result ≡ Err ReadFault.Failed) }
{
    let mut lines = lines_of(alloc, own.text.as_slice())?;
    lines.sort_unstable();
    let mut best = None;
    'digests: for digest in digests {
        best = nearer(alloc, reader, lines.as_slice(), digest, best)?;
    }
    Ok(best)
}

// What a stored description says beside an own text, if that is one.
fn beside(alloc: Global, stored: WeakParts, own: &Printed) -> Result<Option<Near>, Memory>
    ensures { IfOk result (IsBeside stored own.now.text.items) }
{
    match parts_of(alloc, own.text.as_slice())? {
        Some(parts) => Ok(Some(Near { stored, own: parts })),
        None => Ok(None),
    }
}

// What a stored text and a process's own say, if both are weak texts.
fn near_of(alloc: Global, stored: &[u8], own: &Printed) -> Result<Option<Near>, Memory>
    ensures { IfOk result (AreRead stored.now own.now.text.items) }
{
    match parts_of(alloc, stored)? {
        Some(parts) => beside(alloc, parts, own),
        None => Ok(None),
    }
}

// What the nearest of these descriptions says beside an own text.
fn nearest_in<R: KeepReader>(
    alloc: Global,
    reader: &mut R,
    digests: &[Digest],
    own: &Printed,
) -> Result<Option<Near>, ReadFault>
    ensures near { (d : AnyDesc) → read_weak_text own.now.text.items ≡ Some (weak_parts d)
        → IfOk result (Told (R.held reader.new) (λ S near. IsNear S d near)) }
    ensures reader { ReaderCall (R.held reader.old) (R.held reader.new) (R.bound reader.old) (R.bound reader.new)
        (R.faults reader.old) (R.faults reader.new) (result ≡ Err ReadFault.Failed) }
{
    match nearest_of(alloc, reader, own, digests)? {
        Some(best) => {
            let near = near_of(alloc, best.text.bytes(), own)?;
            Ok(near)
        }
        None => Ok(None),
    }
}

// What the stored description says that is nearest to a process, of those that make the same.
pub(crate) fn nearest<R: KeepReader>(
    alloc: Global,
    reader: &mut R,
    known: &mut Known,
    desc: &Desc,
) -> Result<Option<Near>, ReadFault>
    ensures near { IfOk result (Told (R.held reader.new) (λ S near. IsNear S desc.now near)) }
    ensures reader { ReaderCall (R.held reader.old) (R.held reader.new) (R.bound reader.old) (R.bound reader.new)
        (R.faults reader.old) (R.faults reader.new) (result ≡ Err ReadFault.Failed) }
{
    read_all(alloc, reader, known)?;
    let own = weak(alloc, desc)?;
    let key = outputs_text(alloc, &desc.process)?;
    match known.with_outputs(key.as_slice()) {
        Some(digests) => nearest_in(alloc, reader, digests, &own),
        None => Ok(None),
    }
}
