//! Finding what evaluation would make.
ghost use Rattle.std.specs.Prelude.{◌≡◌, ◌≢◌, ◌↔◌, Err, IfOk, IfSome, true};
ghost use Rattle.std.specs.List.{AllByRecursion};
ghost use Rattle.sha2.specs.Sha256.{sha256};
ghost use Rattle.dscript_program.specs.Workspaces.{modules_of};
ghost use Rattle.dscript_sdk_calls.specs.Sources.{tree_answers};
ghost use Rattle.graph_texts.specs.Keys.{HasKey};
ghost use Rattle.graph_texts.specs.Listings.{listing_text as text_of_listing};
ghost use Rattle.two_phase.specs.Calls.{ReaderCall};
ghost use Rattle.two_phase.specs.Finding.{FindsOne};
ghost use Rattle.graph_memo_meaning.specs.Contents.{HoldsDigest, key_of};
ghost use Rattle.graph_memo_meaning.specs.Usable.{UsableGraph};
ghost use Rattle.graph_memo.specs.Finding.{ChecksGraph, Decides, DecidesUsable, FindsGraph, HoldsModule, HoldsSpec, IsAnswered};
ghost use Rattle.graph_memo.specs.Finding.{IsEntryOf, work_of};

use bx_digest::{Digest, digest_of};
use bx_io::{Got, KeepReader};
use bx_tree::{Path, Tree};
use content_store::{blob_name, entry_name};
use dscript_program::{ModuleText, Workspace};
use dscript_sdk_calls::{TreeAsk, ask_tree};
use graph_texts::{
    AskLine, FormatFault, GraphEntry, key_text, listing_text, read_graph_entry, spec_text,
};
use pip_model_types::PipList;
use std::alloc::{AllocError, Global};
use two_phase::{StoreFault, content};

/// The answer to a call for the pips of a workspace.
#[derive(Drop)]
pub enum GraphFound {
    /// The pips of a usable entry.
    Hit(PipList),
    /// No entry is usable.
    Miss,
    /// The reader failed.
    Fault,
    /// There was no memory.
    Memory,
}

// Whether some content of a digest is held under it.
fn is_held<R: KeepReader>(
    alloc: Global,
    reader: &mut R,
    digest: &Digest,
) -> Result<bool, StoreFault>
    ensures held { IfOk result (Decides (R.held reader.new) (λ G. HoldsDigest G digest.now)) }
    ensures reader { ReaderCall (R.held reader.old) (R.held reader.new) (R.bound reader.old) (R.bound reader.new)
        (R.faults reader.old) (R.faults reader.new) (result ≡ Err StoreFault.Fault) }
{
    let found = content(alloc, reader, digest)?;
    Ok(found.is_some())
}

// Whether bytes have the digest of a text: only where they are not that text, they are hashed.
fn has_digest_of(bytes: &[u8], text: &[u8], digest: &Digest) -> bool
    requires { digest.now ≡ sha256 text.now }
    ensures { (result ≡ true) ↔ (sha256 bytes.now ≡ digest.now) }
{
    if bytes == text {
        return true;
    }
    digest_of(bytes) == *digest
}

// Whether some content of the digest of a text, as the text itself, is held under it.
fn is_text_held<R: KeepReader>(
    alloc: Global,
    reader: &mut R,
    digest: &Digest,
    text: &[u8],
) -> Result<bool, StoreFault>
    requires { digest.now ≡ sha256 text.now }
    ensures held { IfOk result (Decides (R.held reader.new) (λ G. HoldsDigest G digest.now)) }
    ensures reader { ReaderCall (R.held reader.old) (R.held reader.new) (R.bound reader.old) (R.bound reader.new)
        (R.faults reader.old) (R.faults reader.new) (result ≡ Err StoreFault.Fault) }
{
    let name = blob_name(alloc, digest)?;
    match reader.get(alloc, name.as_str()) {
        Got::Found(bytes) => Ok(has_digest_of(bytes.as_slice(), text, digest)),
        Got::None => Ok(false),
        Got::Failed => Err(StoreFault::Fault),
        Got::Memory => Err(StoreFault::Memory),
    }
}

// The entry of a text that was held under the digest of a key, if it has that key.
fn entry_in(alloc: Global, bytes: &[u8], key: &Digest) -> Result<Option<GraphEntry>, StoreFault>
    ensures checks { IfOk result (ChecksGraph bytes.now key.now) }
    ensures memory { result ≢ Err StoreFault.Fault }
{
    match read_graph_entry(alloc, bytes) {
        Ok(entry) => {
            if entry.key == *key {
                Ok(Some(entry))
            } else {
                Ok(None)
            }
        }
        Err(FormatFault::BadForm) => Ok(None),
        Err(FormatFault::Memory) => Err(StoreFault::Memory),
    }
}

// The entry of a key, by the digest of the key.
fn entry_of<R: KeepReader>(
    alloc: Global,
    reader: &mut R,
    key: &Digest,
) -> Result<Option<GraphEntry>, StoreFault>
    ensures found { IfOk result (FindsOne (R.held reader.new) (λ G e. IsEntryOf G key.now e)) }
    ensures key { IfOk result (λ found. IfSome found (λ e. e.key ≡ key.now)) }
    ensures reader { ReaderCall (R.held reader.old) (R.held reader.new) (R.bound reader.old) (R.bound reader.new)
        (R.faults reader.old) (R.faults reader.new) (result ≡ Err StoreFault.Fault) }
{
    let name = entry_name(alloc, key)?;
    match reader.get(alloc, name.as_str()) {
        Got::Found(bytes) => entry_in(alloc, bytes.as_slice(), key),
        Got::None => Ok(None),
        Got::Failed => Err(StoreFault::Fault),
        Got::Memory => Err(StoreFault::Memory),
    }
}

// Whether the texts of specifications are held.
fn are_held<R: KeepReader>(
    alloc: Global,
    reader: &mut R,
    tree: &Tree,
    paths: &[Path],
) -> Result<bool, StoreFault>
    ensures held { IfOk result (Decides (R.held reader.new)
        (λ G. AllByRecursion (HoldsSpec tree.now G) paths.now)) }
    ensures reader { ReaderCall (R.held reader.old) (R.held reader.new) (R.bound reader.old) (R.bound reader.new)
        (R.faults reader.old) (R.faults reader.new) (result ≡ Err StoreFault.Fault) }
{
    'paths: for path in paths {
        let text = spec_text(tree, path);
        let digest = digest_of(text);
        let held = is_text_held(alloc, reader, &digest, text)?;
        if !held {
            return Ok(false);
        }
    }
    Ok(true)
}

// Whether the texts of all specifications of modules are held.
fn are_all_held<R: KeepReader>(
    alloc: Global,
    reader: &mut R,
    tree: &Tree,
    modules: &[ModuleText],
) -> Result<bool, StoreFault>
    ensures held { IfOk result (Decides (R.held reader.new)
        (λ G. AllByRecursion (HoldsModule tree.now G) modules.now)) }
    ensures reader { ReaderCall (R.held reader.old) (R.held reader.new) (R.bound reader.old) (R.bound reader.new)
        (R.faults reader.old) (R.faults reader.new) (result ≡ Err StoreFault.Fault) }
{
    'modules: for module in modules {
        let held = are_held(alloc, reader, tree, module.files.as_slice())?;
        if !held {
            return Ok(false);
        }
    }
    Ok(true)
}

// The digest of what a tree answers to an ask.
fn digest_of_answer(alloc: Global, tree: &Tree, ask: &TreeAsk) -> Result<Digest, AllocError>
    ensures { IfOk result (λ digest. digest ≡ sha256 (text_of_listing (tree_answers tree.now ask.now))) }
{
    let paths = ask_tree(alloc, tree, ask)?;
    let text = listing_text(alloc, paths.as_slice())?;
    Ok(digest_of(text.as_slice()))
}

// Whether the listing of an ask is held, and is what the tree answers.
fn is_answered<R: KeepReader>(
    alloc: Global,
    reader: &mut R,
    tree: &Tree,
    line: &AskLine,
) -> Result<bool, StoreFault>
    ensures answered { IfOk result (Decides (R.held reader.new)
        (λ G. IsAnswered (tree_answers tree.now) G line.now)) }
    ensures reader { ReaderCall (R.held reader.old) (R.held reader.new) (R.bound reader.old) (R.bound reader.new)
        (R.faults reader.old) (R.faults reader.new) (result ≡ Err StoreFault.Fault) }
{
    let now = digest_of_answer(alloc, tree, &line.ask)?;
    if now != line.listing {
        return Ok(false);
    }
    is_held(alloc, reader, &line.listing)
}

fn are_answered<R: KeepReader>(
    alloc: Global,
    reader: &mut R,
    tree: &Tree,
    lines: &[AskLine],
) -> Result<bool, StoreFault>
    ensures answered { IfOk result (Decides (R.held reader.new)
        (λ G. AllByRecursion (IsAnswered (tree_answers tree.now) G) lines.now)) }
    ensures reader { ReaderCall (R.held reader.old) (R.held reader.new) (R.bound reader.old) (R.bound reader.new)
        (R.faults reader.old) (R.faults reader.new) (result ≡ Err StoreFault.Fault) }
{
    'lines: for line in lines {
        let answered = is_answered(alloc, reader, tree, line)?;
        if !answered {
            return Ok(false);
        }
    }
    Ok(true)
}

// Whether an entry is usable that is held and has the key of a workspace.
fn is_usable<R: KeepReader>(
    alloc: Global,
    reader: &mut R,
    work: &Workspace,
    tree: &Tree,
    budget: u64,
    entry: &GraphEntry,
) -> Result<bool, StoreFault>
    requires { entry.now.key ≡ sha256 (key_of (work_of work.now tree.now budget)) }
    ensures usable { IfOk result (DecidesUsable (R.held reader.new) (work_of work.now tree.now budget) entry.now) }
    ensures reader { ReaderCall (R.held reader.old) (R.held reader.new) (R.bound reader.old) (R.bound reader.new)
        (R.faults reader.old) (R.faults reader.new) (result ≡ Err StoreFault.Fault) }
{
    let key = is_held(alloc, reader, &entry.key)?;
    if !key {
        return Ok(false);
    }
    let specs = are_all_held(alloc, reader, tree, work.modules.as_slice())?;
    if !specs {
        return Ok(false);
    }
    are_answered(alloc, reader, tree, entry.asks.lines())
}

// The usable entry of a workspace, if there is one.
fn usable_entry<R: KeepReader>(
    alloc: Global,
    reader: &mut R,
    work: &Workspace,
    tree: &Tree,
    budget: u64,
) -> Result<Option<GraphEntry>, StoreFault>
    ensures key { result ≢ Err StoreFault.Memory → HasKey budget (modules_of work.now) }
    ensures found { IfOk result (FindsOne (R.held reader.new)
        (λ G e. UsableGraph G (work_of work.now tree.now budget) e)) }
    ensures reader { ReaderCall (R.held reader.old) (R.held reader.new) (R.bound reader.old) (R.bound reader.new)
        (R.faults reader.old) (R.faults reader.new) (result ≡ Err StoreFault.Fault) }
{
    let key = key_text(alloc, work, tree, budget)?;
    let digest = digest_of(key.as_slice());
    match entry_of(alloc, reader, &digest)? {
        Some(entry) => {
            let usable = is_usable(alloc, reader, work, tree, budget, &entry)?;
            if usable { Ok(Some(entry)) } else { Ok(None) }
        }
        None => Ok(None),
    }
}

/// Finds the pips of a workspace over a tree within a budget of steps: those of a usable entry. It stops at the first
/// get that fails.
pub fn find_graph<R: KeepReader>(
    alloc: Global,
    reader: &mut R,
    work: &Workspace,
    tree: &Tree,
    budget: u64,
) -> GraphFound
    ensures key { result ≢ GraphFound.Memory → HasKey budget (modules_of work.now) }
    ensures answer { FindsGraph (R.held reader.new) (work_of work.now tree.now budget) result }
    ensures reader { ReaderCall (R.held reader.old) (R.held reader.new) (R.bound reader.old) (R.bound reader.new)
        (R.faults reader.old) (R.faults reader.new) (result ≡ GraphFound.Fault) }
{
    match usable_entry(alloc, reader, work, tree, budget) {
        Ok(Some(entry)) => GraphFound::Hit(entry.pips),
        Ok(None) => GraphFound::Miss,
        Err(StoreFault::Fault) => GraphFound::Fault,
        Err(StoreFault::Memory) => GraphFound::Memory,
    }
}
