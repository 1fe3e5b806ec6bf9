//! Keeping what evaluation made.
ghost use Rattle.std.specs.Prelude.{◌≡◌, ◌++◌, ◌∷◌, [], Err, IfOk, OnErr, OnOk, map};
ghost use Rattle.bx_io.specs.Holdings.{Keeps, Makes, Put, held_in};
ghost use Rattle.content_store.specs.Contents.{blob_put};
ghost use Rattle.dscript_program.specs.Workspaces.{modules_data};
ghost use Rattle.dscript_sdk_calls.specs.Sources.{tree_answers};
ghost use Rattle.dscript_names.specs.ProjectFiles.{paths_of_modules};
ghost use Rattle.memo_format.specs.StoreNames.{at_entry};
ghost use Rattle.two_phase.specs.Applying.{AppliesAll, AppliesPrefix};
ghost use Rattle.two_phase.specs.Calls.{KeeperCall};
ghost use Rattle.two_phase.specs.Held.{AreHeld};
ghost use Rattle.graph_texts.specs.Entries.{IsGraphEntry, graph_entry_text};
ghost use Rattle.graph_texts.specs.Keys.{text_at};
ghost use Rattle.graph_texts.specs.Listings.{listing_text as text_of_listing};
ghost use Rattle.graph_memo_meaning.specs.Contents.{line_for, listing_texts};
ghost use Rattle.graph_memo.specs.Finding.{work_of};
ghost use Rattle.graph_memo.specs.Keeping.{KeepsAll, KeepsUpTo, made_by};

use bx_digest::{Blob, Digest};
use bx_io::{Keeper, PutFault};
use bx_tree::{Path, Tree};
use content_store::entry_name;
use dscript_eval::Asked;
use dscript_program::{ModuleText, Workspace};
use dscript_sdk_calls::{TreeAsk, ask_tree};
use graph_texts::{AskLine, key_text, listing_text, spec_text, write_graph_entry};
use std::alloc::{AllocError, Global};
use two_phase::{HeldContents, SaveResult, put_content};

// Puts the texts of specifications.
fn put_specs<K: Keeper>(
    alloc: Global,
    keeper: &mut K,
    held: &mut HeldContents,
    tree: &Tree,
    paths: &[Path],
) -> Result<(), PutFault>
    requires { AreHeld (held_in (K.known keeper.old)) held.old }
    ensures made { OnOk result (AppliesAll (K.known keeper.old)
        (map blob_put (map (text_at tree.now) paths.now)) (K.known keeper.new)) }
    ensures first { AppliesPrefix (K.known keeper.old) (K.known keeper.new)
        (map blob_put (map (text_at tree.now) paths.now)) }
    ensures held { AreHeld (held_in (K.known keeper.new)) held.new }
    ensures keeper { KeeperCall (K.bound keeper.old) (K.bound keeper.new) (K.faults keeper.old)
        (K.faults keeper.new) (result ≡ Err PutFault.Failed) }
{
    'paths: for path in paths {
        let bytes = Vec::from_slice(alloc, spec_text(tree, path))?;
        let blob = Blob::new(alloc, bytes)?;
        put_content(alloc, keeper, held, &blob)?;
    }
    Ok(())
}

// Puts the texts of all specifications of modules.
fn put_modules<K: Keeper>(
    alloc: Global,
    keeper: &mut K,
    held: &mut HeldContents,
    tree: &Tree,
    modules: &[ModuleText],
) -> Result<(), PutFault>
    requires { AreHeld (held_in (K.known keeper.old)) held.old }
    ensures made { OnOk result (AppliesAll (K.known keeper.old)
        (map blob_put (map (text_at tree.now) (paths_of_modules (modules_data modules.now))))
        (K.known keeper.new)) }
    ensures first { AppliesPrefix (K.known keeper.old) (K.known keeper.new)
        (map blob_put (map (text_at tree.now) (paths_of_modules (modules_data modules.now)))) }
    ensures held { AreHeld (held_in (K.known keeper.new)) held.new }
    ensures keeper { KeeperCall (K.bound keeper.old) (K.bound keeper.new) (K.faults keeper.old)
        (K.faults keeper.new) (result ≡ Err PutFault.Failed) }
{
    'modules: for module in modules {
        put_specs(alloc, keeper, held, tree, module.files.as_slice())?;
    }
    Ok(())
}

// The listing of what a tree answers to an ask, with its digest.
fn listing_of(alloc: Global, tree: &Tree, ask: &TreeAsk) -> Result<Blob, AllocError>
    ensures { IfOk result (λ blob. blob ≡ text_of_listing (tree_answers tree.now ask.now)) }
{
    let paths = ask_tree(alloc, tree, ask)?;
    let text = listing_text(alloc, paths.as_slice())?;
    Blob::new(alloc, text)
}

// Puts what a tree answers to an ask, and adds the line of the ask.
fn put_answer<K: Keeper>(
    alloc: Global,
    keeper: &mut K,
    held: &mut HeldContents,
    tree: &Tree,
    ask: &TreeAsk,
    lines: &mut Vec<AskLine>,
) -> Result<(), PutFault>
    requires { AreHeld (held_in (K.known keeper.old)) held.old }
    ensures made { OnOk result (AppliesAll (K.known keeper.old)
        (blob_put (text_of_listing (tree_answers tree.now ask.now)) ∷ []) (K.known keeper.new)) }
    ensures first { AppliesPrefix (K.known keeper.old) (K.known keeper.new)
        (blob_put (text_of_listing (tree_answers tree.now ask.now)) ∷ []) }
    ensures lines { OnOk result
        (lines.new.items ≡ lines.old.items ++ line_for (tree_answers tree.now) ask.now ∷ []) }
    ensures held { AreHeld (held_in (K.known keeper.new)) held.new }
    ensures keeper { KeeperCall (K.bound keeper.old) (K.bound keeper.new) (K.faults keeper.old)
        (K.faults keeper.new) (result ≡ Err PutFault.Failed) }
{
    let asked = ask.share()?;
    let blob = listing_of(alloc, tree, ask)?;
    put_content(alloc, keeper, held, &blob)?;
    lines.push(AskLine {
        ask: asked,
        listing: blob.digest(),
    })?;
    Ok(())
}

// Puts what a tree answers to asks, and gives the lines of the asks.
fn put_answers<K: Keeper>(
    alloc: Global,
    keeper: &mut K,
    held: &mut HeldContents,
    tree: &Tree,
    asks: &[TreeAsk],
) -> Result<Vec<AskLine>, PutFault>
    requires { AreHeld (held_in (K.known keeper.old)) held.old }
    ensures made { OnOk result (AppliesAll (K.known keeper.old)
        (map blob_put (listing_texts (tree_answers tree.now) asks.now)) (K.known keeper.new)) }
    ensures first { AppliesPrefix (K.known keeper.old) (K.known keeper.new)
        (map blob_put (listing_texts (tree_answers tree.now) asks.now)) }
    ensures lines { IfOk result (λ lines. lines.items ≡ map (line_for (tree_answers tree.now)) asks.now) }
    ensures held { AreHeld (held_in (K.known keeper.new)) held.new }
    ensures keeper { KeeperCall (K.bound keeper.old) (K.bound keeper.new) (K.faults keeper.old)
        (K.faults keeper.new) (result ≡ Err PutFault.Failed) }
{
    let mut lines = Vec::new(alloc);
    'asks: for ask in asks {
        put_answer(alloc, keeper, held, tree, ask, &mut lines)?;
    }
    Ok(lines)
}

// Puts the text of an entry under the digest of its key.
fn put_entry<K: Keeper>(
    alloc: Global,
    keeper: &mut K,
    key: &Digest,
    text: &[u8],
) -> Result<(), PutFault>
    ensures made { OnOk result (Makes (K.known keeper.old)
        (Put (at_entry key.now) text.now ∷ []) (K.known keeper.new)) }
    ensures refused { OnErr result (Keeps (K.known keeper.old) (K.known keeper.new)) }
    ensures keeper { KeeperCall (K.bound keeper.old) (K.bound keeper.new) (K.faults keeper.old)
        (K.faults keeper.new) (result ≡ Err PutFault.Failed) }
{
    let name = entry_name(alloc, key)?;
    keeper.put(alloc, name.as_str(), text)
}

// Puts the entry of what evaluation made: its lines and its pips, under the digest of its key.
fn put_made<K: Keeper>(
    alloc: Global,
    keeper: &mut K,
    key: &Digest,
    lines: &[AskLine],
    asked: &Asked,
) -> Result<(), PutFault>
    ensures made { OnOk result (Makes (K.known keeper.old) (Put (at_entry key.now) (graph_entry_text
        (record { key = key.now; asks = lines.now; pips = asked.now.pips })) ∷ []) (K.known keeper.new)) }
    ensures entry { OnOk result
        (IsGraphEntry (record { key = key.now; asks = lines.now; pips = asked.now.pips })) }
    ensures refused { OnErr result (Keeps (K.known keeper.old) (K.known keeper.new)) }
    ensures keeper { KeeperCall (K.bound keeper.old) (K.bound keeper.new) (K.faults keeper.old)
        (K.faults keeper.new) (result ≡ Err PutFault.Failed) }
{
    let text = write_graph_entry(alloc, key, lines, &asked.pips)?;
    put_entry(alloc, keeper, key, text.as_slice())
}

// Puts the texts that an entry names, and gives the lines of its asks.
fn put_texts<K: Keeper>(
    alloc: Global,
    keeper: &mut K,
    key: &Blob,
    work: &Workspace,
    tree: &Tree,
    asks: &[TreeAsk],
) -> Result<Vec<AskLine>, PutFault>
    ensures made { OnOk result (AppliesAll (K.known keeper.old) (map blob_put (key.now
        ∷ (map (text_at tree.now) (paths_of_modules (modules_data work.now.modules.items))
        ++ listing_texts (tree_answers tree.now) asks.now))) (K.known keeper.new)) }
    ensures first { AppliesPrefix (K.known keeper.old) (K.known keeper.new) (map blob_put (key.now
        ∷ (map (text_at tree.now) (paths_of_modules (modules_data work.now.modules.items))
        ++ listing_texts (tree_answers tree.now) asks.now))) }
    ensures lines { IfOk result (λ lines. lines.items ≡ map (line_for (tree_answers tree.now)) asks.now) }
    ensures keeper { KeeperCall (K.bound keeper.old) (K.bound keeper.new) (K.faults keeper.old)
        (K.faults keeper.new) (result ≡ Err PutFault.Failed) }
{
    let mut held = HeldContents::new(alloc);
    put_content(alloc, keeper, &mut held, key)?;
    put_modules(alloc, keeper, &mut held, tree, work.modules.as_slice())?;
    put_answers(alloc, keeper, &mut held, tree, asks)
}

fn put_graph<K: Keeper>(
    alloc: Global,
    keeper: &mut K,
    work: &Workspace,
    tree: &Tree,
    budget: u64,
    asked: &Asked,
) -> Result<(), PutFault>
    ensures made { OnOk result (KeepsAll (K.known keeper.old) (K.known keeper.new)
        (work_of work.now tree.now budget) (made_by asked.now)) }
    ensures first { KeepsUpTo (K.known keeper.old) (K.known keeper.new)
        (work_of work.now tree.now budget) (made_by asked.now) }
    ensures keeper { KeeperCall (K.bound keeper.old) (K.bound keeper.new) (K.faults keeper.old)
        (K.faults keeper.new) (result ≡ Err PutFault.Failed) }
{
    let text = key_text(alloc, work, tree, budget)?;
    let key = Blob::new(alloc, text)?;
    let lines = put_texts(alloc, keeper, &key, work, tree, asked.asks.as_slice())?;
    put_made(alloc, keeper, &key.digest(), lines.as_slice(), asked)
}

/// Keeps what evaluation of a workspace over a tree within a budget of steps made: the texts that its entry names,
/// and then the entry. It stops at the first refusal.
pub fn keep_graph<K: Keeper>(
    alloc: Global,
    keeper: &mut K,
    work: &Workspace,
    tree: &Tree,
    budget: u64,
    asked: &Asked,
) -> SaveResult
    ensures kept { result ≡ SaveResult.Saved → KeepsAll (K.known keeper.old) (K.known keeper.new)
        (work_of work.now tree.now budget) (made_by asked.now) }
    ensures first { KeepsUpTo (K.known keeper.old) (K.known keeper.new)
        (work_of work.now tree.now budget) (made_by asked.now) }
    ensures keeper { KeeperCall (K.bound keeper.old) (K.bound keeper.new) (K.faults keeper.old)
        (K.faults keeper.new) (result ≡ SaveResult.Fault) }
{
    match put_graph(alloc, keeper, work, tree, budget, asked) {
        Ok(()) => SaveResult::Saved,
        Err(PutFault::Failed) => SaveResult::Fault,
        Err(PutFault::Memory) => SaveResult::Memory,
    }
}
