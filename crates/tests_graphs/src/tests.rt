//! Tests of the store of graphs.

use crate::fixture::{
    Answer, BODY, MORE_FILES, OTHER_CONTENT, OTHER_SPECIFICATION, PIPS, Scene, TREE, entry, finds,
    kept, must, scene_of, sealed,
};
use bx_digest::digest_of;
use bx_io::{FailKeeper, Keeper, Listed, MemKeeper, is_name};
use graph_texts::{key_text, listing_text, read_graph_entry, write_graph_entry};
use std::alloc::{AllocError, Global};
use std::process::Abort;

#[test]
fn an_entry_is_written_as_it_is_read(rt: HostRuntime) {
    let alloc = rt.alloc();
    let entry = entry(&rt, alloc);
    let written = write_graph_entry(alloc, &entry.key, entry.asks.lines(), &entry.pips);
    let text = must(&rt, written);
    let expected = must(&rt, sealed(alloc, BODY, PIPS));
    assert!(rt; text == expected);
}

// The text of the entry with another text in place of this one.
fn changed(alloc: Global, old: &str, new: &str) -> Result<Vec<u8>, AllocError> {
    let body = BODY.replace(alloc, old, new)?;
    let pips = PIPS.replace(alloc, old, new)?;
    sealed(alloc, body.as_str(), pips.as_str())
}

// It is another text, and no entry.
fn refuses(rt: &impl Abort, alloc: Global, old: &str, new: &str) {
    let text = must(rt, sealed(alloc, BODY, PIPS));
    let other = must(rt, changed(alloc, old, new));
    assert!(rt; other != text);
    assert!(rt; read_graph_entry(alloc, other.as_slice()).is_err());
}

// Another first line, a pattern that is none, inputs in another order, a form that no seal has, a pip that is not there
// yet, a directory that is no seal, and one that no process makes.
const CHANGES: &[(&str, &str)] = &[
    ("graph-entry 1", "graph-entry 2"),
    ("*.c", "*/c"),
    (
        "in made 1 out/c\nin source s/a.c\n",
        "in source s/a.c\nin made 1 out/c\n",
    ),
    ("partial", "opaque"),
    ("member made 0 out/w", "member made 3 out/w"),
    ("indir sealed 2", "indir sealed 1"),
    ("indir opaque 3 out/d", "indir opaque 3 out/x"),
];

#[test]
fn texts_of_another_form_are_no_entries(rt: HostRuntime) {
    let alloc = rt.alloc();
    for (old, new) in CHANGES {
        refuses(&rt, alloc, old, new);
    }
}

// The text of the key of the tree.
fn key_of_tree(alloc: Global) -> Result<String, AllocError> {
    let digest = digest_of(b";").hex(alloc)?;
    format!(in alloc; "graph 1\nbudget 7\nmodule 4 main\nspec build.dsc {digest}\n")
}

#[test]
fn a_key_has_the_budget_and_the_specifications(rt: HostRuntime) {
    let alloc = rt.alloc();
    let scene = scene_of(&rt, alloc, TREE);
    let text = must(&rt, key_text(alloc, &scene.work, &scene.tree, 7));
    let expected = must(&rt, key_of_tree(alloc));
    assert!(rt; text.as_slice() == expected.as_bytes());
    let empty = must(&rt, listing_text(alloc, &[]));
    assert!(rt; empty.is_empty());
}

// What is found for the tree of a bundle.
fn finds_for<K: Keeper>(
    rt: &impl Abort,
    alloc: Global,
    keeper: &K,
    bundle: &str,
    budget: u64,
) -> Answer {
    let scene = scene_of(rt, alloc, bundle);
    finds(rt, alloc, keeper, &scene, budget)
}

// Keeps the entry for the tree of a bundle.
fn keeps_for(rt: &impl Abort, alloc: Global, keeper: &mut MemKeeper, bundle: &str) {
    let scene = scene_of(rt, alloc, bundle);
    assert!(rt; kept(rt, alloc, keeper, &scene, 7));
}

#[test]
fn what_was_kept_is_found(rt: HostRuntime) {
    let alloc = rt.alloc();
    let mut keeper = MemKeeper::new(alloc, Vec::new(alloc));
    assert!(rt; finds_for(&rt, alloc, &keeper, TREE, 7) == Answer::Miss);
    keeps_for(&rt, alloc, &mut keeper, TREE);
    assert!(rt; finds_for(&rt, alloc, &keeper, TREE, 7) == Answer::Hit);
    assert!(rt; finds_for(&rt, alloc, &keeper, TREE, 8) == Answer::Miss);
    assert!(rt; finds_for(&rt, alloc, &keeper, OTHER_CONTENT, 7) == Answer::Hit);
    assert!(rt; finds_for(&rt, alloc, &keeper, MORE_FILES, 7) == Answer::Miss);
    // Two trees in one store.
    assert!(rt; finds_for(&rt, alloc, &keeper, OTHER_SPECIFICATION, 7) == Answer::Miss);
    keeps_for(&rt, alloc, &mut keeper, OTHER_SPECIFICATION);
    assert!(rt; finds_for(&rt, alloc, &keeper, OTHER_SPECIFICATION, 7) == Answer::Hit);
    assert!(rt; finds_for(&rt, alloc, &keeper, TREE, 7) == Answer::Hit);
}

// The names that a store holds.
fn names_of(rt: &impl Abort, alloc: Global, keeper: &mut MemKeeper) -> Vec<String> {
    match keeper.names(alloc) {
        Listed::Names(names) => names,
        Listed::Failed | Listed::Memory => rt.abort(),
    }
}

// The name of the one entry that a store holds.
fn entry_name(rt: &impl Abort, alloc: Global, keeper: &mut MemKeeper) -> String {
    for name in names_of(rt, alloc, keeper) {
        if name.starts_with("e/") {
            return name;
        }
    }
    rt.abort()
}

// What a store holds under a name.
fn held_under(rt: &impl Abort, alloc: Global, keeper: &MemKeeper, name: &str) -> Vec<u8> {
    match keeper.held(name) {
        Some(held) => must(rt, held.to_vec(alloc)),
        None => rt.abort(),
    }
}

// These bytes with one that is another.
fn with_damage(alloc: Global, whole: &[u8], place: usize) -> Result<Vec<u8>, AllocError> {
    let mut bytes = whole.to_vec(alloc)?;
    if place < bytes.len() {
        bytes[place] = bytes[place] ^ 1;
    }
    Ok(bytes)
}

// With these bytes under the name nothing is found.
fn misses_with(
    rt: &impl Abort,
    alloc: Global,
    keeper: &mut MemKeeper,
    scene: &Scene,
    name: &str,
    bytes: Vec<u8>,
) {
    assert!(rt; is_name(name.as_bytes()));
    must(rt, keeper.set_raw(alloc, name, bytes));
    assert!(rt; finds(rt, alloc, keeper, scene, 7) == Answer::Miss);
}

// Keeps the entry, which is then found.
fn heals(rt: &impl Abort, alloc: Global, keeper: &mut MemKeeper, scene: &Scene) {
    assert!(rt; kept(rt, alloc, keeper, scene, 7));
    assert!(rt; finds(rt, alloc, keeper, scene, 7) == Answer::Hit);
}

// Each byte of the entry of a name is damaged in turn.
fn damages_each(rt: &impl Abort, alloc: Global, keeper: &mut MemKeeper, scene: &Scene, name: &str) {
    let whole = held_under(rt, alloc, keeper, name);
    for place in 0..whole.len() {
        let bytes = must(rt, with_damage(alloc, whole.as_slice(), place));
        misses_with(rt, alloc, keeper, scene, name, bytes);
    }
}

#[test]
fn a_damaged_entry_is_not_found(rt: HostRuntime) {
    let alloc = rt.alloc();
    let scene = scene_of(&rt, alloc, TREE);
    let mut keeper = MemKeeper::new(alloc, Vec::new(alloc));
    heals(&rt, alloc, &mut keeper, &scene);
    let name = entry_name(&rt, alloc, &mut keeper);
    damages_each(&rt, alloc, &mut keeper, &scene, name.as_str());
    heals(&rt, alloc, &mut keeper, &scene);
}

// Nothing is found where another text lies under a name, or none; what is kept anew is found.
fn needs_name(rt: &impl Abort, alloc: Global, keeper: &mut MemKeeper, scene: &Scene, name: &str) {
    let other = must(rt, Vec::from_slice(alloc, b"x"));
    misses_with(rt, alloc, keeper, scene, name, other);
    assert!(rt; is_name(name.as_bytes()));
    assert!(rt; keeper.drop_name(alloc, name).is_ok());
    assert!(rt; finds(rt, alloc, keeper, scene, 7) == Answer::Miss);
    heals(rt, alloc, keeper, scene);
}

#[test]
fn nothing_is_found_where_a_text_is_not_held(rt: HostRuntime) {
    let alloc = rt.alloc();
    let scene = scene_of(&rt, alloc, TREE);
    let mut keeper = MemKeeper::new(alloc, Vec::new(alloc));
    heals(&rt, alloc, &mut keeper, &scene);
    let names = names_of(&rt, alloc, &mut keeper);
    assert!(rt; names.len() as u64 == PUTS);
    for name in names.as_slice() {
        needs_name(&rt, alloc, &mut keeper, &scene, name.as_str());
    }
}

/// The key, the specification, three listings of which two are the same, and the entry are put.
const PUTS: u64 = 5;

// A store in memory of which the call of this number fails.
fn failing(rt: &impl Abort, alloc: Global, number: u64) -> MemKeeper {
    let numbers = must(rt, [number].to_vec(alloc));
    MemKeeper::new(alloc, numbers)
}

// Nothing is found where the put of this number failed; what is kept anew is found.
fn fails_at_put(rt: &impl Abort, alloc: Global, scene: &Scene, number: u64) {
    let mut keeper = failing(rt, alloc, number);
    assert!(rt; !kept(rt, alloc, &mut keeper, scene, 7));
    assert!(rt; finds(rt, alloc, &keeper, scene, 7) == Answer::Miss);
    heals(rt, alloc, &mut keeper, scene);
}

#[test]
fn nothing_is_found_where_a_put_failed(rt: HostRuntime) {
    let alloc = rt.alloc();
    let scene = scene_of(&rt, alloc, TREE);
    for number in 1..=PUTS {
        fails_at_put(&rt, alloc, &scene, number);
    }
    let mut keeper = failing(&rt, alloc, PUTS + 1);
    assert!(rt; kept(&rt, alloc, &mut keeper, &scene, 7));
}

/// The entry, the key, the specification and three listings are got.
const GETS: u64 = 6;

// What is found where the get of this number fails.
fn answer_at(rt: &impl Abort, alloc: Global, scene: &Scene, number: u64) -> Answer {
    let mut keeper = MemKeeper::new(alloc, Vec::new(alloc));
    assert!(rt; kept(rt, alloc, &mut keeper, scene, 7));
    let numbers = must(rt, [number].to_vec(alloc));
    let keeper = FailKeeper::new(keeper, numbers);
    finds(rt, alloc, &keeper, scene, 7)
}

#[test]
fn a_fault_is_told_where_a_get_failed(rt: HostRuntime) {
    let alloc = rt.alloc();
    let scene = scene_of(&rt, alloc, TREE);
    for number in 1..=GETS {
        assert!(rt; answer_at(&rt, alloc, &scene, number) == Answer::Fault);
    }
    assert!(rt; answer_at(&rt, alloc, &scene, GETS + 1) == Answer::Hit);
}
