//! The first line with each label.
ghost use Rattle.std.specs.Prelude.{◌≡◌, ℕ, List, IfOk, OnOk, Some, map};
ghost use Rattle.bx_tree.specs.Lent.{texts_now};
ghost use Rattle.bx_tree.specs.TextTables.{at_text};
ghost use Rattle.tool_text.specs.Reading.{label_of, place_of};
ghost use Rattle.tool_text.specs.Tables.{place_in, with_place};
ghost use Rattle.tool_faults.specs.Tables.{with_first};

use bx_tree::Memory;
use std::alloc::Global;
use std::collections::BTreeMap;
use tool_text::{Table, label_parts};

// Adds a label with the place of its line.
fn add_label(
    alloc: Global,
    by_label: &mut BTreeMap<Vec<u8>, usize>,
    label: &[u8],
    place: usize,
) -> Result<(), Memory>
    ensures { OnOk result ((q : List ℕ) →
        at_text by_label.new q ≡ with_place (Some label.now) place (at_text by_label.old) q) }
{
    let key = Vec::from_slice(alloc, label)?;
    by_label.insert(key, place)?;
    Ok(())
}

// Adds a label with the place of its line, if it is not there.
fn add_absent(
    alloc: Global,
    by_label: &mut BTreeMap<Vec<u8>, usize>,
    label: &[u8],
    place: usize,
) -> Result<(), Memory>
    ensures { OnOk result ((q : List ℕ) →
        at_text by_label.new q ≡ with_first (Some label.now) place (at_text by_label.old) q) }
{
    match by_label.get(label) {
        Some(_) => Ok(()),
        None => add_label(alloc, by_label, label, place),
    }
}

// Adds the label of a line, if it has one that no earlier line has, with its place.
fn add_first(
    alloc: Global,
    by_label: &mut BTreeMap<Vec<u8>, usize>,
    line: &[u8],
    place: usize,
) -> Result<(), Memory>
    ensures { OnOk result ((q : List ℕ) →
        at_text by_label.new q ≡ with_first (label_of line.now) place (at_text by_label.old) q) }
{
    let (own, _) = label_parts(line);
    match own {
        Some(label) => add_absent(alloc, by_label, label, place),
        None => Ok(()),
    }
}

// The place of the first line with each label.
pub(crate) fn first_places(alloc: Global, lines: &[&[u8]]) -> Result<Table, Memory>
    ensures { IfOk result (λ table. (q : List ℕ) →
        place_in table q ≡ place_of (map label_of (texts_now lines.now)) q) }
{
    let mut by_label = BTreeMap::new(alloc);
    'lines: for (place, line) in lines.iter().enumerate() {
        add_first(alloc, &mut by_label, line, place)?;
    }
    Ok(Table { by_label })
}
