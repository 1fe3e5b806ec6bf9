//! The places of labels.
ghost use Rattle.std.specs.Prelude.{◌≡◌, ℕ, List, true, false, map, MatchResult, OnOk};
ghost use Rattle.tool_text.specs.declared.fault.ToolFault.TheVariants as tool_faults;
ghost use Rattle.tool_text.specs.Tables.{IsFree, IsTaken, place_in, with_place};
ghost use Rattle.tool_text.specs.Reading.{ReadsTool, are_distinct, label_of, place_of as place_read};
ghost use Rattle.bx_tree.specs.Lent.{texts_now};
ghost use Rattle.bx_tree.specs.TextTables.{at_text};

use crate::fault::ToolFault;
use crate::lines::label_parts;
use std::alloc::Global;
use std::collections::BTreeMap;

/// The place of the line of each label.
#[derive(Drop)]
pub struct Table {
    pub by_label: BTreeMap<Vec<u8>, usize>,
}

impl Table {
    /// The place of a label. Where no line has it, the fault is that the text is no tool.
    pub fn find(&self, label: &[u8]) -> Result<usize, ToolFault>
        ensures { ReadsTool result (place_in self.now label.now) }
    {
        match self.by_label.get(label) {
            Some(place) => Ok(*place),
            None => Err(ToolFault::BadTool),
        }
    }
}

// Adds the label of a line, if it has one, with its place.
fn add_label(
    alloc: Global,
    by_label: &mut BTreeMap<Vec<u8>, usize>,
    line: &[u8],
    place: usize,
) -> Result<(), ToolFault>
    ensures added { OnOk result ((q : List ℕ) →
        at_text by_label.new q ≡ with_place (label_of line.now) place (at_text by_label.old) q) }
    ensures free { OnOk result (IsFree (label_of line.now) (at_text by_label.old)) }
    ensures taken { result ≡ Err tool_faults.BadTool → IsTaken (label_of line.now) (at_text by_label.old) }
{
    let (Some(label), _) = label_parts(line) else {
        return Ok(());
    };
    match by_label.insert(Vec::from_slice(alloc, label)?, place)? {
        Some(_) => Err(ToolFault::BadTool),
        None => Ok(()),
    }
}

// The places of the labels of lines, which must differ.
pub(crate) fn table_of(alloc: Global, lines: &[&[u8]]) -> Result<Table, ToolFault>
    ensures { MatchResult result
        (λ table. (are_distinct (map label_of (texts_now lines.now)) ≡ true)
        × ((q : List ℕ) → place_in table q ≡ place_read (map label_of (texts_now lines.now)) q))
        (λ fault. fault ≡ tool_faults.BadTool → are_distinct (map label_of (texts_now lines.now)) ≡ false) }
{
    let mut by_label = BTreeMap::new(alloc);
    'lines: for (place, line) in lines.iter().enumerate() {
        add_label(alloc, &mut by_label, line, place)?;
    }
    Ok(Table { by_label })
}
