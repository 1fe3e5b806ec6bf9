//! The places of names in lists, which are gathered once and searched by each lookup.

ghost use Rattle.std.specs.Prelude.{◌≡◌, ℕ, List, Some, IfOk, OnOk, if◌then◌else◌};
ghost use Rattle.std.specs.BTreeMap.{IsEmpty};
ghost use Rattle.std.specs.List.{list_any};
ghost use Rattle.std.specs.Str.{bytes_eq};
ghost use Rattle.dscript_names_scopes.specs.Tables.{HasPlacesOf};
ghost use Rattle.bx_tree.specs.TextTables.{at_text};

use crate::local::Local;
use crate::names::Imported;
use bx_tree::{Memory, Text};
use std::alloc::Global;
use std::collections::BTreeMap;

/// The place of the first element of each name. Contracts see the table.
#[derive(Drop)]
pub(crate) struct Places {
    pub(crate) table: BTreeMap<Vec<u8>, usize>,
}

impl Places {
    /// No names.
    pub(crate) fn new(alloc: Global) -> Places
        ensures { IsEmpty result.table }
    {
        Places {
            table: BTreeMap::new(alloc),
        }
    }

    /// The place of this name.
    pub(crate) fn place(&self, name: &Text) -> Option<usize>
        ensures { result ≡ at_text self.now.table name.now }
    {
        self.table.get(name.bytes()).copied()
    }

    /// Gives a name this place instead of one that it has.
    fn put(&mut self, alloc: Global, name: &Text, place: usize) -> Result<(), Memory>
        ensures { OnOk result ((x : List ℕ) → at_text self.new.table x
            ≡ (if bytes_eq name.now x then Some place else at_text self.old.table x)) }
    {
        let key = Vec::from_slice(alloc, name.bytes())?;
        self.table.insert(key, place)?;
        Ok(())
    }

    /// Gives each of these names this place instead of one that it has.
    pub(crate) fn put_all(
        &mut self,
        alloc: Global,
        names: &[Text],
        place: usize,
    ) -> Result<(), Memory>
        ensures { OnOk result ((x : List ℕ) → at_text self.new.table x
            ≡ (if list_any (bytes_eq x) names.now then Some place else at_text self.old.table x)) }
    {
        'names: for name in names {
            self.put(alloc, name, place)?;
        }
        Ok(())
    }
}

/// The places of locals. Of two with one name the first counts, as it is put in last.
pub(crate) fn places_of_locals(alloc: Global, locals: &[Local]) -> Result<Places, Memory>
    ensures { IfOk result (λ places. HasPlacesOf (λ l. l.name) locals.now places.table) }
{
    let mut places = Places::new(alloc);
    let mut left = locals;
    'last: while let Some((local, before)) = left.split_last() {
        places.put(alloc, &local.name, before.len())?;
        left = before;
    }
    Ok(places)
}

/// The places of imports. Of two with one name the first counts, as it is put in last.
pub(crate) fn places_of_imports(alloc: Global, imports: &[Imported]) -> Result<Places, Memory>
    ensures { IfOk result (λ places. HasPlacesOf (λ i. i.name) imports.now places.table) }
{
    let mut places = Places::new(alloc);
    let mut left = imports;
    'last: while let Some((imported, before)) = left.split_last() {
        places.put(alloc, &imported.name, before.len())?;
        left = before;
    }
    Ok(places)
}

/// The places of texts. Of two equal ones the first counts, as it is put in last.
pub(crate) fn places_of_texts(alloc: Global, texts: &[Text]) -> Result<Places, Memory>
    ensures { IfOk result (λ places. HasPlacesOf (λ t. t) texts.now places.table) }
{
    let mut places = Places::new(alloc);
    let mut left = texts;
    'last: while let Some((text, before)) = left.split_last() {
        places.put(alloc, text, before.len())?;
        left = before;
    }
    Ok(places)
}
