//! The namespaces that the files of each module open, which are gathered once.

ghost use Rattle.std.specs.Prelude.{◌≡◌, ℕ, List, Some, IfOk, OnOk, if◌then◌else◌, is_some};
ghost use Rattle.dscript_names_scopes.specs.Lookup.{opens};
ghost use Rattle.dscript_names_scopes.specs.Tables.{HasOpenedOf, place_at_module};

use crate::names::FileNames;
use crate::places::Places;
use bx_tree::{Memory, Text};
use std::alloc::Global;
use std::collections::BTreeMap;

/// The names that files open, by the number of their module. Contracts see the table.
#[derive(Drop)]
pub(crate) struct Opened {
    pub(crate) tables: BTreeMap<usize, Places>,
}

impl Opened {
    /// Whether a file of the module opens a namespace of this name.
    pub(crate) fn has(&self, owner: usize, name: &Text) -> bool
        ensures { result ≡ is_some (place_at_module self.now.tables owner name.now) }
    {
        match self.tables.get(&owner) {
            Some(places) => places.place(name).is_some(),
            None => false,
        }
    }

    /// Adds the names that the file of this number opens.
    fn add_file(&mut self, alloc: Global, number: usize, file: &FileNames) -> Result<(), Memory>
        ensures { OnOk result ((m : ℕ) (x : List ℕ) → place_at_module self.new.tables m x
            ≡ (if opens x (Some m) file.now then Some number else place_at_module self.old.tables m x)) }
    {
        let owner = file.module_number;
        let mut places = self.tables.remove(&owner).unwrap_or(Places::new(alloc));
        places.put_all(alloc, file.opened.as_slice(), number)?;
        self.tables.insert(owner, places)?;
        Ok(())
    }
}

/// The names that the files of all modules open.
pub(crate) fn opened_of_modules(alloc: Global, files: &[FileNames]) -> Result<Opened, Memory>
    ensures { IfOk result (λ opened. HasOpenedOf files.now opened.tables) }
{
    let mut opened = Opened {
        tables: BTreeMap::new(alloc),
    };
    let mut left = files;
    'last: while let Some((file, before)) = left.split_last() {
        opened.add_file(alloc, before.len(), file)?;
        left = before;
    }
    Ok(opened)
}
