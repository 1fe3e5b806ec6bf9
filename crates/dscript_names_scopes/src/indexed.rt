//! Blocks whose locals are found by name.

ghost use Rattle.std.specs.Prelude.{◌≡◌, IfOk, option_copied};
ghost use Rattle.std.specs.List.{slice_get};
ghost use Rattle.dscript_names_scopes.specs.Lookup.{local_in, with_number};

use crate::local::{Block, Local};
use crate::places::{Places, places_of_locals};
use bx_tree::{Memory, Text};
use std::alloc::Global;
use std::marker::Model;

/// A block whose locals are found by name. Contracts see the block.
#[derive(Drop)]
pub(crate) struct IndexedBlock {
    locals: Vec<Local>,
    is_body: bool,
    // the place of the first local of each name
    places: Places,
}

impl Model for IndexedBlock {
    ghost use Rattle.dscript_names_scopes.specs.Blocks.{Block as BlockData};
    ghost use Rattle.dscript_names_scopes.specs.Tables.{HasPlacesOf};

    ghost Value = { BlockData };

    ghost view = { λ b. record { locals = b.locals.items; is_body = b.is_body } };

    ghost invariant = { λ b. HasPlacesOf (λ l. l.name) b.locals.items b.places.table };
}

/// The local at a place, if there is one.
fn local_at(locals: &[Local], place: usize) -> Option<&Local>
    ensures { option_copied result ≡ slice_get locals.now place }
{
    locals.get(place)
}

impl IndexedBlock {
    /// The block, with the places of its locals.
    pub(crate) fn new(alloc: Global, block: Block) -> Result<IndexedBlock, Memory>
        ensures { IfOk result (λ indexed. indexed ≡ block) }
    {
        let places = places_of_locals(alloc, block.locals.as_slice())?;
        Ok(IndexedBlock {
            locals: block.locals,
            is_body: block.is_body,
            places,
        })
    }

    /// Whether it is the whole body of a function.
    pub(crate) fn is_body(&self) -> bool
        ensures { result ≡ self.now.is_body }
    {
        self.is_body
    }

    /// The local of this name.
    pub(crate) fn local(&self, name: &Text) -> Option<&Local>
        ensures { option_copied result ≡ local_in name.now self.now }
    {
        let place = self.places.place(name)?;
        local_at(self.locals.as_slice(), place)
    }

    /// Gives the local of this name its number.
    pub(crate) fn declare(&mut self, name: &Text, number: u32)
        ensures { self.new ≡ record self.old { locals = with_number name.now number self.old.locals } }
    {
        if let Some(place) = self.places.place(name) {
            let local = &mut self.locals[place];
            local.number = Some(number);
        }
    }
}
