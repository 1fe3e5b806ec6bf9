//! The files that a whole build gives.
ghost use Rattle.std.specs.Prelude.{◌≡◌, [], IfOk, OnOk, map};
ghost use Rattle.violations.specs.Slots.{slot_files};
ghost use Rattle.pip_model_types.specs.Made.{made_files};
ghost use Rattle.one_thread.specs.OneThread.{all_made, put_all};

use bx_digest::Blob;
use bx_tree::{Memory, Path};
use pip_model::{Made, MadeFile, Slot};
use std::alloc::Global;
use std::collections::BTreeMap;

// Puts files at their places, shared.
fn put_files(files: &mut BTreeMap<Path, Blob>, made: &[MadeFile]) -> Result<(), Memory>
    ensures { OnOk result (files.new.entries ≡ put_all files.old.entries (made_files made.now)) }
{
    'made: for file in made {
        let path = file.path.share()?;
        let blob = file.blob.share()?;
        files.insert(path, blob)?;
    }
    Ok(())
}

// Puts the files of a pip that succeeded at their places.
fn put_slot(files: &mut BTreeMap<Path, Blob>, slot: &Slot) -> Result<(), Memory>
    ensures { OnOk result (files.new.entries ≡ put_all files.old.entries (slot_files slot.now)) }
{
    match slot {
        Slot::Good(made) => put_files(files, made.files()),
        Slot::Empty | Slot::Bad => Ok(()),
    }
}

/// The files of all pips that succeeded, by path.
pub fn outputs(alloc: Global, slots: &[Slot]) -> Result<Made, Memory>
    ensures { IfOk result (λ files. files ≡ put_all [] (all_made (map slot_files slots.now))) }
{
    let mut files = BTreeMap::new(alloc);
    'slots: for slot in slots {
        put_slot(&mut files, slot)?;
    }
    Made::of_map(alloc, files)
}
