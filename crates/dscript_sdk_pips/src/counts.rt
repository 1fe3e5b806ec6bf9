//! How many output directories calls made in each directory.
ghost use Rattle.std.specs.Prelude.{◌≡◌, OnOk, OnErr};
ghost use Rattle.std.specs.FinMap.{empty, insert};
ghost use Rattle.dscript_sdk_pips.specs.States.{count_in};

use bx_tree::{Memory, Path};
use std::alloc::Global;
use std::collections::BTreeMap;
use std::marker::Model;

/// A number for each directory, which is 0 where none is kept.
#[derive(Drop)]
pub(crate) struct Counts {
    numbers: BTreeMap<Path, u64>,
}

impl Model for Counts {
    ghost use Rattle.dscript_sdk_pips.specs.States as specs;
    ghost use Rattle.dscript_sdk_pips.specs.Kept.{counts_code, counts_of};

    ghost Value = { specs.Counts };

    ghost coded = { counts_code };

    ghost view = { λ c. counts_of c.numbers };
}

impl Counts {
    /// No directories.
    pub(crate) fn new(alloc: Global) -> Counts
        ensures { result ≡ empty }
    {
        Counts {
            numbers: BTreeMap::new(alloc),
        }
    }

    /// The number of a directory.
    pub(crate) fn count(&self, dir: &Path) -> u64
        ensures { result ≡ count_in self.now dir.now }
    {
        match self.numbers.get(dir) {
            Some(number) => *number,
            None => 0,
        }
    }

    /// Keeps a number of a directory.
    pub(crate) fn keep(&mut self, dir: Path, number: u64) -> Result<(), Memory>
        ensures kept { OnOk result (self.new ≡ insert self.old dir number) }
        ensures refused { OnErr result (self.new ≡ self.old) }
    {
        self.numbers.insert(dir, number)?;
        Ok(())
    }
}
