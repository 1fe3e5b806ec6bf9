//! The pips by the paths of their outputs, so that those at a path are found without going through all pips.
ghost use Rattle.std.specs.Prelude.{◌≡◌, ◌++◌, ◌∷◌, [], ◌≤◌, ◌<◌, ℕ, List, Contains, length, slice_index_or, IfOk, OnOk};
ghost use Rattle.std.specs.Option.{option_to_list};
ghost use Rattle.pip_model.specs.Outputs.{HasOutputsOf, found_in, number_at};
ghost use Rattle.pip_model.specs.Outputs.{numbers_at, output_paths};
ghost use Rattle.pip_model_types.specs.Outputs.{outdir_paths};

use bx_tree::Path;
use bx_tree_paths::{PathId, PathTable};
use pip_model_types::{OutDir, Pip, PipKind};
use std::alloc::{AllocError, Global};
use std::marker::Model;

/// Numbers of pips by path: the paths are numbered, and at the number of each is a list of pips.
#[derive(Drop)]
pub(crate) struct ByPath {
    paths: PathTable,
    pips: Vec<Vec<u32>>,
}

impl Model for ByPath {
    ghost use Rattle.std.specs.Prelude.{◌≡◌, length};
    ghost use Rattle.pip_model.specs.Outputs.{Numbered};

    ghost Value = { Numbered };

    ghost view = { λ b. record { paths = b.paths; pips = b.pips.items } };

    ghost invariant = { λ b. length b.pips.items ≡ length b.paths };
}

// A list of one number.
fn one(alloc: Global, number: u32) -> Result<Vec<u32>, AllocError>
    ensures { IfOk result (λ numbers. numbers.items ≡ number ∷ []) }
{
    let mut numbers = Vec::new(alloc);
    numbers.push(number)?;
    Ok(numbers)
}

impl ByPath {
    /// No pips.
    pub(crate) fn new(alloc: Global) -> Result<ByPath, AllocError>
        ensures { IfOk result (λ found. (text : List ℕ) → found_in found text ≡ []) }
    {
        Ok(ByPath {
            paths: PathTable::new(alloc)?,
            pips: Vec::new(alloc),
        })
    }

    /// The numbers at the path with this text.
    pub(crate) fn at(&self, text: &[u8]) -> &[u32]
        ensures { result.now ≡ found_in self.now text.now }
    {
        // The type of the table says that no two paths have one text.
        let _ = self.paths.len();
        match self.paths.find_text(text) {
            Some(id) => self.pips[id.0 as usize].as_slice(),
            None => &[],
        }
    }

    // Adds a number at a path that is there.
    fn add_old(&mut self, number: u32, id: PathId) -> Result<(), AllocError>
        requires { id.0 < length self.old.paths }
        ensures { OnOk result ((text : List ℕ) → found_in self.new text
            ≡ found_in self.old text ++ number_at number text (slice_index_or self.old.paths id.0 [])) }
    {
        let _ = self.paths.len();
        self.pips[id.0 as usize].push(number)?;
        Ok(())
    }

    // Adds a number at a path that is not there.
    fn add_new(&mut self, alloc: Global, number: u32, path: &Path) -> Result<(), AllocError>
        requires { Contains self.old.paths path.now → ⊥ }
        ensures { OnOk result ((text : List ℕ) → found_in self.new text
            ≡ found_in self.old text ++ number_at number text path.now) }
    {
        // So many paths do not fit into memory.
        if self.paths.len() >= u32::MAX as usize {
            return Err(AllocError);
        }
        // The type of the path says that no other has its text.
        let _ = path.text();
        let numbers = one(alloc, number)?;
        self.pips.push(numbers)?;
        match self.paths.add(alloc, path) {
            Ok(_) => Ok(()),
            Err(fault) => {
                let _ = self.pips.pop();
                Err(fault)
            }
        }
    }

    // Adds a pip at the path of one of its outputs.
    fn add(&mut self, alloc: Global, number: u32, path: &Path) -> Result<(), AllocError>
        ensures { OnOk result ((text : List ℕ) → found_in self.new text
            ≡ found_in self.old text ++ number_at number text path.now) }
    {
        match self.paths.find(path) {
            Some(id) => self.add_old(number, id),
            None => self.add_new(alloc, number, path),
        }
    }

    // Adds a pip at each of these paths.
    fn add_all(&mut self, alloc: Global, number: u32, paths: &[Path]) -> Result<(), AllocError>
        ensures { OnOk result ((text : List ℕ) → found_in self.new text
            ≡ found_in self.old text ++ numbers_at number text paths.now) }
    {
        'paths: for path in paths {
            self.add(alloc, number, path)?;
        }
        Ok(())
    }

    // Adds a pip at each of its output directories.
    fn add_dirs(&mut self, alloc: Global, number: u32, dirs: &[OutDir]) -> Result<(), AllocError>
        ensures { OnOk result ((text : List ℕ) → found_in self.new text
            ≡ found_in self.old text ++ numbers_at number text (outdir_paths dirs.now)) }
    {
        'dirs: for dir in dirs {
            self.add(alloc, number, &dir.path)?;
        }
        Ok(())
    }

    // Adds a pip at its console file, if it has one.
    fn add_console(
        &mut self,
        alloc: Global,
        number: u32,
        console: &Option<Path>,
    ) -> Result<(), AllocError>
        ensures { OnOk result ((text : List ℕ) → found_in self.new text
            ≡ found_in self.old text ++ numbers_at number text (option_to_list console.now)) }
    {
        match console {
            Some(path) => self.add(alloc, number, path),
            None => Ok(()),
        }
    }

    // Adds a pip at each of its outputs.
    fn add_pip(&mut self, alloc: Global, number: u32, kind: &PipKind) -> Result<(), AllocError>
        ensures { OnOk result ((text : List ℕ) → found_in self.new text
            ≡ found_in self.old text ++ numbers_at number text (output_paths kind.now)) }
    {
        match kind {
            PipKind::Process(process) => {
                self.add_all(alloc, number, process.outs.paths())?;
                self.add_console(alloc, number, &process.console)?;
                self.add_dirs(alloc, number, process.outdirs.dirs())
            }
            PipKind::Copy(copy) => self.add(alloc, number, &copy.to),
            PipKind::Write(write) => self.add(alloc, number, &write.to),
            PipKind::Seal(_) => Ok(()),
        }
    }
}

/// The pips by their outputs.
pub(crate) fn by_output(alloc: Global, pips: &[Pip]) -> Result<ByPath, AllocError>
    requires { length pips.now ≤ u32.MAX }
    ensures { IfOk result (HasOutputsOf pips.now) }
{
    let mut found = ByPath::new(alloc)?;
    'pips: for (place, pip) in pips.iter().enumerate() {
        found.add_pip(alloc, place as u32, &pip.kind)?;
    }
    Ok(found)
}
