//! The pips that each pip waits for.
ghost use Rattle.std.specs.Prelude.{◌≡◌, ◌++◌, OnOk, IfOk};
ghost use Rattle.pip_model.specs.Edges.{dir_targets, maker, makers, targets};
ghost use Rattle.pip_model.specs.Inputs.{AreTargets};
ghost use Rattle.pip_model.specs.Plans.{AreAllInputs};
ghost use Rattle.std.specs.List.{flat_map};

use bx_tree::FileInput;
use pip_model_types::{DirInput, Pip, PipKind, pip_at};
use std::alloc::{AllocError, Global};
use std::marker::Model;

// Numbers of pips, rising, each once.
#[derive(Drop)]
pub(crate) struct Inputs {
    numbers: Vec<u32>,
}

impl Model for Inputs {
    ghost use Rattle.std.specs.Prelude.{List, ℕ};

    ghost Value = { List ℕ };

    ghost view = { λ i. i.numbers.items };
}

impl Inputs {
    pub(crate) fn numbers(&self) -> &[u32]
        ensures { result.now ≡ self.now }
    {
        self.numbers.as_slice()
    }
}

// Adds the pip that made a file.
fn add_maker(found: &mut Vec<u32>, file: &FileInput) -> Result<(), AllocError>
    ensures { OnOk result (found.new.items ≡ found.old.items ++ maker file.now) }
{
    match file {
        FileInput::Source(_) => Ok(()),
        FileInput::Made(_, pip) => Ok(found.push(*pip)?),
    }
}

// Adds the pips that made some files.
fn add_makers(found: &mut Vec<u32>, files: &[FileInput]) -> Result<(), AllocError>
    ensures { OnOk result (found.new.items ≡ found.old.items ++ makers files.now) }
{
    'files: for file in files {
        add_maker(found, file)?;
    }
    Ok(())
}

// Adds what a process waits for where it takes a directory.
fn add_dir(found: &mut Vec<u32>, pips: &[Pip], dir: &DirInput) -> Result<(), AllocError>
    ensures { OnOk result (found.new.items ≡ found.old.items ++ dir_targets pips.now dir.now) }
{
    match dir {
        DirInput::Sealed(number, _, _) => {
            found.push(*number)?;
            match pip_at(pips, *number) {
                Some(pip) => add_makers(found, pip.kind.listed()),
                None => Ok(()),
            }
        }
        DirInput::Opaque(number, _) => Ok(found.push(*number)?),
    }
}

// Adds what a process waits for where it takes some directories.
fn add_dirs(found: &mut Vec<u32>, pips: &[Pip], dirs: &[DirInput]) -> Result<(), AllocError>
    ensures { OnOk result (found.new.items ≡ found.old.items ++ flat_map (dir_targets pips.now) dirs.now) }
{
    'dirs: for dir in dirs {
        add_dir(found, pips, dir)?;
    }
    Ok(())
}

// Adds what a pip waits for.
fn add_targets(found: &mut Vec<u32>, pips: &[Pip], kind: &PipKind) -> Result<(), AllocError>
    ensures { OnOk result (found.new.items ≡ found.old.items ++ targets pips.now kind.now) }
{
    match kind {
        PipKind::Process(process) => {
            add_makers(found, process.files.files())?;
            add_dirs(found, pips, process.dirs.dirs())
        }
        PipKind::Copy(copy) => add_maker(found, &copy.from),
        PipKind::Write(_) => Ok(()),
        PipKind::Seal(seal) => add_makers(found, seal.listed()),
    }
}

// The numbers in rising order, each once.
fn in_order(found: Vec<u32>) -> Inputs
    ensures { AreTargets found.items result }
{
    let mut numbers = found;
    numbers.sort_unstable();
    numbers.dedup();
    Inputs { numbers }
}

// The pips that a pip waits for.
fn inputs_of(alloc: Global, pips: &[Pip], kind: &PipKind) -> Result<Inputs, AllocError>
    ensures { IfOk result (AreTargets (targets pips.now kind.now)) }
{
    let mut found = Vec::new(alloc);
    add_targets(&mut found, pips, kind)?;
    Ok(in_order(found))
}

// The pips that each pip waits for.
pub(crate) fn all_inputs(alloc: Global, pips: &[Pip]) -> Result<Vec<Inputs>, AllocError>
    ensures { IfOk result (λ all. AreAllInputs pips.now all.items) }
{
    let mut all = Vec::new(alloc);
    'pips: for pip in pips {
        all.push(inputs_of(alloc, pips, &pip.kind)?)?;
    }
    Ok(all)
}
