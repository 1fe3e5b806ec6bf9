//! The files that a process takes by name, found in its own list and in those of the seals that it takes.
ghost use Rattle.std.specs.Prelude.{◌≡◌, ◌++◌, ◌∷◌, [], IfOk, OnOk, slice_get};
ghost use Rattle.std.specs.Option.{option_copied};
ghost use Rattle.bx_tree.specs.Trees.{file_at as found_at};
ghost use Rattle.pip_view_inputs.specs.Contents.{input_bytes};
ghost use Rattle.pip_view_directories.specs.Near.{AreTaken};
ghost use Rattle.pip_model_types.specs.Inputs.{RiseByPath};
ghost use Rattle.pip_model_types.specs.Kinds.{listed_in};
ghost use Rattle.pip_view.specs.Taken.{any_below, dir_files, dirs_files, executable, first_at};
ghost use Rattle.pip_view.specs.Taken.{taken_bytes, taken_files, taken_names};
ghost use Rattle.bx_tree.specs.Lent.{texts_now};

use crate::below::{add_below, has_below};
use bx_digest::Blob;
use bx_tree::{FileInput, Memory, Path, next_atom};
use bx_tree_paths::place_of;
use pip_model::{DirInput, Pip, Plan, ProcessDesc, SealForm, Sources};
use pip_model_types::{no_inputs, pip_at};
use pip_view_directories::{near_dirs, searched};
use pip_view_inputs::{Inputs, input_file, source_blob};
use std::alloc::Global;

// The files that a pip lists, in order.
fn listed_files(pips: &[Pip], pip: u32) -> &[FileInput]
    ensures files { result.now ≡ listed_in (slice_get pips.entry.now pip) }
    ensures rising { RiseByPath result.now }
{
    match pip_at(pips, pip) {
        Some(pip) => pip.kind.listed(),
        None => no_inputs(),
    }
}

// The files that a directory lists, in order.
fn files_of<'a>(pips: &'a [Pip], dir: &DirInput) -> &'a [FileInput]
    ensures files { result.now ≡ dir_files pips.entry.now dir.now }
    ensures rising { RiseByPath result.now }
{
    match dir {
        DirInput::Sealed(pip, SealForm::Full | SealForm::Partial, _) => listed_files(pips, *pip),
        DirInput::Sealed(_, SealForm::SourceTop | SealForm::SourceAll, _)
        | DirInput::Opaque(_, _) => no_inputs(),
    }
}

// The file at a path.
fn file_at<'a>(files: &'a [FileInput], path: &Path) -> Option<&'a FileInput>
    requires { RiseByPath files.now }
    ensures { option_copied result ≡ first_at path.now files.entry.now }
{
    match place_of(files, path) {
        Some(place) => Some(&files[place]),
        None => None,
    }
}

// The first file at a path that one of the directories lists.
fn find_listed<'a>(pips: &'a [Pip], dirs: &[DirInput], path: &Path) -> Option<&'a FileInput>
    ensures { option_copied result ≡ first_at path.now (dirs_files pips.entry.now dirs.now) }
{
    'dirs: for dir in dirs {
        let files = files_of(pips, dir);
        if let Some(file) = file_at(files, path) {
            return Some(file);
        }
    }
    None
}

// The first file at a path that a process declares or that one of these directories lists.
fn find_declared<'a>(
    pips: &'a [Pip],
    process: &'a ProcessDesc,
    dirs: &[DirInput],
    path: &Path,
) -> Option<&'a FileInput>
    ensures { option_copied result ≡ first_at path.now
        (process.entry.now.files ++ dirs_files pips.entry.now dirs.now) }
{
    let files = process.files.files();
    match file_at(files, path) {
        Some(file) => Some(file),
        None => find_listed(pips, dirs, path),
    }
}

// The bytes of a file that a process takes.
fn blob_of(
    alloc: Global,
    sources: &Sources,
    inputs: &Inputs,
    file: &FileInput,
) -> Result<Blob, Memory>
    ensures { IfOk result (λ blob. blob ≡ input_bytes sources.now inputs.now file.now) }
{
    Ok(input_file(alloc, sources, inputs, file)?.blob)
}

// The bytes of the first file at a path that a process declares or that one of these directories lists.
fn declared_blob(
    alloc: Global,
    pips: &[Pip],
    sources: &Sources,
    inputs: &Inputs,
    process: &ProcessDesc,
    dirs: &[DirInput],
    path: &Path,
) -> Result<Option<Blob>, Memory>
    ensures { IfOk result (λ found. found ≡ found_at (taken_bytes sources.now inputs.now
        (process.now.files ++ dirs_files pips.now dirs.now)) path.now) }
{
    match find_declared(pips, process, dirs, path) {
        Some(file) => {
            let blob = blob_of(alloc, sources, inputs, file)?;
            Ok(Some(blob))
        }
        None => Ok(None),
    }
}

// The bytes of the first file at a path, of the executable, the declared files and those that seals list.
pub(crate) fn taken_blob(
    alloc: Global,
    plan: &Plan,
    sources: &Sources,
    inputs: &Inputs,
    process: &ProcessDesc,
    path: &Path,
) -> Result<Option<Blob>, Memory>
    requires { AreTaken plan.now.pips process.now.dirs }
    ensures { IfOk result (λ found. found ≡ found_at
        (taken_bytes sources.now inputs.now (taken_files plan.now.pips process.now)) path.now) }
{
    if process.exe == *path {
        let blob = source_blob(alloc, sources, path)?;
        return Ok(Some(blob));
    }
    let near = near_dirs(alloc, plan, &process.dirs, path)?;
    let dirs = searched(&near, process.dirs.dirs());
    declared_blob(alloc, plan.pips(), sources, inputs, process, dirs, path)
}

// Whether a file that one of the directories lists lies below a directory.
fn has_listed(pips: &[Pip], dirs: &[DirInput], dir: &Path) -> bool
    ensures { result ≡ any_below dir.now (dirs_files pips.now dirs.now) }
{
    'dirs: for listing in dirs {
        let files = files_of(pips, listing);
        if has_below(files, dir) {
            return true;
        }
    }
    false
}

// Whether one of the executable, the declared files and those that these directories list is below a directory.
fn has_among(pips: &[Pip], process: &ProcessDesc, dirs: &[DirInput], dir: &Path) -> bool
    ensures { result ≡ any_below dir.now
        (executable process.now ∷ process.now.files ++ dirs_files pips.now dirs.now) }
{
    let files = process.files.files();
    process.exe.is_below(dir) || has_below(files, dir) || has_listed(pips, dirs, dir)
}

// Whether a file that a process takes lies below a directory.
pub(crate) fn has_taken(
    alloc: Global,
    plan: &Plan,
    process: &ProcessDesc,
    dir: &Path,
) -> Result<bool, Memory>
    requires { AreTaken plan.now.pips process.now.dirs }
    ensures { IfOk result (λ yes. yes ≡ any_below dir.now (taken_files plan.now.pips process.now)) }
{
    let near = near_dirs(alloc, plan, &process.dirs, dir)?;
    let dirs = searched(&near, process.dirs.dirs());
    Ok(has_among(plan.pips(), process, dirs, dir))
}

// Adds the names of the files below a directory that the directories list.
fn add_listed<'a>(
    names: &mut Vec<&'a [u8]>,
    pips: &'a [Pip],
    dirs: &[DirInput],
    dir: &Path,
) -> Result<(), Memory>
    ensures { OnOk result (texts_now names.new.items
        ≡ texts_now names.old.items ++ taken_names dir.now (dirs_files pips.entry.now dirs.now)) }
{
    'dirs: for listing in dirs {
        add_below(names, files_of(pips, listing), dir)?;
    }
    Ok(())
}

// Adds the name of the executable, if it lies below a directory.
fn add_executable<'a>(
    names: &mut Vec<&'a [u8]>,
    process: &'a ProcessDesc,
    dir: &Path,
) -> Result<(), Memory>
    ensures { OnOk result (texts_now names.new.items
        ≡ texts_now names.old.items ++ taken_names dir.now (executable process.entry.now ∷ [])) }
{
    if let Some(name) = next_atom(dir, &process.exe) {
        names.push(name)?;
    }
    Ok(())
}

// Adds the names below a directory of the executable, the declared files and those that these directories list.
fn add_among<'a>(
    names: &mut Vec<&'a [u8]>,
    pips: &'a [Pip],
    process: &'a ProcessDesc,
    dirs: &[DirInput],
    dir: &Path,
) -> Result<(), Memory>
    ensures { OnOk result (texts_now names.new.items ≡ texts_now names.old.items ++ taken_names dir.now
        (executable process.entry.now ∷ process.entry.now.files ++ dirs_files pips.entry.now dirs.now)) }
{
    add_executable(names, process, dir)?;
    add_below(names, process.files.files(), dir)?;
    add_listed(names, pips, dirs, dir)
}

/// Adds the names of the files below a directory that a process takes.
pub(crate) fn add_taken<'a>(
    alloc: Global,
    names: &mut Vec<&'a [u8]>,
    plan: &'a Plan,
    process: &'a ProcessDesc,
    dir: &Path,
) -> Result<(), Memory>
    requires { AreTaken plan.now.pips process.now.dirs }
    ensures { OnOk result (texts_now names.new.items ≡ texts_now names.old.items
        ++ taken_names dir.now (taken_files plan.entry.now.pips process.entry.now)) }
{
    let near = near_dirs(alloc, plan, &process.dirs, dir)?;
    let dirs = searched(&near, process.dirs.dirs());
    add_among(names, plan.pips(), process, dirs, dir)
}
