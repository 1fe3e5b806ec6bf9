//! The members of the opaque directories that a process takes, found in the lists of the pips that made them.
ghost use Rattle.std.specs.Prelude.{◌≡◌, ◌++◌, [], IfOk, OnOk, filter, nat_le};
ghost use Rattle.std.specs.Borrow.{Bor};
ghost use Rattle.std.specs.List.{position_or_len};
ghost use Rattle.std.specs.Option.{option_copied};
ghost use Rattle.bx_tree.specs.Trees.{file_at};
ghost use Rattle.bx_tree.specs.Below.{is_at_or_below};
ghost use Rattle.tool_run_writes.specs.Writes.{has_below as file_below, own_names};
ghost use Rattle.pip_view_inputs.specs.Results.{files_by};
ghost use Rattle.pip_model_types.specs.Dirs.{dir_pip};
ghost use Rattle.pip_model_types.specs.Made.{RisingFiles, made_files};
ghost use Rattle.pip_model_types.specs.declared.dir_inputs.DirInput.{DirInput as AnyDir};
ghost use Rattle.pip_view.specs.Gathered.{below_of, deeper as deeper_of, dirs_now, members_of};
ghost use Rattle.pip_view.specs.Gathered.{opaque_members, opaque_of, with_opaque};
ghost use Rattle.pip_view.specs.InputFiles.{by_pip, insert_by_pip as with_dir, is_opaque as opaque};
ghost use Rattle.bx_tree.specs.Lent.{texts_now};

use crate::below::{add_within, has_below};
use bx_digest::Blob;
use bx_tree::{Memory, Path};
use pip_model::{DirInput, DirInputs, MadeFile};
use pip_view_inputs::{Inputs, made_at};
use std::alloc::Global;

fn is_opaque(dir: &DirInput) -> bool
    ensures { result ≡ opaque dir.now }
{
    match dir {
        DirInput::Sealed(_, _, _) => false,
        DirInput::Opaque(_, _) => true,
    }
}

// The place of the first directory of this pip or of a greater one; the end, if there is none.
fn place_by_pip(sorted: &[&DirInput], pip: u32) -> usize
    ensures { result ≡ position_or_len (λ (d : Bor AnyDir). nat_le pip (dir_pip d.now)) sorted.now }
{
    sorted
        .iter()
        .position(|other| pip <= other.pip())
        .unwrap_or(sorted.len())
}

// Puts a directory before the first of a greater pip, or of the pip itself.
fn insert_by_pip<'a>(sorted: &mut Vec<&'a DirInput>, dir: &'a DirInput) -> Result<(), Memory>
    ensures { OnOk result
        (dirs_now sorted.new.items ≡ with_dir dir.entry.now (dirs_now sorted.old.items)) }
{
    let place = place_by_pip(sorted.as_slice(), dir.pip());
    sorted.insert(place, dir)?;
    Ok(())
}

// Puts a directory in its place, if it is opaque.
fn insert_opaque<'a>(sorted: &mut Vec<&'a DirInput>, dir: &'a DirInput) -> Result<(), Memory>
    ensures { OnOk result
        (dirs_now sorted.new.items ≡ with_opaque dir.entry.now (dirs_now sorted.old.items)) }
{
    if is_opaque(dir) {
        return insert_by_pip(sorted, dir);
    }
    Ok(())
}

// The opaque directories in the order of their pips.
pub(crate) fn opaque_by_pip(alloc: Global, dirs: &[DirInput]) -> Result<Vec<&DirInput>, Memory>
    ensures { IfOk result (λ sorted. dirs_now sorted.items ≡ by_pip (filter opaque dirs.entry.now)) }
{
    let mut sorted = Vec::new(alloc);
    let mut left = dirs;
    'dirs: while let Some((dir, rest)) = left.split_last() {
        insert_opaque(&mut sorted, dir)?;
        left = rest;
    }
    Ok(sorted)
}

// The opaque directories that are searched, by pip: those that were found, or all where there was no answer.
pub(crate) fn opaque_searched<'a>(
    alloc: Global,
    near: &'a Option<DirInputs>,
    all: &[&'a DirInput],
) -> Result<Vec<&'a DirInput>, Memory>
    ensures { IfOk result (λ found. dirs_now found.items
        ≡ opaque_of near.entry.now (dirs_now all.now)) }
{
    match near {
        Some(near) => opaque_by_pip(alloc, near.dirs()),
        None => Ok(all.to_vec(alloc)?),
    }
}

// No files.
fn no_made<'a>() -> &'a [MadeFile]
    ensures files { made_files result.now ≡ [] }
    ensures rising { RisingFiles (made_files result.now) }
{
    &[]
}

// The files that a pip made, in order.
fn made_by(inputs: &Inputs, pip: u32) -> &[MadeFile]
    ensures files { made_files result.now ≡ files_by inputs.entry.now pip }
    ensures rising { RisingFiles (made_files result.now) }
{
    match inputs.find(pip) {
        Some(made) => made.files(),
        None => no_made(),
    }
}

// Whether a path is a directory or lies below it.
fn is_at_or_below(path: &Path, dir: &Path) -> bool
    ensures { result ≡ is_at_or_below path.now dir.now }
{
    *path == *dir || path.is_below(dir)
}

// The deeper of two directories, if one contains the other or is the other.
fn deeper<'a>(dir: &'a Path, other: &'a Path) -> Option<&'a Path>
    ensures { option_copied result ≡ deeper_of dir.entry.now other.entry.now }
{
    if other.is_below(dir) {
        return Some(other);
    }
    if is_at_or_below(dir, other) {
        return Some(dir);
    }
    None
}

// The file at a path that a pip made below a directory.
fn made_below<'a>(inputs: &'a Inputs, pip: u32, dir: &Path, path: &Path) -> Option<&'a Blob>
    ensures { option_copied result
        ≡ file_at (below_of dir.now (files_by inputs.entry.now pip)) path.now }
{
    if !path.is_below(dir) {
        return None;
    }
    made_at(inputs, pip, path)
}

// The member of an opaque directory at a path.
fn member_at<'a>(inputs: &'a Inputs, dir: &DirInput, path: &Path) -> Option<&'a Blob>
    ensures { option_copied result ≡ file_at (opaque_members inputs.entry.now dir.now) path.now }
{
    match dir {
        DirInput::Opaque(pip, root) => made_below(inputs, *pip, root, path),
        DirInput::Sealed(_, _, _) => None,
    }
}

// The member at a path of the first of these directories that has one.
pub(crate) fn find_member<'a>(
    inputs: &'a Inputs,
    dirs: &[&DirInput],
    path: &Path,
) -> Option<&'a Blob>
    ensures { option_copied result
        ≡ file_at (members_of inputs.entry.now (dirs_now dirs.now)) path.now }
{
    'dirs: for dir in dirs {
        if let Some(blob) = member_at(inputs, dir, path) {
            return Some(blob);
        }
    }
    None
}

// Whether a file that a pip made below a directory lies below another.
fn has_made(inputs: &Inputs, pip: u32, dir: &Path, path: &Path) -> bool
    ensures { result ≡ file_below (below_of dir.now (files_by inputs.now pip)) path.now }
{
    match deeper(dir, path) {
        Some(root) => has_below(made_by(inputs, pip), root),
        None => false,
    }
}

// Whether a member of an opaque directory lies below a path.
fn has_member_of(inputs: &Inputs, dir: &DirInput, path: &Path) -> bool
    ensures { result ≡ file_below (opaque_members inputs.now dir.now) path.now }
{
    match dir {
        DirInput::Opaque(pip, root) => has_made(inputs, *pip, root, path),
        DirInput::Sealed(_, _, _) => false,
    }
}

// Whether a member of one of these directories lies below a path.
pub(crate) fn has_member(inputs: &Inputs, dirs: &[&DirInput], path: &Path) -> bool
    ensures { result ≡ file_below (members_of inputs.now (dirs_now dirs.now)) path.now }
{
    'dirs: for dir in dirs {
        if has_member_of(inputs, dir, path) {
            return true;
        }
    }
    false
}

// Adds the names, in the listing of a path, of the files that a pip made below a directory.
fn add_made<'a>(
    names: &mut Vec<&'a [u8]>,
    inputs: &'a Inputs,
    pip: u32,
    dir: &Path,
    path: &Path,
) -> Result<(), Memory>
    ensures { OnOk result (texts_now names.new.items ≡ texts_now names.old.items
        ++ own_names (below_of dir.now (files_by inputs.entry.now pip)) path.now) }
{
    let Some(root) = deeper(dir, path) else {
        return Ok(());
    };
    add_within(names, made_by(inputs, pip), root, path)
}

// Adds the names, in the listing of a path, of the members of an opaque directory.
fn add_members_of<'a>(
    names: &mut Vec<&'a [u8]>,
    inputs: &'a Inputs,
    dir: &DirInput,
    path: &Path,
) -> Result<(), Memory>
    ensures { OnOk result (texts_now names.new.items
        ≡ texts_now names.old.items ++ own_names (opaque_members inputs.entry.now dir.now) path.now) }
{
    match dir {
        DirInput::Opaque(pip, root) => add_made(names, inputs, *pip, root, path),
        DirInput::Sealed(_, _, _) => Ok(()),
    }
}

// Adds the names, in the listing of a path, of the members of these directories.
pub(crate) fn add_members<'a>(
    names: &mut Vec<&'a [u8]>,
    inputs: &'a Inputs,
    dirs: &[&DirInput],
    path: &Path,
) -> Result<(), Memory>
    ensures { OnOk result (texts_now names.new.items ≡ texts_now names.old.items
        ++ own_names (members_of inputs.entry.now (dirs_now dirs.now)) path.now) }
{
    'dirs: for dir in dirs {
        add_members_of(names, inputs, dir, path)?;
    }
    Ok(())
}
