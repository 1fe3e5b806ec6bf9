//! Files by path, of which only one counts at each path.
ghost use Rattle.std.specs.Prelude.{◌≡◌, [], fold, IfOk, OnOk};
ghost use Rattle.std.specs.BTreeMap.{values};
ghost use Rattle.dscript_sdk_pips.specs.FileSets as spec;
ghost use Rattle.dscript_sdk_pips.specs.FileSets.{AreCounted, counted, counting, file_for};
ghost use Rattle.bx_tree.specs.FileInputs.{input_path};

use bx_tree::{FileInput, Memory, Path};
use dscript_sdk_values::share_file;
use pip_model_types::FileInputs;
use std::alloc::Global;
use std::collections::BTreeMap;

// Of two files of one path the source file counts, and otherwise that of the lesser maker.
fn which_counts<'a>(file: &'a FileInput, other: &'a FileInput) -> &'a FileInput
    ensures { result.now ≡ counting file.entry.now other.entry.now }
{
    match (file, other) {
        (FileInput::Source(_), _) => file,
        (_, FileInput::Source(_)) => other,
        (FileInput::Made(_, maker), FileInput::Made(_, rival)) => {
            if maker <= rival { file } else { other }
        }
    }
}

// A file, or the one with its path that counts before it.
fn share_counted(files: &BTreeMap<Path, FileInput>, file: &FileInput) -> Result<FileInput, Memory>
    ensures { IfOk result (λ kept.
        kept ≡ counted file.now (file_for files.now.entries (input_path file.now))) }
{
    match files.get(file.path()) {
        Some(other) => share_file(which_counts(file, other)),
        None => share_file(file),
    }
}

fn put_file(files: &mut BTreeMap<Path, FileInput>, file: &FileInput) -> Result<(), Memory>
    ensures { OnOk result (files.new.entries ≡ spec.put_file files.old.entries file.now) }
{
    let kept = share_counted(files, file)?;
    let path = file.path().share()?;
    files.insert(path, kept)?;
    Ok(())
}

// The files that count, each for its path.
fn put_all(alloc: Global, files: &[FileInput]) -> Result<BTreeMap<Path, FileInput>, Memory>
    ensures { IfOk result (λ kept. kept.entries ≡ fold spec.put_file [] files.now) }
{
    let mut kept = BTreeMap::new(alloc);
    'files: for file in files {
        put_file(&mut kept, file)?;
    }
    Ok(kept)
}

// The kept files, in the order of their paths.
fn values_of(alloc: Global, files: &BTreeMap<Path, FileInput>) -> Result<Vec<FileInput>, Memory>
    ensures { IfOk result (λ sorted. sorted.items ≡ values files.now) }
{
    let mut sorted = Vec::new(alloc);
    'files: for file in files.values() {
        sorted.push(share_file(file)?)?;
    }
    Ok(sorted)
}

/// The files that count, by path.
pub fn files_by_path(alloc: Global, files: &[FileInput]) -> Result<FileInputs, Memory>
    ensures sorted { IfOk result (λ sorted. sorted ≡ spec.files_by_path files.now) }
    ensures counted { IfOk result (λ sorted. AreCounted files.now sorted) }
{
    let kept = put_all(alloc, files)?;
    let sorted = values_of(alloc, &kept)?;
    Ok(FileInputs::of(sorted))
}
