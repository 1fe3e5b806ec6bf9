//! The process that a call asks for.
ghost use Rattle.std.specs.Prelude.{◌≡◌, [], IfOk, map, slice_get, unwrap_or};
ghost use Rattle.std.specs.List.{filter_map};
ghost use Rattle.bx_path.specs.Joining.{parent};
ghost use Rattle.bx_tree.specs.Paths.{path_cmp};
ghost use Rattle.pip_model_types.specs.Dirs.{dir_cmp};
ghost use Rattle.pip_model_types.specs.Outputs.{outdir_cmp};
ghost use Rattle.dscript_sdk_execute.specs.Execute as spec;
ghost use Rattle.dscript_sdk_execute.specs.Execute.{dir_input, directory_output, file_output, form_of_kind};
ghost use Rattle.dscript_sdk_execute.specs.Execute.{form_of_pip, taken_dir, taken_file};
ghost use Rattle.dscript_sdk_execute.specs.Sets.{set_by};
ghost use Rattle.dscript_sdk_execute.specs.Views.{made_data, taken_of};

use crate::arguments::{with_inputs, with_outputs, written_arguments};
use crate::dependency::Dependency;
use crate::output::Output;
use crate::request::{Made, Taken};
use bx_tree::{FileInput, Memory, Path, PathFault};
use dscript_sdk_members::parent_of;
use dscript_sdk_pips::files_by_path;
use dscript_sdk_values::share_file;
use dscript_value::StaticDir;
use pip_model_types::{
    Arguments, DirInput, DirInputs, OutDir, OutDirs, Outputs, Pip, PipKind, ProcessDesc, SealForm,
};
use std::alloc::{AllocError, Global};

fn files_among(alloc: Global, inputs: &[Dependency]) -> Result<Vec<FileInput>, Memory>
    ensures { IfOk result (λ files. files.items ≡ filter_map taken_file inputs.now) }
{
    let mut files = Vec::new(alloc);
    'inputs: for input in inputs {
        if let Dependency::File(file) = input {
            files.push(share_file(file)?)?;
        }
    }
    Ok(files)
}

fn form_of(kind: &PipKind) -> SealForm
    ensures { result ≡ form_of_kind kind.now }
{
    match kind {
        PipKind::Seal(seal) => seal.form,
        PipKind::Process(_) | PipKind::Copy(_) | PipKind::Write(_) => SealForm::Full,
    }
}

fn form_at(pips: &[Pip], number: u32) -> SealForm
    ensures { result ≡ form_of_pip (slice_get pips.now number) }
{
    match pips.get(number as usize) {
        Some(pip) => form_of(&pip.kind),
        None => SealForm::Full,
    }
}

fn directory_input(pips: &[Pip], dir: &StaticDir) -> Result<DirInput, Memory>
    ensures { IfOk result (λ input. input ≡ dir_input pips.now dir.now) }
{
    match dir {
        StaticDir::Seal(number, root) => Ok(DirInput::Sealed(
            *number,
            form_at(pips, *number),
            root.share()?,
        )),
        StaticDir::Opaque(number, path) => Ok(DirInput::Opaque(*number, path.share()?)),
    }
}

fn directories_among(
    alloc: Global,
    pips: &[Pip],
    inputs: &[Dependency],
) -> Result<Vec<DirInput>, Memory>
    ensures { IfOk result (λ dirs. dirs.items
        ≡ map (dir_input pips.now) (filter_map taken_dir inputs.now)) }
{
    let mut dirs = Vec::new(alloc);
    'inputs: for input in inputs {
        if let Dependency::Directory(dir) = input {
            dirs.push(directory_input(pips, dir)?)?;
        }
    }
    Ok(dirs)
}

// The files among some outputs.
fn output_files(alloc: Global, outputs: &[Output]) -> Result<Vec<Path>, Memory>
    ensures { IfOk result (λ paths. paths.items ≡ filter_map file_output outputs.now) }
{
    let mut paths = Vec::new(alloc);
    'outputs: for output in outputs {
        if let Output::File(path) = output {
            paths.push(path.share()?)?;
        }
    }
    Ok(paths)
}

// The directories among some outputs.
fn output_directories(alloc: Global, outputs: &[Output]) -> Result<Vec<OutDir>, Memory>
    ensures { IfOk result (λ dirs. dirs.items ≡ filter_map directory_output outputs.now) }
{
    let mut dirs = Vec::new(alloc);
    'outputs: for output in outputs {
        if let Output::Directory(dir) = output {
            dirs.push(dir.share()?)?;
        }
    }
    Ok(dirs)
}

fn set_of_directories(dirs: Vec<DirInput>) -> DirInputs
    ensures { result ≡ set_by dir_cmp dirs.items }
{
    DirInputs::of(dirs)
}

fn set_of_files(paths: Vec<Path>) -> Outputs
    ensures { result ≡ set_by path_cmp paths.items }
{
    Outputs::of(paths)
}

fn set_of_outdirs(dirs: Vec<OutDir>) -> OutDirs
    ensures { result ≡ set_by outdir_cmp dirs.items }
{
    OutDirs::of(dirs)
}

// The directory of a file, and the root for the root.
fn directory_of(alloc: Global, file: &Path) -> Result<Path, Memory>
    ensures { IfOk result (λ dir. dir ≡ unwrap_or (parent file.now) []) }
{
    match parent_of(alloc, file) {
        Ok(Some(dir)) => Ok(dir),
        Ok(None) => Path::root(alloc),
        Err(PathFault::Memory) => Err(AllocError),
        Err(PathFault::BadPath) => unreachable!(),
    }
}

// The directory in which a process works: that of the file of the call, unless another is given.
fn working_directory(alloc: Global, given: Option<Path>, file: &Path) -> Result<Path, Memory>
    ensures { IfOk result (λ dir. dir ≡ unwrap_or given (unwrap_or (parent file.now) [])) }
{
    match given {
        Some(dir) => Ok(dir),
        None => directory_of(alloc, file),
    }
}

/// The process that a call in a file asks for, after these pips.
pub(crate) fn process_of(
    alloc: Global,
    file: &Path,
    pips: &[Pip],
    taken: Taken,
    made: Made,
) -> Result<ProcessDesc, Memory>
    ensures { IfOk result (λ process.
        process ≡ spec.process_of file.now pips.now (taken_of taken) (made_data made)) }
{
    let args = written_arguments(alloc, taken.arguments.as_slice())?;
    let inputs = with_inputs(taken.dependencies, taken.arguments.as_slice())?;
    let outputs = with_outputs(made.outputs, taken.arguments.as_slice())?;
    let files = files_among(alloc, inputs.as_slice())?;
    let dirs = directories_among(alloc, pips, inputs.as_slice())?;
    let outs = output_files(alloc, outputs.as_slice())?;
    let outdirs = output_directories(alloc, outputs.as_slice())?;
    Ok(ProcessDesc {
        exe: taken.exe,
        args: Arguments::of(args),
        env: made.variables,
        dir: working_directory(alloc, taken.directory, file)?,
        files: files_by_path(alloc, files.as_slice())?,
        dirs: set_of_directories(dirs),
        outs: set_of_files(outs),
        outdirs: set_of_outdirs(outdirs),
        console: made.console,
    })
}
