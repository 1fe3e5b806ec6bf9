//! What pips make that are no processes, and processes with the contents of their files.
ghost use Rattle.std.specs.Prelude.{◌≡◌, ◌∷◌, [], IfOk, IsSome, IsSomeAnd, map, slice_get};
ghost use Rattle.std.specs.Option.{option_copied, option_map_or};
ghost use Rattle.bx_tree.specs.Trees.{file_at};
ghost use Rattle.pip_model_types.specs.Made.{made_files};
ghost use Rattle.pip_model_types.specs.declared.pip.ProcessDesc.{ProcessDesc as AnyProcess};
ghost use Rattle.pip_view_inputs.specs.Results.{files_by};
ghost use Rattle.pip_view_inputs.specs.Contents.{bytes_at, input_bytes, input_file as file_of_input};
ghost use Rattle.pip_view_inputs.specs.Plain.{desc_of, kind_process, plain_at, plain_of, process_in};

use crate::inputs::Inputs;
use crate::sharing::share_process;
use bx_digest::Blob;
use bx_tree::{FileInput, Memory, Path};
use pip_model::{Desc, FileInputs, Made, MadeFile, Pip, PipKind, Plan, ProcessDesc, Sources};
use std::alloc::Global;
use tool_run_writes::{Writes, with_file};

// A file, shared; none is a file of no bytes.
fn share_or_empty(alloc: Global, found: Option<&Blob>) -> Result<Blob, Memory>
    ensures { IfOk result (λ blob. blob ≡ option_map_or (λ bytes. bytes) (option_copied found.entry) []) }
{
    match found {
        Some(blob) => blob.share(),
        None => Blob::new(alloc, Vec::new(alloc)),
    }
}

/// The bytes of the file at a path that an input made, if there is one.
pub fn made_at<'a>(inputs: &'a Inputs, pip: u32, path: &Path) -> Option<&'a Blob>
    ensures { option_copied result ≡ file_at (files_by inputs.entry.now pip) path.now }
{
    match inputs.find(pip) {
        Some(made) => made.find(path),
        None => None,
    }
}

/// The bytes of a source file, shared; none where there is no such file.
pub fn source_blob(alloc: Global, sources: &Sources, path: &Path) -> Result<Blob, Memory>
    ensures { IfOk result (λ blob. blob ≡ bytes_at sources.now path.now) }
{
    share_or_empty(alloc, sources.find(path))
}

// The bytes of a file that a pip takes, shared.
fn input_blob(
    alloc: Global,
    sources: &Sources,
    inputs: &Inputs,
    file: &FileInput,
) -> Result<Blob, Memory>
    ensures { IfOk result (λ blob. blob ≡ input_bytes sources.now inputs.now file.now) }
{
    match file {
        FileInput::Source(path) => source_blob(alloc, sources, path),
        FileInput::Made(path, pip) => share_or_empty(alloc, made_at(inputs, *pip, path)),
    }
}

/// A file that a pip takes, with its bytes.
pub fn input_file(
    alloc: Global,
    sources: &Sources,
    inputs: &Inputs,
    file: &FileInput,
) -> Result<MadeFile, Memory>
    ensures { IfOk result (λ taken.
        (taken.path, taken.blob) ≡ file_of_input sources.now inputs.now file.now) }
{
    Ok(MadeFile {
        path: file.path().share()?,
        blob: input_blob(alloc, sources, inputs, file)?,
    })
}

fn input_list(
    alloc: Global,
    sources: &Sources,
    inputs: &Inputs,
    files: &[FileInput],
) -> Result<Vec<MadeFile>, Memory>
    ensures { IfOk result (λ taken.
        made_files taken.items ≡ map (file_of_input sources.now inputs.now) files.now) }
{
    let mut taken = Vec::new(alloc);
    'files: for file in files {
        let next = input_file(alloc, sources, inputs, file)?;
        taken.push(next)?;
    }
    Ok(taken)
}

// The files that a pip takes, each with its bytes.
fn input_files(
    alloc: Global,
    sources: &Sources,
    inputs: &Inputs,
    files: &FileInputs,
) -> Result<Made, Memory>
    ensures { IfOk result (λ made.
        made ≡ map (file_of_input sources.now inputs.now) files.now) }
{
    let list = files.files();
    let taken = input_list(alloc, sources, inputs, list)?;
    Made::of(alloc, taken)
}

// A process with the contents of its files.
fn desc_of_process(
    alloc: Global,
    sources: &Sources,
    inputs: &Inputs,
    process: &ProcessDesc,
    budget: u64,
) -> Result<Desc, Memory>
    ensures { IfOk result (λ desc. desc ≡ desc_of sources.now inputs.now budget process.now) }
{
    Ok(Desc {
        process: share_process(alloc, process)?,
        exe: source_blob(alloc, sources, &process.exe)?,
        files: input_files(alloc, sources, inputs, &process.files)?,
        budget,
    })
}

/// No files.
pub fn no_files(alloc: Global) -> Result<Made, Memory>
    ensures { IfOk result (λ made. made ≡ []) }
{
    Writes::new(alloc).into_made(alloc)
}

fn one_file(alloc: Global, path: &Path, blob: Blob) -> Result<Made, Memory>
    ensures { IfOk result (λ made. made ≡ (path.now, blob) ∷ []) }
{
    let none = no_files(alloc)?;
    with_file(alloc, &none, path.share()?, blob)
}

// What a pip of this kind makes.
fn plain_of_kind(
    alloc: Global,
    sources: &Sources,
    inputs: &Inputs,
    kind: &PipKind,
) -> Result<Made, Memory>
    ensures { IfOk result (λ made. made ≡ plain_of sources.now inputs.now kind.now) }
{
    match kind {
        PipKind::Copy(copy) => {
            let blob = input_blob(alloc, sources, inputs, &copy.from)?;
            one_file(alloc, &copy.to, blob)
        }
        PipKind::Write(write) => {
            let blob = Blob::new(alloc, write.text.bytes().to_vec(alloc)?)?;
            one_file(alloc, &write.to, blob)
        }
        PipKind::Process(_) | PipKind::Seal(_) => no_files(alloc),
    }
}

// What the pip with a number makes.
fn plain_among(
    alloc: Global,
    pips: &[Pip],
    sources: &Sources,
    inputs: &Inputs,
    pip: u32,
) -> Result<Made, Memory>
    ensures { IfOk result (λ made. made ≡ plain_at pips.now sources.now inputs.now pip) }
{
    match pips.get(pip as usize) {
        Some(pip) => plain_of_kind(alloc, sources, inputs, &pip.kind),
        None => no_files(alloc),
    }
}

/// What a copy, write or seal pip makes. A copy shares the bytes of the file that it copies.
pub fn plain(
    alloc: Global,
    plan: &Plan,
    sources: &Sources,
    pip: u32,
    inputs: &Inputs,
) -> Result<Made, Memory>
    ensures { IfOk result (λ made. made ≡ plain_at plan.now.pips sources.now inputs.now pip) }
{
    plain_among(alloc, plan.pips(), sources, inputs, pip)
}

// The process that a pip of this kind is, if it is one.
fn process_of(kind: &PipKind) -> Option<&ProcessDesc>
    ensures { option_copied result ≡ kind_process kind.entry.now }
{
    match kind {
        PipKind::Process(process) => Some(process),
        PipKind::Copy(_) | PipKind::Write(_) | PipKind::Seal(_) => None,
    }
}

/// The process with a number, if the pip is one.
pub fn process_at(pips: &[Pip], pip: u32) -> Option<&ProcessDesc>
    ensures { option_copied result ≡ process_in (slice_get pips.entry.now pip) }
{
    match pips.get(pip as usize) {
        Some(pip) => process_of(&pip.kind),
        None => None,
    }
}

// The process with a number, with the contents of its files.
fn desc_among(
    alloc: Global,
    pips: &[Pip],
    sources: &Sources,
    inputs: &Inputs,
    budget: u64,
    pip: u32,
) -> Result<Desc, Memory>
    requires { IsSome (process_in (slice_get pips.now pip)) }
    ensures { IfOk result (λ desc. IsSomeAnd (process_in (slice_get pips.now pip))
        (λ (process : AnyProcess). desc ≡ desc_of sources.now inputs.now budget process)) }
{
    match process_at(pips, pip) {
        Some(process) => desc_of_process(alloc, sources, inputs, process, budget),
        None => unreachable!(),
    }
}

/// A process with the contents of its executable and of its declared files.
pub fn desc(
    alloc: Global,
    plan: &Plan,
    sources: &Sources,
    pip: u32,
    inputs: &Inputs,
) -> Result<Desc, Memory>
    requires { IsSome (process_in (slice_get plan.now.pips pip)) }
    ensures { IfOk result (λ desc. IsSomeAnd (process_in (slice_get plan.now.pips pip))
        (λ (process : AnyProcess). desc
        ≡ desc_of sources.now inputs.now plan.now.tool_budget process)) }
{
    let budget = plan.tool_budget();
    desc_among(alloc, plan.pips(), sources, inputs, budget, pip)
}
