//! Shared descriptions of processes: paths and texts are shared, and the lists of them are copied.
ghost use Rattle.std.specs.Prelude.{◌≡◌, IfOk};

use bx_tree::{FileInput, Memory, Path, Text};
use pip_model::{
    Arguments, DirInput, DirInputs, EnvPair, FileInputs, OutDir, OutDirs, Outputs, ProcessDesc,
    Variables,
};
use std::alloc::Global;

fn share_texts(alloc: Global, texts: &[Text]) -> Result<Vec<Text>, Memory>
    ensures { IfOk result (λ shared. shared.items ≡ texts.now) }
{
    let mut shared = Vec::new(alloc);
    'texts: for text in texts {
        shared.push(text.share()?)?;
    }
    Ok(shared)
}

fn share_arguments(alloc: Global, args: &Arguments) -> Result<Arguments, Memory>
    ensures { IfOk result (λ shared. shared ≡ args.now) }
{
    Ok(Arguments::of(share_texts(alloc, args.texts())?))
}

fn share_pair(pair: &EnvPair) -> Result<EnvPair, Memory>
    ensures { IfOk result (λ shared. shared ≡ pair.now) }
{
    Ok(EnvPair {
        name: pair.name.share()?,
        value: pair.value.share()?,
    })
}

fn share_pairs(alloc: Global, pairs: &[EnvPair]) -> Result<Vec<EnvPair>, Memory>
    ensures { IfOk result (λ shared. shared.items ≡ pairs.now) }
{
    let mut shared = Vec::new(alloc);
    'pairs: for pair in pairs {
        shared.push(share_pair(pair)?)?;
    }
    Ok(shared)
}

fn share_variables(alloc: Global, env: &Variables) -> Result<Variables, Memory>
    ensures { IfOk result (λ shared. shared ≡ env.now) }
{
    let pairs = env.pairs();
    let shared = share_pairs(alloc, pairs)?;
    Ok(Variables::in_order(shared))
}

// A file that a pip takes, shared.
fn share_file(file: &FileInput) -> Result<FileInput, Memory>
    ensures { IfOk result (λ shared. shared ≡ file.now) }
{
    match file {
        FileInput::Source(path) => Ok(FileInput::Source(path.share()?)),
        FileInput::Made(path, pip) => Ok(FileInput::Made(path.share()?, *pip)),
    }
}

fn share_file_list(alloc: Global, files: &[FileInput]) -> Result<Vec<FileInput>, Memory>
    ensures { IfOk result (λ shared. shared.items ≡ files.now) }
{
    let mut shared = Vec::new(alloc);
    'files: for file in files {
        shared.push(share_file(file)?)?;
    }
    Ok(shared)
}

fn share_files(alloc: Global, files: &FileInputs) -> Result<FileInputs, Memory>
    ensures { IfOk result (λ shared. shared ≡ files.now) }
{
    let list = files.files();
    let shared = share_file_list(alloc, list)?;
    Ok(FileInputs::of(shared))
}

fn share_dir_list(alloc: Global, dirs: &[DirInput]) -> Result<Vec<DirInput>, Memory>
    ensures { IfOk result (λ shared. shared.items ≡ dirs.now) }
{
    let mut shared = Vec::new(alloc);
    'dirs: for dir in dirs {
        shared.push(dir.share()?)?;
    }
    Ok(shared)
}

fn share_dirs(alloc: Global, dirs: &DirInputs) -> Result<DirInputs, Memory>
    ensures { IfOk result (λ shared. shared ≡ dirs.now) }
{
    let list = dirs.dirs();
    let shared = share_dir_list(alloc, list)?;
    Ok(DirInputs::of(shared))
}

fn share_paths(alloc: Global, paths: &[Path]) -> Result<Vec<Path>, Memory>
    ensures { IfOk result (λ shared. shared.items ≡ paths.now) }
{
    let mut shared = Vec::new(alloc);
    'paths: for path in paths {
        shared.push(path.share()?)?;
    }
    Ok(shared)
}

fn share_outputs(alloc: Global, outs: &Outputs) -> Result<Outputs, Memory>
    ensures { IfOk result (λ shared. shared ≡ outs.now) }
{
    let list = outs.paths();
    let shared = share_paths(alloc, list)?;
    Ok(Outputs::of(shared))
}

fn share_outdir_list(alloc: Global, dirs: &[OutDir]) -> Result<Vec<OutDir>, Memory>
    ensures { IfOk result (λ shared. shared.items ≡ dirs.now) }
{
    let mut shared = Vec::new(alloc);
    'dirs: for dir in dirs {
        shared.push(dir.share()?)?;
    }
    Ok(shared)
}

fn share_outdirs(alloc: Global, dirs: &OutDirs) -> Result<OutDirs, Memory>
    ensures { IfOk result (λ shared. shared ≡ dirs.now) }
{
    let list = dirs.dirs();
    let shared = share_outdir_list(alloc, list)?;
    Ok(OutDirs::of(shared))
}

fn share_console(console: &Option<Path>) -> Result<Option<Path>, Memory>
    ensures { IfOk result (λ shared. shared ≡ console.now) }
{
    match console {
        Some(path) => Ok(Some(path.share()?)),
        None => Ok(None),
    }
}

// The description of a process, shared.
pub(crate) fn share_process(alloc: Global, process: &ProcessDesc) -> Result<ProcessDesc, Memory>
    ensures { IfOk result (λ shared. shared ≡ process.now) }
{
    Ok(ProcessDesc {
        exe: process.exe.share()?,
        args: share_arguments(alloc, &process.args)?,
        env: share_variables(alloc, &process.env)?,
        dir: process.dir.share()?,
        files: share_files(alloc, &process.files)?,
        dirs: share_dirs(alloc, &process.dirs)?,
        outs: share_outputs(alloc, &process.outs)?,
        outdirs: share_outdirs(alloc, &process.outdirs)?,
        console: share_console(&process.console)?,
    })
}
