//! The source files that pips name, as vectors of paths.
ghost use Rattle.std.specs.Prelude.{◌≡◌, ◌++◌, OnOk};
ghost use Rattle.graph_check.specs.NoSuchSource.{if_source, named_sources, sources_among};

use bx_tree::{FileInput, Path};
use graph_check_outputs::add_path;
use pip_model::PipKind;
use std::alloc::AllocError;

// Adds the path of a file, if it is a source file.
fn add_source(paths: &mut Vec<Path>, file: &FileInput) -> Result<(), AllocError>
    ensures { OnOk result (paths.new.items ≡ paths.old.items ++ if_source file.now) }
{
    match file {
        FileInput::Source(path) => add_path(paths, path),
        FileInput::Made(_, _) => Ok(()),
    }
}

fn add_sources(paths: &mut Vec<Path>, files: &[FileInput]) -> Result<(), AllocError>
    ensures { OnOk result (paths.new.items ≡ paths.old.items ++ sources_among files.now) }
{
    'files: for file in files {
        add_source(paths, file)?;
    }
    Ok(())
}

// Adds the source files that a pip names.
pub(crate) fn add_named_sources(paths: &mut Vec<Path>, kind: &PipKind) -> Result<(), AllocError>
    ensures { OnOk result (paths.new.items ≡ paths.old.items ++ named_sources kind.now) }
{
    match kind {
        PipKind::Process(process) => {
            add_path(paths, &process.exe)?;
            add_sources(paths, process.files.files())
        }
        PipKind::Copy(copy) => add_source(paths, &copy.from),
        PipKind::Write(_) => Ok(()),
        PipKind::Seal(seal) => add_sources(paths, seal.listed()),
    }
}
