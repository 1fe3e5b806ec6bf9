//! The bundle that a build writes.

ghost use Rattle.std.specs.Prelude.{◌≡◌, [], ◌∷◌, ◌++◌, IfOk, OnOk};
ghost use Rattle.std.specs.List.{AllByRecursion};
ghost use Rattle.bx_tree.specs.Bundle.{bundle, file_text};
ghost use Rattle.bx_tree.specs.Paths.{IsPath};
ghost use Rattle.bx_tree.specs.Trees.{paths_of};
ghost use Rattle.pip_model_types.specs.Made.{made_files};
ghost use Rattle.bx_engine.specs.Ending.{report_path as path_of_report};

use bx_tree::{Memory, Path, PathFault, append_file};
use pip_model::MadeFile;
use std::alloc::{AllocError, Global};

fn report_path(alloc: Global) -> Result<Path, Memory>
    ensures { IfOk result (λ path. path ≡ path_of_report) }
{
    match Path::read(alloc, b"report.txt") {
        Ok(path) => Ok(path),
        Err(PathFault::BadPath) => unreachable!(),
        Err(PathFault::Memory) => Err(AllocError),
    }
}

fn append_made(alloc: Global, text: &mut Vec<u8>, file: &MadeFile) -> Result<(), Memory>
    ensures text { OnOk result (text.new.items
        ≡ text.old.items ++ file_text (file.now.path, file.now.blob)) }
    ensures path { IsPath file.now.path }
{
    // Contracts learn from the text of a path that it is one.
    let _ = file.path.text();
    append_file(alloc, text, &file.path, file.blob.bytes())
}

/// The bundle of these files and of a report. The bytes of each file are copied into it once.
pub(crate) fn output(alloc: Global, made: &[MadeFile], report: &[u8]) -> Result<Vec<u8>, Memory>
    ensures text { IfOk result (λ text.
        text.items ≡ bundle (made_files made.now ++ (path_of_report, report.now) ∷ [])) }
    ensures paths { OnOk result (AllByRecursion IsPath (paths_of (made_files made.now))) }
{
    let path = report_path(alloc)?;
    let mut text = Vec::from_slice(alloc, b"bundle 1\n")?;
    'files: for file in made {
        append_made(alloc, &mut text, file)?;
    }
    append_file(alloc, &mut text, &path, report)?;
    text.extend_from_slice(b"end\n")?;
    Ok(text)
}
