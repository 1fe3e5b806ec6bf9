//! The nodes of a graph.
ghost use Rattle.std.specs.Prelude.{◌≡◌, ◌++◌, OnOk};
ghost use Rattle.std.specs.List.{flat_map};
ghost use Rattle.pip_graph.specs.GraphText as texts;
ghost use Rattle.pip_model_types.specs.declared.outputs.OutDir.{OutDir as AnyDir};

use crate::ended::Ended;
use bx_tree::{Memory, Path};
use pip_model::{OutDir, PipKind};
use std::alloc::Global;

/// The word for a kind of pip.
pub fn kind_word(kind: &PipKind) -> &'static str
    ensures { result.now ≡ texts.kind_word kind.now }
{
    match kind {
        PipKind::Process(_) => "process",
        PipKind::Copy(_) => "copy",
        PipKind::Write(_) => "write",
        PipKind::Seal(_) => "seal",
    }
}

// Adds a file to a label.
fn add_file(text: &mut Vec<u8>, path: &Path) -> Result<(), Memory>
    ensures { OnOk result (text.new.items ≡ text.old.items ++ texts.file_line path.now) }
{
    text.extend_from_slice(b"\\n")?;
    text.extend_from_slice(path.text().as_bytes())
}

// Adds a directory to a label.
fn add_dir(text: &mut Vec<u8>, path: &Path) -> Result<(), Memory>
    ensures { OnOk result (text.new.items ≡ text.old.items ++ texts.dir_line path.now) }
{
    text.extend_from_slice(b"\\n")?;
    text.extend_from_slice(path.text().as_bytes())?;
    text.push(b'/')?;
    Ok(())
}

fn add_files(text: &mut Vec<u8>, paths: &[Path]) -> Result<(), Memory>
    ensures { OnOk result (text.new.items ≡ text.old.items ++ flat_map texts.file_line paths.now) }
{
    'paths: for path in paths {
        add_file(text, path)?;
    }
    Ok(())
}

fn add_console(text: &mut Vec<u8>, console: &Option<Path>) -> Result<(), Memory>
    ensures { OnOk result (text.new.items ≡ text.old.items ++ texts.console_line console.now) }
{
    match console {
        Some(path) => add_file(text, path),
        None => Ok(()),
    }
}

fn add_dirs(text: &mut Vec<u8>, dirs: &[OutDir]) -> Result<(), Memory>
    ensures { OnOk result (text.new.items
        ≡ text.old.items ++ flat_map (λ (dir : AnyDir). texts.dir_line dir.path) dirs.now) }
{
    'dirs: for dir in dirs {
        add_dir(text, &dir.path)?;
    }
    Ok(())
}

// Adds the outputs of a pip to its label.
fn add_outputs(text: &mut Vec<u8>, kind: &PipKind) -> Result<(), Memory>
    ensures { OnOk result (text.new.items ≡ text.old.items ++ texts.output_lines kind.now) }
{
    match kind {
        PipKind::Process(process) => {
            add_files(text, process.outs.paths())?;
            add_console(text, &process.console)?;
            add_dirs(text, process.outdirs.dirs())
        }
        PipKind::Copy(copy) => add_file(text, &copy.to),
        PipKind::Write(write) => add_file(text, &write.to),
        PipKind::Seal(seal) => add_dir(text, &seal.root),
    }
}

fn colour(ended: Ended) -> &'static str
    ensures { result.now ≡ texts.colour ended }
{
    match ended {
        Ended::Succeeded => "#c8e6c9",
        Ended::Failed => "#ffcdd2",
        Ended::Skipped => "#e0e0e0",
    }
}

fn add_fill(alloc: Global, text: &mut Vec<u8>, ended: Option<Ended>) -> Result<(), Memory>
    ensures { OnOk result (text.new.items ≡ text.old.items ++ texts.fill_text ended) }
{
    let Some(ended) = ended else {
        return Ok(());
    };
    let word = colour(ended);
    let added = format!(in alloc; ", fillcolor = \"{word}\"")?;
    text.extend_from_slice(added.as_bytes())
}

// Adds the node of a pip, up to the end of its label.
fn add_label(alloc: Global, text: &mut Vec<u8>, number: usize, kind: &PipKind) -> Result<(), Memory>
    ensures { OnOk result (text.new.items ≡ text.old.items ++ texts.label_text number kind.now) }
{
    let word = kind_word(kind);
    let start = format!(in alloc; "  p{number} [label = \"{number} {word}")?;
    text.extend_from_slice(start.as_bytes())?;
    add_outputs(text, kind)?;
    text.push(b'"')?;
    Ok(())
}

// Adds the node of a pip.
pub(crate) fn add_node(
    alloc: Global,
    text: &mut Vec<u8>,
    number: usize,
    kind: &PipKind,
    ended: Option<Ended>,
) -> Result<(), Memory>
    ensures { OnOk result (text.new.items ≡ text.old.items ++ texts.node_line number kind.now ended) }
{
    add_label(alloc, text, number, kind)?;
    add_fill(alloc, text, ended)?;
    text.extend_from_slice(b"];\n")
}
