//! The lines of processes.
ghost use Rattle.std.specs.Prelude.{◌≡◌, ◌++◌, codes, IfSome, OnOk};
ghost use Rattle.std.specs.Option.{option_copied};
ghost use Rattle.bx_tree.specs.Paths.{IsPath};
ghost use Rattle.prints.specs.Parts.{path_at, path_part};
ghost use Rattle.prints.specs.Reading.{Takes};
ghost use Rattle.graph_texts.specs.Either.{maybe_at, maybe_written};
ghost use Rattle.graph_texts.specs.Pips.{process_row};
ghost use Rattle.graph_texts.specs.Rows.{AreLists, IsProcessRow, IsRow, indirs_at, ins_at, lists_text, process_at};
ghost use Rattle.graph_texts.specs.Rows.{process_text, whole_row};

use crate::inputs::{InKind, IndirKind, are_inputs_rising};
use crate::rows::{DirRef, DirRefs, PipRow, ProcessRow, RowKind};
use crate::seal_lines::{read_done, rising_inputs};
use bx_tree::{FileInput, Path, Text};
use pip_model_types::{DirInput, EnvPair, FileInputs, OutDir, ProcessDesc};
use prints::{
    ArgKind, Cursor, EnvKind, OutKind, OutdirKind, PrintFault, append_lines, append_path,
    have_lines, read_args, read_lines, read_outdirs, read_outs, read_variables,
};
use std::alloc::{AllocError, Global};

// Adds the line of the console file, if there is one.
fn append_console(text: &mut Vec<u8>, console: Option<&Path>) -> Result<(), AllocError>
    ensures text { OnOk result (text.new.items ≡ text.old.items
        ++ maybe_written (codes "console ") (path_part 10) (option_copied console.entry)) }
    ensures path { OnOk result (IfSome (option_copied console.entry) IsPath) }
{
    match console {
        Some(path) => {
            text.extend_from_slice(b"console ")?;
            append_path(text, path, b'\n')
        }
        None => Ok(()),
    }
}

// Adds the lines of the lists of a process.
fn append_lists(alloc: Global, text: &mut Vec<u8>, process: &ProcessDesc) -> Result<(), AllocError>
    ensures text { OnOk result (text.new.items ≡ text.old.items ++ lists_text (process_row process.now)) }
    ensures lists { OnOk result (AreLists (process_row process.now)) }
{
    append_lines::<Text, Text, ArgKind>(alloc, text, process.args.texts())?;
    append_lines::<EnvPair, EnvPair, EnvKind>(alloc, text, process.env.pairs())?;
    append_lines::<FileInput, FileInput, InKind>(alloc, text, process.files.files())?;
    append_lines::<DirInput, DirRef, IndirKind>(alloc, text, process.dirs.dirs())?;
    append_lines::<Path, Path, OutKind>(alloc, text, process.outs.paths())?;
    append_lines::<OutDir, OutDir, OutdirKind>(alloc, text, process.outdirs.dirs())?;
    text.extend_from_slice(b"done\n")?;
    Ok(())
}

// Adds the lines of a process.
pub(crate) fn append_process(
    alloc: Global,
    text: &mut Vec<u8>,
    spec: &Path,
    process: &ProcessDesc,
) -> Result<(), AllocError>
    ensures text { OnOk result
        (text.new.items ≡ text.old.items ++ process_text spec.now (process_row process.now)) }
    ensures row { OnOk result (IsRow (whole_row spec.now (process_row process.now))) }
{
    text.extend_from_slice(b"process ")?;
    append_path(text, spec, b' ')?;
    append_path(text, &process.exe, b' ')?;
    append_path(text, &process.dir, b'\n')?;
    append_console(text, process.console.as_ref())?;
    append_lists(alloc, text, process)?;
    Ok(())
}

// What is known of each console file.
fn has_console(console: Option<&Path>)
    ensures { IfSome (option_copied console.entry) IsPath }
{
    match console {
        Some(path) => {
            let _path = path.text();
        }
        None => (),
    }
}

// What is known of the lists of each process.
fn has_lists(process: &ProcessDesc)
    ensures { AreLists (process_row process.now) }
{
    have_lines::<Text, Text, ArgKind>(process.args.texts());
    have_lines::<EnvPair, EnvPair, EnvKind>(process.env.pairs());
    have_lines::<FileInput, FileInput, InKind>(process.files.files());
    have_lines::<DirInput, DirRef, IndirKind>(process.dirs.dirs());
    have_lines::<Path, Path, OutKind>(process.outs.paths());
    have_lines::<OutDir, OutDir, OutdirKind>(process.outdirs.dirs());
}

// What is known of each process.
pub(crate) fn has_process(process: &ProcessDesc)
    ensures { IsProcessRow (process_row process.now) }
{
    let _exe = process.exe.text();
    let _dir = process.dir.text();
    has_console(process.console.as_ref());
    has_lists(process);
}

// The console file, if its line comes next.
#[tactic(auto, using(crate::proofs::Words::passes))]
fn read_console(alloc: Global, cursor: &mut Cursor) -> Result<Option<Path>, PrintFault>
    ensures { Takes result cursor.new (maybe_at (codes "console ") (path_at 10) cursor.old) }
{
    if !cursor.begins(b"console ") {
        return Ok(None);
    }
    cursor.word(b"console ")?;
    Ok(Some(cursor.path(alloc, b'\n')?))
}

// The declared files, which rise by path.
#[tactic(auto, unfolding(crate::specs::Rows::ins_at))]
fn read_files(alloc: Global, cursor: &mut Cursor) -> Result<FileInputs, PrintFault>
    ensures { Takes result cursor.new (ins_at cursor.old) }
{
    let files = read_lines::<FileInput, FileInput, InKind>(alloc, cursor)?;
    if !are_inputs_rising(files.as_slice()) {
        return Err(PrintFault::BadPrint);
    }
    Ok(rising_inputs(files))
}

#[tactic(auto, unfolding(crate::specs::Rows::indirs_at))]
fn read_dirs(alloc: Global, cursor: &mut Cursor) -> Result<DirRefs, PrintFault>
    ensures { Takes result cursor.new (indirs_at cursor.old) }
{
    let refs = read_lines::<DirInput, DirRef, IndirKind>(alloc, cursor)?;
    Ok(DirRefs::of(refs))
}

// Reads the lines of a process, but for their first word.
#[tactic(auto, unfolding(crate::specs::Rows::process_at, crate::specs::Rows::lists_at))]
pub(crate) fn read_process(alloc: Global, cursor: &mut Cursor) -> Result<PipRow, PrintFault>
    ensures { Takes result cursor.new (process_at cursor.old) }
{
    let spec = cursor.path(alloc, b' ')?;
    let exe = cursor.path(alloc, b' ')?;
    let dir = cursor.path(alloc, b'\n')?;
    let console = read_console(alloc, cursor)?;
    let args = read_args(alloc, cursor)?;
    let env = read_variables(alloc, cursor)?;
    let files = read_files(alloc, cursor)?;
    let dirs = read_dirs(alloc, cursor)?;
    let outs = read_outs(alloc, cursor)?;
    let outdirs = read_outdirs(alloc, cursor)?;
    read_done(cursor)?;
    let row = ProcessRow {
        exe,
        dir,
        console,
        args,
        env,
        files,
        dirs,
        outs,
        outdirs,
    };
    Ok(PipRow {
        spec,
        kind: RowKind::Process(row),
    })
}
