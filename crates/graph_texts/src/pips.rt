//! The lines of all pips of a build.
ghost use Rattle.std.specs.Prelude.{◌≡◌, ◌++◌, OnOk};
ghost use Rattle.std.specs.List.{AllByRecursion};
ghost use Rattle.pip_model_types.specs.Dirs.{RiseByForm};
ghost use Rattle.pip_model_types.specs.Kinds.{taken_dirs};
ghost use Rattle.prints.specs.Reading.{Takes, TakesItems};
ghost use Rattle.graph_texts.specs.Linking.{TakesPips};
ghost use Rattle.graph_texts.specs.Pips.{ArePips, pip_row, pips_text, rows_at};
ghost use Rattle.graph_texts.specs.RowForms.{row_form, row_seen, no_row};
ghost use Rattle.graph_texts.specs.Rows.{IsCopy, IsRow, IsWrite, copy_at, copy_row, copy_text, is_row, row_at, row_text};
ghost use Rattle.graph_texts.specs.Rows.{write_at, write_row, write_text};

use crate::inputs::{append_input, has_input, read_input};
use crate::linking::link;
use crate::process_lines::{append_process, has_process, read_process};
use crate::rows::{PipRow, RowKind};
use crate::seal_lines::{append_seal, has_seal, read_seal};
use bx_tree::Path;
use pip_model_types::{CopyDesc, Pip, PipKind, PipList, WriteDesc};
use prints::{Cursor, Line, PrintFault, append_counted, append_lines, append_path, read_lines};
use std::alloc::{AllocError, Global};

fn append_write(
    alloc: Global,
    text: &mut Vec<u8>,
    spec: &Path,
    write: &WriteDesc,
) -> Result<(), AllocError>
    ensures text { OnOk result (text.new.items ≡ text.old.items ++ write_text spec.now write.now) }
    ensures row { OnOk result (IsRow (write_row spec.now write.now)) }
{
    text.extend_from_slice(b"write ")?;
    append_path(text, spec, b' ')?;
    append_path(text, &write.to, b' ')?;
    append_counted(alloc, text, write.text.bytes(), b'\n')?;
    Ok(())
}

fn append_copy(
    alloc: Global,
    text: &mut Vec<u8>,
    spec: &Path,
    copy: &CopyDesc,
) -> Result<(), AllocError>
    ensures text { OnOk result (text.new.items ≡ text.old.items ++ copy_text spec.now copy.now) }
    ensures row { OnOk result (IsRow (copy_row spec.now copy.now)) }
{
    text.extend_from_slice(b"copy ")?;
    append_path(text, spec, b' ')?;
    append_path(text, &copy.to, b' ')?;
    append_input(alloc, text, &copy.from, b'\n')?;
    Ok(())
}

// Adds the lines of a pip.
fn append_pip(alloc: Global, text: &mut Vec<u8>, pip: &Pip) -> Result<(), AllocError>
    ensures text { OnOk result (text.new.items ≡ text.old.items ++ row_text (pip_row pip.now)) }
    ensures row { OnOk result (IsRow (pip_row pip.now)) }
{
    match &pip.kind {
        PipKind::Process(process) => append_process(alloc, text, &pip.spec, process),
        PipKind::Copy(copy) => append_copy(alloc, text, &pip.spec, copy),
        PipKind::Write(write) => append_write(alloc, text, &pip.spec, write),
        PipKind::Seal(seal) => append_seal(alloc, text, &pip.spec, seal),
    }
}

// What is known of each write.
fn has_write(write: &WriteDesc)
    ensures { IsWrite write.now }
{
    let _to = write.to.text();
    let _text = write.text.bytes().len();
}

// What is known of each copy.
fn has_copy(copy: &CopyDesc)
    ensures { IsCopy copy.now }
{
    let _to = copy.to.text();
    has_input(&copy.from);
}

// Reads the line of a write, but for its first word.
#[tactic(auto, unfolding(crate::specs::Rows::write_at))]
fn read_write(alloc: Global, cursor: &mut Cursor) -> Result<PipRow, PrintFault>
    ensures { Takes result cursor.new (write_at cursor.old) }
{
    let spec = cursor.path(alloc, b' ')?;
    let to = cursor.path(alloc, b' ')?;
    let text = cursor.counted(alloc, b'\n')?;
    Ok(PipRow {
        spec,
        kind: RowKind::Write(WriteDesc { to, text }),
    })
}

// Reads the line of a copy, but for its first word.
#[tactic(auto, unfolding(crate::specs::Rows::copy_at))]
fn read_copy(alloc: Global, cursor: &mut Cursor) -> Result<PipRow, PrintFault>
    ensures { Takes result cursor.new (copy_at cursor.old) }
{
    let spec = cursor.path(alloc, b' ')?;
    let to = cursor.path(alloc, b' ')?;
    let from = read_input(alloc, cursor, b'\n')?;
    Ok(PipRow {
        spec,
        kind: RowKind::Copy(CopyDesc { from, to }),
    })
}

// Reads the lines of a pip.
#[tactic(auto, using(crate::proofs::Words::passes), unfolding(crate::specs::Rows::row_at))]
fn read_row(alloc: Global, cursor: &mut Cursor) -> Result<PipRow, PrintFault>
    ensures { Takes result cursor.new (row_at cursor.old) }
{
    if cursor.begins(b"process ") {
        cursor.word(b"process ")?;
        return read_process(alloc, cursor);
    }
    if cursor.begins(b"copy ") {
        cursor.word(b"copy ")?;
        return read_copy(alloc, cursor);
    }
    if cursor.begins(b"write ") {
        cursor.word(b"write ")?;
        return read_write(alloc, cursor);
    }
    cursor.word(b"seal ")?;
    read_seal(alloc, cursor)
}

// The lines of one pip, as a kind of line.
pub(crate) struct PipLines;

impl Line<Pip, PipRow> for PipLines {
    ghost says = { pip_row };

    ghost line = { row_text };

    ghost line_at = { row_at };

    ghost starts = { is_row };

    ghost Fits = { IsRow };

    ghost form = { row_form };

    ghost seen = { row_seen };

    ghost none = { no_row };

    fn append(alloc: Global, text: &mut Vec<u8>, value: &Pip) -> Result<(), AllocError> {
        append_pip(alloc, text, value)
    }

    fn has_line(value: &Pip) {
        let _spec = value.spec.text();
        match &value.kind {
            PipKind::Process(process) => has_process(process),
            PipKind::Copy(copy) => has_copy(copy),
            PipKind::Write(write) => has_write(write),
            PipKind::Seal(seal) => has_seal(seal),
        }
    }

    fn is_next(cursor: &Cursor) -> bool {
        cursor.begins(b"process ")
            || cursor.begins(b"copy ")
            || cursor.begins(b"write ")
            || cursor.begins(b"seal ")
    }

    fn read(alloc: Global, cursor: &mut Cursor) -> Result<PipRow, PrintFault> {
        read_row(alloc, cursor)
    }
}

// What is known of the directories that each pip takes: that they are in order.
fn has_order(pip: &Pip)
    ensures { RiseByForm (taken_dirs pip.now.kind) }
{
    match &pip.kind {
        PipKind::Process(process) => {
            let _dirs = process.dirs.dirs();
        }
        PipKind::Copy(_) => (),
        PipKind::Write(_) => (),
        PipKind::Seal(_) => (),
    }
}

fn have_orders(pips: &[Pip])
    ensures { AllByRecursion (λ p. RiseByForm (taken_dirs p.kind)) pips.now }
{
    'pips: for pip in pips {
        has_order(pip);
    }
}

/// Adds the lines of pips.
pub fn append_pips(alloc: Global, text: &mut Vec<u8>, pips: &PipList) -> Result<(), AllocError>
    ensures text { OnOk result (text.new.items ≡ text.old.items ++ pips_text pips.now) }
    ensures pips { OnOk result (ArePips pips.now) }
{
    let list = pips.pips();
    have_orders(list);
    append_lines::<Pip, PipRow, PipLines>(alloc, text, list)?;
    Ok(())
}

// What the lines of pips that come next say.
#[tactic(auto, unfolding(crate::specs::Pips::rows_at))]
fn read_rows(alloc: Global, cursor: &mut Cursor) -> Result<Vec<PipRow>, PrintFault>
    ensures { TakesItems result cursor.new (rows_at cursor.old) }
{
    read_lines::<Pip, PipRow, PipLines>(alloc, cursor)
}

/// The pips whose lines come next.
pub fn read_pips(alloc: Global, cursor: &mut Cursor) -> Result<PipList, PrintFault>
    ensures { TakesPips result cursor.new (rows_at cursor.old) }
{
    let rows = read_rows(alloc, cursor)?;
    link(alloc, rows)
}
