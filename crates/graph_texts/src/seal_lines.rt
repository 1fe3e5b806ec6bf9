//! The lines of seals.
ghost use Rattle.std.specs.Prelude.{◌≡◌, ◌++◌, true, OnOk};
ghost use Rattle.std.specs.List.{AllByRecursion, flat_map};
ghost use Rattle.prints.specs.Lines.{rises};
ghost use Rattle.prints.specs.Reading.{Takes, TakesWord};
ghost use Rattle.observed.specs.Texts.{after_prefix};
ghost use Rattle.graph_texts.specs.Inputs.{IsInput, input_before};
ghost use Rattle.graph_texts.specs.Rows.{IsRow, done_line, member_line, members_at, seal_at, seal_form_at};
ghost use Rattle.graph_texts.specs.Rows.{IsSeal, seal_row, seal_text};

use crate::inputs::{MemberKind, are_inputs_rising};
use crate::rows::{PipRow, RowKind};
use bx_tree::{FileInput, Path};
use pip_model_types::{FileInputs, SealDesc, SealForm};
use prints::{
    Cursor, PrintFault, append_lines, append_path, form_of, have_lines, read_lines, word_of,
};
use std::alloc::{AllocError, Global};

// Adds the lines of the files that a seal lists.
fn append_members(alloc: Global, text: &mut Vec<u8>, files: &FileInputs) -> Result<(), AllocError>
    ensures text { OnOk result (text.new.items ≡ text.old.items ++ flat_map member_line files.now) }
    ensures files { OnOk result (AllByRecursion IsInput files.now) }
    ensures order { OnOk result (rises input_before files.now ≡ true) }
{
    let list = files.files();
    append_lines::<FileInput, FileInput, MemberKind>(alloc, text, list)?;
    Ok(())
}

// What is known of the files that a seal lists.
fn has_members(files: &FileInputs)
    ensures files { AllByRecursion IsInput files.now }
    ensures order { rises input_before files.now ≡ true }
{
    let list = files.files();
    have_lines::<FileInput, FileInput, MemberKind>(list);
}

// Adds the lines of a seal.
pub(crate) fn append_seal(
    alloc: Global,
    text: &mut Vec<u8>,
    spec: &Path,
    seal: &SealDesc,
) -> Result<(), AllocError>
    ensures text { OnOk result (text.new.items ≡ text.old.items ++ seal_text spec.now seal.now) }
    ensures row { OnOk result (IsRow (seal_row spec.now seal.now)) }
{
    text.extend_from_slice(b"seal ")?;
    append_path(text, spec, b' ')?;
    text.extend_from_slice(word_of(Some(seal.form)).as_bytes())?;
    text.push(b' ')?;
    append_path(text, &seal.root, b'\n')?;
    append_members(alloc, text, &seal.files)?;
    text.extend_from_slice(b"done\n")?;
    Ok(())
}

// What is known of each seal.
pub(crate) fn has_seal(seal: &SealDesc)
    ensures { IsSeal seal.now }
{
    let _root = seal.root.text();
    has_members(&seal.files);
}

// Reads the end of lists.
pub(crate) fn read_done(cursor: &mut Cursor) -> Result<(), PrintFault>
    ensures { TakesWord result cursor.new (after_prefix done_line cursor.old) }
{
    cursor.word(b"done\n")
}

fn read_form(cursor: &mut Cursor) -> Result<SealForm, PrintFault>
    ensures { Takes result cursor.new (seal_form_at cursor.old) }
{
    let word = cursor.part(b' ')?;
    match form_of(word)? {
        Some(form) => Ok(form),
        None => Err(PrintFault::BadPrint),
    }
}

// Files that rise by path already, as they are.
pub(crate) fn rising_inputs(files: Vec<FileInput>) -> FileInputs
    requires { rises input_before files.items ≡ true }
    ensures { result ≡ files.items }
{
    FileInputs::of(files)
}

#[tactic(auto, unfolding(crate::specs::Rows::members_at))]
fn read_members(alloc: Global, cursor: &mut Cursor) -> Result<FileInputs, PrintFault>
    ensures { Takes result cursor.new (members_at cursor.old) }
{
    let files = read_lines::<FileInput, FileInput, MemberKind>(alloc, cursor)?;
    if !are_inputs_rising(files.as_slice()) {
        return Err(PrintFault::BadPrint);
    }
    Ok(rising_inputs(files))
}

// Reads the lines of a seal, but for their first word.
#[tactic(auto, unfolding(crate::specs::Rows::seal_at))]
pub(crate) fn read_seal(alloc: Global, cursor: &mut Cursor) -> Result<PipRow, PrintFault>
    ensures { Takes result cursor.new (seal_at cursor.old) }
{
    let spec = cursor.path(alloc, b' ')?;
    let form = read_form(cursor)?;
    let root = cursor.path(alloc, b'\n')?;
    let files = read_members(alloc, cursor)?;
    read_done(cursor)?;
    Ok(PipRow {
        spec,
        kind: RowKind::Seal(SealDesc { form, root, files }),
    })
}
