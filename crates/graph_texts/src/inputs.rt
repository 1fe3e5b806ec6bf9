//! Files and directories that pips take, in their lines.
ghost use Rattle.std.specs.Prelude.{◌≡◌, ◌++◌, codes, OnOk};
ghost use Rattle.std.proofs.Common.{refl};
ghost use Rattle.bx_tree.specs.Paths.{IsPath};
ghost use Rattle.prints.specs.Lines.{begins, rises};
ghost use Rattle.prints.specs.Reading.{Takes};
ghost use Rattle.graph_texts.specs.Inputs.{IsInput, IsRef, input_at, input_before, input_part};
ghost use Rattle.graph_texts.specs.Inputs.{made_at, made_part, pip_number_at, ref_at, ref_part};
ghost use Rattle.graph_texts.specs.Pips.{dir_ref};
ghost use Rattle.graph_texts.specs.RowForms.{in_form, indir_form, member_form};
ghost use Rattle.graph_texts.specs.Rows.{in_at, in_line, indir_at, indir_line, member_at, member_line};

use crate::rows::DirRef;
use bx_tree::{FileInput, Path};
use pip_model_types::DirInput;
use prints::{Cursor, Line, PrintFault, append_number, append_path};
use std::alloc::{AllocError, Global};

// Adds the number of a pip and a path.
fn append_made(
    alloc: Global,
    text: &mut Vec<u8>,
    pip: u32,
    path: &Path,
    end: u8,
) -> Result<(), AllocError>
    ensures text { OnOk result (text.new.items ≡ text.old.items ++ made_part end pip path.now) }
    ensures path { OnOk result (IsPath path.now) }
{
    append_number(alloc, text, pip as u64, b' ')?;
    append_path(text, path, end)
}

// Adds a file that a pip takes, and the byte that ends it.
pub(crate) fn append_input(
    alloc: Global,
    text: &mut Vec<u8>,
    file: &FileInput,
    end: u8,
) -> Result<(), AllocError>
    ensures text { OnOk result (text.new.items ≡ text.old.items ++ input_part end file.now) }
    ensures input { OnOk result (IsInput file.now) }
{
    match file {
        FileInput::Source(path) => {
            text.extend_from_slice(b"source ")?;
            append_path(text, path, end)
        }
        FileInput::Made(path, maker) => {
            text.extend_from_slice(b"made ")?;
            append_made(alloc, text, *maker, path, end)
        }
    }
}

// What is known of each file that a pip takes.
pub(crate) fn has_input(file: &FileInput)
    ensures { IsInput file.now }
{
    match file {
        FileInput::Source(path) => {
            let _path = path.text();
        }
        FileInput::Made(path, maker) => {
            let _path = path.text();
            let _maker = *maker;
        }
    }
}

// Adds a directory that a process takes.
fn append_dir(alloc: Global, text: &mut Vec<u8>, dir: &DirInput) -> Result<(), AllocError>
    ensures text { OnOk result (text.new.items ≡ text.old.items ++ ref_part (dir_ref dir.now)) }
    ensures dir { OnOk result (IsRef (dir_ref dir.now)) }
{
    match dir {
        DirInput::Sealed(pip, _, _) => {
            text.extend_from_slice(b"sealed ")?;
            append_number(alloc, text, *pip as u64, b'\n')
        }
        DirInput::Opaque(pip, path) => {
            text.extend_from_slice(b"opaque ")?;
            append_made(alloc, text, *pip, path, b'\n')
        }
    }
}

// Reads the number of a pip, and the byte that ends it.
fn read_pip_number(cursor: &mut Cursor, end: u8) -> Result<u32, PrintFault>
    ensures { Takes result cursor.new (pip_number_at end cursor.old) }
{
    let number = cursor.number(end)?;
    match u32::try_from(number) {
        Ok(pip) => Ok(pip),
        Err(_) => Err(PrintFault::BadPrint),
    }
}

fn read_made(alloc: Global, cursor: &mut Cursor, end: u8) -> Result<(u32, Path), PrintFault>
    ensures { Takes result cursor.new (made_at end cursor.old) }
{
    let pip = read_pip_number(cursor, b' ')?;
    let path = cursor.path(alloc, end)?;
    Ok((pip, path))
}

// Reads a file that a pip takes, and the byte that ends it.
#[tactic(auto, using(crate::proofs::Words::passes), unfolding(crate::specs::Inputs::input_at))]
pub(crate) fn read_input(
    alloc: Global,
    cursor: &mut Cursor,
    end: u8,
) -> Result<FileInput, PrintFault>
    ensures { Takes result cursor.new (input_at end cursor.old) }
{
    if cursor.begins(b"source ") {
        cursor.word(b"source ")?;
        return Ok(FileInput::Source(cursor.path(alloc, end)?));
    }
    cursor.word(b"made ")?;
    let (maker, path) = read_made(alloc, cursor, end)?;
    Ok(FileInput::Made(path, maker))
}

// Reads a directory that a process takes.
#[tactic(auto, using(crate::proofs::Words::passes), unfolding(crate::specs::Inputs::ref_at))]
fn read_ref(alloc: Global, cursor: &mut Cursor) -> Result<DirRef, PrintFault>
    ensures { Takes result cursor.new (ref_at cursor.old) }
{
    if cursor.begins(b"sealed ") {
        cursor.word(b"sealed ")?;
        return Ok(DirRef::OfSeal(read_pip_number(cursor, b'\n')?));
    }
    cursor.word(b"opaque ")?;
    let (pip, path) = read_made(alloc, cursor, b'\n')?;
    Ok(DirRef::OfProcess(pip, path))
}

// Whether the path of a file comes before that of another.
fn is_before(a: &FileInput, b: &FileInput) -> bool
    ensures { result ≡ input_before a.now b.now }
{
    a.path() < b.path()
}

// Whether files rise by path.
pub(crate) fn are_inputs_rising(files: &[FileInput]) -> bool
    ensures { result ≡ rises input_before files.now }
{
    files.is_sorted_by(|a, b| is_before(a, b))
}

// The kind of line that says a declared file.
pub(crate) struct InKind;

impl Line<FileInput, FileInput> for InKind {
    ghost says = { λ f. f };

    ghost line = { in_line };

    ghost line_at = { in_at };

    ghost starts = { begins (codes "in ") };

    ghost Fits = { IsInput };

    ghost form = { in_form };

    ghost seen = { λ _ _. refl };

    ghost none = { refl };

    fn append(alloc: Global, text: &mut Vec<u8>, value: &FileInput) -> Result<(), AllocError> {
        text.extend_from_slice(b"in ")?;
        append_input(alloc, text, value, b'\n')
    }

    fn has_line(value: &FileInput) {
        has_input(value);
    }

    fn is_next(cursor: &Cursor) -> bool {
        cursor.begins(b"in ")
    }

    fn read(alloc: Global, cursor: &mut Cursor) -> Result<FileInput, PrintFault> {
        cursor.word(b"in ")?;
        read_input(alloc, cursor, b'\n')
    }
}

// The kind of line that says an input directory.
pub(crate) struct IndirKind;

impl Line<DirInput, DirRef> for IndirKind {
    ghost says = { dir_ref };

    ghost line = { indir_line };

    ghost line_at = { indir_at };

    ghost starts = { begins (codes "indir ") };

    ghost Fits = { IsRef };

    ghost form = { indir_form };

    ghost seen = { λ _ _. refl };

    ghost none = { refl };

    fn append(alloc: Global, text: &mut Vec<u8>, value: &DirInput) -> Result<(), AllocError> {
        text.extend_from_slice(b"indir ")?;
        append_dir(alloc, text, value)
    }

    fn has_line(value: &DirInput) {
        match value {
            DirInput::Sealed(pip, _, _) => {
                let _pip = *pip;
            }
            DirInput::Opaque(pip, path) => {
                let _pip = *pip;
                let _path = path.text();
            }
        }
    }

    fn is_next(cursor: &Cursor) -> bool {
        cursor.begins(b"indir ")
    }

    fn read(alloc: Global, cursor: &mut Cursor) -> Result<DirRef, PrintFault> {
        cursor.word(b"indir ")?;
        read_ref(alloc, cursor)
    }
}

// The kind of line that says a file which a seal lists.
pub(crate) struct MemberKind;

impl Line<FileInput, FileInput> for MemberKind {
    ghost says = { λ f. f };

    ghost line = { member_line };

    ghost line_at = { member_at };

    ghost starts = { begins (codes "member ") };

    ghost Fits = { IsInput };

    ghost form = { member_form };

    ghost seen = { λ _ _. refl };

    ghost none = { refl };

    fn append(alloc: Global, text: &mut Vec<u8>, value: &FileInput) -> Result<(), AllocError> {
        text.extend_from_slice(b"member ")?;
        append_input(alloc, text, value, b'\n')
    }

    fn has_line(value: &FileInput) {
        has_input(value);
    }

    fn is_next(cursor: &Cursor) -> bool {
        cursor.begins(b"member ")
    }

    fn read(alloc: Global, cursor: &mut Cursor) -> Result<FileInput, PrintFault> {
        cursor.word(b"member ")?;
        read_input(alloc, cursor, b'\n')
    }
}
