//! The lines of a weak text that are there for each item of a list.
ghost use Rattle.std.specs.Prelude.{◌≡◌, ◌++◌, codes, OnOk};
ghost use Rattle.std.proofs.Common.{refl};
ghost use Rattle.bx_tree.specs.Paths.{IsPath};
ghost use Rattle.prints.specs.Lines.{begins};
ghost use Rattle.prints.specs.Reading.{Gives, Takes};
ghost use Rattle.prints.specs.Processes.{IsCountable, IsDirLine, IsFileLine, IsOutDir, IsVariable};
ghost use Rattle.prints.specs.ReadWeak.{arg_at, env_at, form_at, in_at, indir_at, named_form, named_sharing};
ghost use Rattle.prints.specs.ReadWeak.{out_at, outdir_at, sharing_at};
ghost use Rattle.prints.specs.Weak.{arg_line, dir_line, dir_with, env_line, form_word, in_line, indir_line};
ghost use Rattle.prints.specs.Weak.{line_of_file, out_line, outdir_line, sharing_word};
ghost use Rattle.prints.specs.LineForms.{arg_form, env_form, in_form, indir_form, out_form, outdir_form};

use crate::cursor::Cursor;
use crate::fault::PrintFault;
use crate::line::Line;
use crate::part::{append_counted, append_digest, append_path};
use bx_digest::Digest;
use bx_tree::{Path, Text};
use pip_model_types::{DirInput, EnvPair, MadeFile, OutDir, SealForm};
use std::alloc::{AllocError, Global};

/// A declared file, with its digest.
#[derive(Drop)]
pub(crate) struct FileLine {
    pub(crate) path: Path,
    pub(crate) digest: Digest,
}

/// An input directory: the form of its seal, or none for another process's output directory, and its path.
#[derive(Drop)]
pub(crate) struct DirLine {
    pub(crate) form: Option<SealForm>,
    pub(crate) path: Path,
}

/// The kind of line that says an argument.
pub struct ArgKind;

impl Line<Text, Text> for ArgKind {
    ghost says = { λ t. t };

    ghost line = { arg_line };

    ghost line_at = { arg_at };

    ghost starts = { begins (codes "arg ") };

    ghost Fits = { IsCountable };

    ghost form = { arg_form };

    ghost seen = { λ _ _. refl };

    ghost none = { refl };

    fn append(alloc: Global, text: &mut Vec<u8>, value: &Text) -> Result<(), AllocError> {
        text.extend_from_slice(b"arg ")?;
        append_counted(alloc, text, value.bytes(), b'\n')
    }

    fn has_line(value: &Text) {
        let _count = value.bytes().len();
    }

    fn is_next(cursor: &Cursor) -> bool {
        cursor.begins(b"arg ")
    }

    fn read(alloc: Global, cursor: &mut Cursor) -> Result<Text, PrintFault> {
        cursor.word(b"arg ")?;
        cursor.counted(alloc, b'\n')
    }
}

/// The kind of line that says a variable.
pub struct EnvKind;

impl Line<EnvPair, EnvPair> for EnvKind {
    ghost says = { λ v. v };

    ghost line = { env_line };

    ghost line_at = { env_at };

    ghost starts = { begins (codes "env ") };

    ghost Fits = { IsVariable };

    ghost form = { env_form };

    ghost seen = { λ _ _. refl };

    ghost none = { refl };

    fn append(alloc: Global, text: &mut Vec<u8>, value: &EnvPair) -> Result<(), AllocError> {
        text.extend_from_slice(b"env ")?;
        append_counted(alloc, text, value.name.bytes(), b' ')?;
        append_counted(alloc, text, value.value.bytes(), b'\n')
    }

    fn has_line(value: &EnvPair) {
        let _name = value.name.bytes().len();
        let _value = value.value.bytes().len();
    }

    fn is_next(cursor: &Cursor) -> bool {
        cursor.begins(b"env ")
    }

    fn read(alloc: Global, cursor: &mut Cursor) -> Result<EnvPair, PrintFault> {
        cursor.word(b"env ")?;
        let name = cursor.counted(alloc, b' ')?;
        let value = cursor.counted(alloc, b'\n')?;
        Ok(EnvPair { name, value })
    }
}

// The kind of line that says a declared file.
pub(crate) struct InKind;

impl Line<MadeFile, FileLine> for InKind {
    ghost says = { line_of_file };

    ghost line = { in_line };

    ghost line_at = { in_at };

    ghost starts = { begins (codes "in ") };

    ghost Fits = { IsFileLine };

    ghost form = { in_form };

    ghost seen = { λ _ _. refl };

    ghost none = { refl };

    fn append(alloc: Global, text: &mut Vec<u8>, value: &MadeFile) -> Result<(), AllocError> {
        text.extend_from_slice(b"in ")?;
        append_path(text, &value.path, b' ')?;
        append_digest(alloc, text, &value.blob.digest(), b'\n')
    }

    fn has_line(value: &MadeFile) {
        let _path = value.path.text();
    }

    fn is_next(cursor: &Cursor) -> bool {
        cursor.begins(b"in ")
    }

    fn read(alloc: Global, cursor: &mut Cursor) -> Result<FileLine, PrintFault> {
        cursor.word(b"in ")?;
        let path = cursor.path(alloc, b' ')?;
        let digest = cursor.digest(b'\n')?;
        Ok(FileLine { path, digest })
    }
}

/// The word of the form of an input directory: of a seal, or of another process's output directory.
pub fn word_of(form: Option<SealForm>) -> &'static str
    ensures { result.now ≡ form_word form }
{
    match form {
        Some(SealForm::Full) => "full",
        Some(SealForm::Partial) => "partial",
        Some(SealForm::SourceTop) => "source-top",
        Some(SealForm::SourceAll) => "source-all",
        None => "opaque",
    }
}

/// The form that a word stands for.
pub fn form_of(word: &[u8]) -> Result<Option<SealForm>, PrintFault>
    ensures { Gives result (named_form word.now) }
{
    if word == b"full".as_slice() {
        return Ok(Some(SealForm::Full));
    }
    if word == b"partial".as_slice() {
        return Ok(Some(SealForm::Partial));
    }
    if word == b"source-top".as_slice() {
        return Ok(Some(SealForm::SourceTop));
    }
    if word == b"source-all".as_slice() {
        return Ok(Some(SealForm::SourceAll));
    }
    if word == b"opaque".as_slice() {
        return Ok(None);
    }
    Err(PrintFault::BadPrint)
}

fn read_form(cursor: &mut Cursor) -> Result<Option<SealForm>, PrintFault>
    ensures { Takes result cursor.new (form_at cursor.old) }
{
    let word = cursor.part(b' ')?;
    form_of(word)
}

// Adds the line of an input directory.
fn append_dir(text: &mut Vec<u8>, form: Option<SealForm>, path: &Path) -> Result<(), AllocError>
    ensures text { OnOk result (text.new.items ≡ text.old.items ++ indir_line (dir_with form path.now)) }
    ensures path { OnOk result (IsPath path.now) }
{
    text.extend_from_slice(b"indir ")?;
    text.extend_from_slice(word_of(form).as_bytes())?;
    text.push(b' ')?;
    append_path(text, path, b'\n')
}

// The kind of line that says an input directory.
pub(crate) struct IndirKind;

impl Line<DirInput, DirLine> for IndirKind {
    ghost says = { dir_line };

    ghost line = { indir_line };

    ghost line_at = { indir_at };

    ghost starts = { begins (codes "indir ") };

    ghost Fits = { IsDirLine };

    ghost form = { indir_form };

    ghost seen = { λ _ _. refl };

    ghost none = { refl };

    fn append(_alloc: Global, text: &mut Vec<u8>, value: &DirInput) -> Result<(), AllocError> {
        match value {
            DirInput::Sealed(_, form, root) => append_dir(text, Some(*form), root),
            DirInput::Opaque(_, path) => append_dir(text, None, path),
        }
    }

    fn has_line(value: &DirInput) {
        match value {
            DirInput::Sealed(_, _, root) => {
                let _root = root.text();
            }
            DirInput::Opaque(_, path) => {
                let _path = path.text();
            }
        }
    }

    fn is_next(cursor: &Cursor) -> bool {
        cursor.begins(b"indir ")
    }

    fn read(alloc: Global, cursor: &mut Cursor) -> Result<DirLine, PrintFault> {
        cursor.word(b"indir ")?;
        let form = read_form(cursor)?;
        let path = cursor.path(alloc, b'\n')?;
        Ok(DirLine { form, path })
    }
}

/// The kind of line that says an output file.
pub struct OutKind;

impl Line<Path, Path> for OutKind {
    ghost says = { λ p. p };

    ghost line = { out_line };

    ghost line_at = { out_at };

    ghost starts = { begins (codes "out ") };

    ghost Fits = { IsPath };

    ghost form = { out_form };

    ghost seen = { λ _ _. refl };

    ghost none = { refl };

    fn append(_alloc: Global, text: &mut Vec<u8>, value: &Path) -> Result<(), AllocError> {
        text.extend_from_slice(b"out ")?;
        append_path(text, value, b'\n')
    }

    fn has_line(value: &Path) {
        let _path = value.text();
    }

    fn is_next(cursor: &Cursor) -> bool {
        cursor.begins(b"out ")
    }

    fn read(alloc: Global, cursor: &mut Cursor) -> Result<Path, PrintFault> {
        cursor.word(b"out ")?;
        cursor.path(alloc, b'\n')
    }
}

fn sharing(shared: bool) -> &'static str
    ensures { result.now ≡ sharing_word shared }
{
    if shared { "shared" } else { "exclusive" }
}

// Whether a word says that a directory is shared.
fn is_shared(word: &[u8]) -> Result<bool, PrintFault>
    ensures { Gives result (named_sharing word.now) }
{
    if word == b"exclusive".as_slice() {
        return Ok(false);
    }
    if word == b"shared".as_slice() {
        return Ok(true);
    }
    Err(PrintFault::BadPrint)
}

fn read_sharing(cursor: &mut Cursor) -> Result<bool, PrintFault>
    ensures { Takes result cursor.new (sharing_at cursor.old) }
{
    let word = cursor.part(b' ')?;
    is_shared(word)
}

/// The kind of line that says an output directory.
pub struct OutdirKind;

impl Line<OutDir, OutDir> for OutdirKind {
    ghost says = { λ d. d };

    ghost line = { outdir_line };

    ghost line_at = { outdir_at };

    ghost starts = { begins (codes "outdir ") };

    ghost Fits = { IsOutDir };

    ghost form = { outdir_form };

    ghost seen = { λ _ _. refl };

    ghost none = { refl };

    fn append(_alloc: Global, text: &mut Vec<u8>, value: &OutDir) -> Result<(), AllocError> {
        text.extend_from_slice(b"outdir ")?;
        text.extend_from_slice(sharing(value.shared).as_bytes())?;
        text.push(b' ')?;
        append_path(text, &value.path, b'\n')
    }

    fn has_line(value: &OutDir) {
        let _path = value.path.text();
    }

    fn is_next(cursor: &Cursor) -> bool {
        cursor.begins(b"outdir ")
    }

    fn read(alloc: Global, cursor: &mut Cursor) -> Result<OutDir, PrintFault> {
        cursor.word(b"outdir ")?;
        let shared = read_sharing(cursor)?;
        let path = cursor.path(alloc, b'\n')?;
        Ok(OutDir { path, shared })
    }
}
