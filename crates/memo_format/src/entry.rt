//! Entries and their text.
ghost use Rattle.std.specs.Prelude.{◌≡◌, ◌++◌, Err, IfOk, OnOk, Some, codes};
ghost use Rattle.sha2.specs.Sha256.{sha256};
ghost use Rattle.prints.specs.Lines.{begins, rises};
ghost use Rattle.std.proofs.Common.{refl};
ghost use Rattle.prints.specs.Reading.{Gives, Takes};
ghost use Rattle.memo_format.specs.Answers.{ReadsForm};
ghost use Rattle.memo_format.specs.declared.entry.Entry.{Entry as AnyEntry};
ghost use Rattle.memo_format.specs.Entries.{IsEntry, IsOutput, OutputsRise, body_entry, entry_body, entry_text};
ghost use Rattle.memo_format.specs.Entries.{output_at};
ghost use Rattle.memo_format.specs.Entries.{output_before, output_line, outputs_at, read_entry_text};
ghost use Rattle.memo_format.specs.StoredForms.{output_form};

use crate::fault::FormatFault;
use crate::sealing::{SEAL_BYTES, seal, unseal};
use bx_digest::{Digest, digest_of};
use bx_tree::Path;
use prints::{Cursor, Line, PrintFault, append_digest, append_lines, append_path, read_lines};
use std::alloc::{AllocError, Global};
use std::marker::Model;

/// A file that a run made, with the digest of its bytes.
#[derive(Drop)]
pub struct OutputLine {
    pub path: Path,
    pub digest: Digest,
}

/// Files that a run made. Contracts see them as a list.
#[derive(Drop)]
pub struct OutputLines {
    lines: Vec<OutputLine>,
}

impl Model for OutputLines {
    ghost use Rattle.std.specs.Prelude.{List};
    ghost use Rattle.memo_format.specs.declared.entry.OutputLine.{OutputLine};

    ghost Value = { List OutputLine };

    ghost view = { λ o. o.lines.items };
}

impl OutputLines {
    /// These files.
    pub fn of(lines: Vec<OutputLine>) -> OutputLines
        ensures { result ≡ lines.items }
    {
        OutputLines { lines }
    }

    /// The files, in order.
    pub fn lines(&self) -> &[OutputLine]
        ensures { result.now ≡ self.now }
    {
        self.lines.as_slice()
    }
}

/// What a run made: the digests of its weak text, of its path set and of its strong text, and its outputs.
#[derive(Drop)]
pub struct Entry {
    pub weak: Digest,
    pub paths: Digest,
    pub strong: Digest,
    pub outputs: OutputLines,
}

// The kind of line that says an output.
pub(crate) struct OutputKind;

impl Line<OutputLine, OutputLine> for OutputKind {
    ghost says = { λ o. o };

    ghost line = { output_line };

    ghost line_at = { output_at };

    ghost starts = { begins (codes "output ") };

    ghost Fits = { IsOutput };

    ghost form = { output_form };

    ghost seen = { λ _ _. refl };

    ghost none = { refl };

    fn append(alloc: Global, text: &mut Vec<u8>, value: &OutputLine) -> Result<(), AllocError> {
        text.extend_from_slice(b"output ")?;
        append_path(text, &value.path, b' ')?;
        append_digest(alloc, text, &value.digest, b'\n')
    }

    fn has_line(value: &OutputLine) {
        let _path = value.path.text();
        let _digest = value.digest.bytes();
    }

    fn is_next(cursor: &Cursor) -> bool {
        cursor.begins(b"output ")
    }

    fn read(alloc: Global, cursor: &mut Cursor) -> Result<OutputLine, PrintFault> {
        cursor.word(b"output ")?;
        let path = cursor.path(alloc, b' ')?;
        let digest = cursor.digest(b'\n')?;
        Ok(OutputLine { path, digest })
    }
}

// Whether outputs rise by path.
fn is_rising(outputs: &[OutputLine]) -> bool
    ensures { result ≡ rises output_before outputs.now }
{
    outputs.is_sorted_by(|a, b| a.path < b.path)
}

/// The text of an entry, whose outputs rise by path.
pub fn write_entry(alloc: Global, entry: &Entry) -> Result<Vec<u8>, AllocError>
    requires { OutputsRise entry.now.outputs }
    ensures text { IfOk result (λ text. text.items ≡ entry_text entry.now) }
    ensures read { IfOk result (λ text. read_entry_text text.items ≡ Some entry.now) }
{
    let mut text = Vec::from_slice(alloc, b"entry 1\nweak ")?;
    append_digest(alloc, &mut text, &entry.weak, b'\n')?;
    text.extend_from_slice(b"paths ")?;
    append_digest(alloc, &mut text, &entry.paths, b'\n')?;
    text.extend_from_slice(b"strong ")?;
    append_digest(alloc, &mut text, &entry.strong, b'\n')?;
    append_lines::<OutputLine, OutputLine, OutputKind>(alloc, &mut text, entry.outputs.lines())?;
    seal(alloc, &mut text)?;
    Ok(text)
}

/// The digest that the seal of an entry names: that of its text before the line of the seal.
pub fn seal_of(alloc: Global, entry: &Entry) -> Result<Digest, AllocError>
    requires { OutputsRise entry.now.outputs }
    ensures { IfOk result (λ digest. digest ≡ sha256 (entry_body entry.now)) }
{
    let text = write_entry(alloc, entry)?;
    Ok(digest_of(&text[..text.len() - SEAL_BYTES]))
}

// The outputs, which rise by path.
#[tactic(auto, unfolding(crate::specs::Entries::outputs_at))]
fn outputs(alloc: Global, cursor: &mut Cursor) -> Result<OutputLines, PrintFault>
    ensures { Takes result cursor.new (outputs_at cursor.old) }
{
    let lines = read_lines::<OutputLine, OutputLine, OutputKind>(alloc, cursor)?;
    if !is_rising(lines.as_slice()) {
        return Err(PrintFault::BadPrint);
    }
    Ok(OutputLines::of(lines))
}

// The entry of a body.
#[tactic(auto, unfolding(crate::specs::Entries::body_entry))]
fn in_body(alloc: Global, body: &[u8]) -> Result<Entry, PrintFault>
    ensures { Gives result (body_entry body.now) }
{
    let mut cursor = Cursor::of(body);
    cursor.word(b"entry 1\n")?;
    cursor.word(b"weak ")?;
    let weak = cursor.digest(b'\n')?;
    cursor.word(b"paths ")?;
    let paths = cursor.digest(b'\n')?;
    cursor.word(b"strong ")?;
    let strong = cursor.digest(b'\n')?;
    let outputs = outputs(alloc, &mut cursor)?;
    cursor.end()?;
    Ok(Entry {
        weak,
        paths,
        strong,
        outputs,
    })
}

// The entry of a text.
#[tactic(auto, unfolding(crate::specs::Entries::read_entry_text))]
fn entry_in(alloc: Global, bytes: &[u8]) -> Result<Entry, PrintFault>
    ensures { Gives result (read_entry_text bytes.now) }
{
    let body = unseal(alloc, bytes)?;
    in_body(alloc, body)
}

/// The entry that has a text: its outputs rise by path, and the seal fits.
pub fn read_entry(alloc: Global, bytes: &[u8]) -> Result<Entry, FormatFault>
    ensures found { IfOk result (λ entry. IsEntry entry × (bytes.now ≡ entry_text entry)) }
    ensures none { result ≡ Err FormatFault.BadForm → (entry : AnyEntry) →
        IsEntry entry → bytes.now ≡ entry_text entry → ⊥ }
    ensures read { ReadsForm result (read_entry_text bytes.now) }
{
    match entry_in(alloc, bytes) {
        Ok(entry) => Ok(entry),
        Err(PrintFault::BadPrint) => Err(FormatFault::BadForm),
        Err(PrintFault::Memory) => Err(FormatFault::Memory),
    }
}
