//! The strong text of what asks are answered.
ghost use Rattle.std.specs.Prelude.{◌≡◌, ◌++◌, Err, IfOk, OnOk, Some};
ghost use Rattle.sha2.specs.Sha256.{sha256};
ghost use Rattle.prints.specs.Reading.{Gives};
ghost use Rattle.prints.specs.Strong.{IsStrong, asked_parts, read_strong_text, strong_head, strong_parts};
ghost use Rattle.prints.specs.Strong.{strong_text};
ghost use Rattle.prints.specs.declared.strong_parts.StrongParts.{StrongParts as AnyParts};

use crate::answer_lines::AnswerKind;
use crate::cursor::Cursor;
use crate::fault::PrintFault;
use crate::line::{append_lines, read_lines};
use crate::part::append_digest;
use crate::printed::Printed;
use crate::strong_parts::{AnswerLine, AnswerLines, StrongParts};
use bx_digest::{Digest, digest_of};
use observed::{Answer, PathSet, View, answers_to};
use std::alloc::{AllocError, Global};

// The first line of a strong text of a version.
fn head_of(second: bool) -> &'static [u8]
    ensures { result.now ≡ strong_head second }
{
    if second {
        b"strong 2\n".as_slice()
    } else {
        b"strong 1\n".as_slice()
    }
}

/// The strong text of the answers to the asks of a path set, by its version and by the digests of the weak text
/// and of the path set's text, with its digest.
pub fn strong_of(
    alloc: Global,
    second: bool,
    weak: &Digest,
    paths: &Digest,
    answers: &[Answer],
) -> Result<Printed, AllocError>
    ensures text { IfOk result (λ printed.
        printed.text.items ≡ strong_text (strong_parts second weak.now paths.now answers.now)) }
    ensures digest { IfOk result (λ printed. printed.digest ≡ sha256 printed.text.items) }
    ensures read { IfOk result (λ printed.
        read_strong_text printed.text.items ≡ Some (strong_parts second weak.now paths.now answers.now)) }
{
    let mut text = Vec::from_slice(alloc, head_of(second))?;
    text.extend_from_slice(b"weak ")?;
    append_digest(alloc, &mut text, weak, b'\n')?;
    text.extend_from_slice(b"paths ")?;
    append_digest(alloc, &mut text, paths, b'\n')?;
    append_lines::<Answer, AnswerLine, AnswerKind>(alloc, &mut text, answers)?;
    Ok(Printed::of(text))
}

/// The strong text of what a view answers now to the asks of a path set, with its digest. The path set's text
/// is written and hashed for its digest.
pub fn strong<V: View>(
    alloc: Global,
    weak: &Digest,
    paths: &PathSet,
    view: &mut V,
) -> Result<Printed, AllocError>
    ensures text { IfOk result (λ printed. printed.text.items
        ≡ strong_text (asked_parts weak.now paths.now (V.answers view.old))) }
    ensures digest { IfOk result (λ printed. printed.digest ≡ sha256 printed.text.items) }
    ensures read { IfOk result (λ printed.
        read_strong_text printed.text.items ≡ Some (asked_parts weak.now paths.now (V.answers view.old))) }
    ensures same { V.answers view.new ≡ V.answers view.old }
{
    let text = paths.text(alloc)?;
    let digest = digest_of(text.as_slice());
    let answers = answers_to(alloc, paths, view)?;
    strong_of(alloc, paths.has_match(), weak, &digest, answers.as_slice())
}

// The version, the digests and the answers of a text.
#[tactic(auto, unfolding(crate::specs::Strong::read_strong_text))]
fn parts_in(alloc: Global, bytes: &[u8]) -> Result<StrongParts, PrintFault>
    ensures { Gives result (read_strong_text bytes.now) }
{
    let mut cursor = Cursor::of(bytes);
    let second = cursor.one_word(b"strong 2\n", b"strong 1\n")?;
    cursor.word(b"weak ")?;
    let weak = cursor.digest(b'\n')?;
    cursor.word(b"paths ")?;
    let paths = cursor.digest(b'\n')?;
    let lines = read_lines::<Answer, AnswerLine, AnswerKind>(alloc, &mut cursor)?;
    cursor.end()?;
    Ok(StrongParts {
        second,
        weak,
        paths,
        lines: AnswerLines::of(lines),
    })
}

/// What has a strong text: a version, two digests and a list of answers.
pub fn read_strong(alloc: Global, bytes: &[u8]) -> Result<StrongParts, PrintFault>
    ensures found { IfOk result (λ parts. IsStrong parts × (bytes.now ≡ strong_text parts)) }
    ensures none { result ≡ Err PrintFault.BadPrint → (parts : AnyParts) →
        IsStrong parts → bytes.now ≡ strong_text parts → ⊥ }
    ensures read { Gives result (read_strong_text bytes.now) }
{
    parts_in(alloc, bytes)
}
