//! The lines of a strong text that say answers.
ghost use Rattle.std.specs.Prelude.{◌≡◌, ◌++◌, codes, OnOk};
ghost use Rattle.std.proofs.Common.{refl};
ghost use Rattle.bx_digest.specs.Digests.{IsDigest};
ghost use Rattle.observed.specs.Texts.{after_prefix};
ghost use Rattle.prints.specs.Parts.{digest_part};
ghost use Rattle.prints.specs.Reading.{Gives, Takes};
ghost use Rattle.prints.specs.Strong.{IsAnswerLine, answer_at, answer_line, has_more, line_of, named_answer};
ghost use Rattle.prints.specs.Strong.{with_digest};
ghost use Rattle.prints.specs.AnswerForms.{answer_form, answer_seen};

use crate::cursor::{Cursor, after_word, digest_of};
use crate::fault::PrintFault;
use crate::line::Line;
use crate::part::append_digest;
use crate::strong_parts::AnswerLine;
use observed::Answer;
use std::alloc::{AllocError, Global};

// The answer that a line says.
fn answer_of(line: &[u8]) -> Result<AnswerLine, PrintFault>
    ensures { Gives result (named_answer line.now) }
{
    if line == b"absent".as_slice() {
        return Ok(AnswerLine::Absent);
    }
    if line == b"file".as_slice() {
        return Ok(AnswerLine::File);
    }
    if line == b"directory".as_slice() {
        return Ok(AnswerLine::Directory);
    }
    if line == b"denied".as_slice() {
        return Ok(AnswerLine::Denied);
    }
    digest_line(line)
}

fn digest_line(line: &[u8]) -> Result<AnswerLine, PrintFault>
    ensures { Gives result
        (with_digest (after_prefix (codes "content ") line.now) (after_prefix (codes "names ") line.now)) }
{
    if let Some(content) = after_word(b"content ", line) {
        return Ok(AnswerLine::Content(digest_of(content)?));
    }
    if let Some(names) = after_word(b"names ", line) {
        return Ok(AnswerLine::Names(digest_of(names)?));
    }
    Err(PrintFault::BadPrint)
}

// The kind of line that says an answer.
pub(crate) struct AnswerKind;

impl Line<Answer, AnswerLine> for AnswerKind {
    ghost says = { line_of };

    ghost line = { answer_line };

    ghost line_at = { answer_at };

    ghost starts = { has_more };

    ghost Fits = { IsAnswerLine };

    ghost form = { answer_form };

    ghost seen = { answer_seen };

    ghost none = { refl };

    fn append(alloc: Global, text: &mut Vec<u8>, value: &Answer) -> Result<(), AllocError> {
        match value {
            Answer::Absent => text.extend_from_slice(b"absent\n"),
            Answer::Content(bytes) => {
                text.extend_from_slice(b"content ")?;
                append_digest(alloc, text, &bytes.digest(), b'\n')
            }
            Answer::File => text.extend_from_slice(b"file\n"),
            Answer::Directory => text.extend_from_slice(b"directory\n"),
            Answer::Names(names) => {
                text.extend_from_slice(b"names ")?;
                append_digest(alloc, text, &names.digest(), b'\n')
            }
            Answer::Denied => text.extend_from_slice(b"denied\n"),
        }
    }

    #[tactic(auto, using(crate::proofs::AnswersHaveLines::is_line))]
    fn has_line(_value: &Answer) {}

    fn is_next(cursor: &Cursor) -> bool {
        !cursor.is_empty()
    }

    fn read(_alloc: Global, cursor: &mut Cursor) -> Result<AnswerLine, PrintFault> {
        let line = cursor.part(b'\n')?;
        answer_of(line)
    }
}
