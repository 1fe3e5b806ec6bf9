//! What a strong text says.
ghost use Rattle.std.specs.Prelude.{◌≡◌};

use bx_digest::Digest;
use std::marker::Model;

/// What an ask was answered, a content named by its digest, and names by the digest of the names, each with a
/// newline after it.
#[derive(Clone, Copy, Debug)]
pub enum AnswerLine {
    Absent,
    Content(Digest),
    File,
    Directory,
    Names(Digest),
    Denied,
}

/// Answers, in the order of the asks. Contracts see them as a list.
#[derive(Drop)]
pub struct AnswerLines {
    lines: Vec<AnswerLine>,
}

impl Model for AnswerLines {
    ghost use Rattle.std.specs.Prelude.{List};
    ghost use Rattle.prints.specs.declared.strong_parts.AnswerLine.{AnswerLine};

    ghost Value = { List AnswerLine };

    ghost view = { λ a. a.lines.items };
}

impl AnswerLines {
    /// These answers.
    pub fn of(lines: Vec<AnswerLine>) -> AnswerLines
        ensures { result ≡ lines.items }
    {
        AnswerLines { lines }
    }

    /// The answers, in order.
    pub fn lines(&self) -> &[AnswerLine]
        ensures { result.now ≡ self.now }
    {
        self.lines.as_slice()
    }
}

/// What a strong text says: whether it is of the second version, as that of a path set with a listing by a pattern
/// is, the digests of a weak text and of a path set, and a list of answers.
#[derive(Drop)]
pub struct StrongParts {
    pub second: bool,
    pub weak: Digest,
    pub paths: Digest,
    pub lines: AnswerLines,
}
