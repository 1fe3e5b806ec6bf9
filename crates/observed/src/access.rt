//! Answers, accesses, and how a run ends.
ghost use Rattle.std.specs.Prelude.{◌≡◌, IfOk};

use crate::ask::Ask;
use bx_digest::Blob;
use bx_tree::Path;
use std::alloc::AllocError;

/// What an ask is answered.
#[derive(Drop)]
pub enum Answer {
    /// There is nothing at the path.
    Absent,
    /// The bytes of the file.
    Content(Blob),
    /// There is a file.
    File,
    /// There is a directory.
    Directory,
    /// The names in a directory: a view puts a newline after each, and a run takes any bytes.
    Names(Blob),
    /// The ask is not allowed.
    Denied,
}

impl Answer {
    /// The answer, shared.
    pub fn share(&self) -> Result<Answer, AllocError>
        ensures { IfOk result (λ answer. answer ≡ self.now) }
    {
        match self {
            Answer::Absent => Ok(Answer::Absent),
            Answer::Content(bytes) => Ok(Answer::Content(bytes.share()?)),
            Answer::File => Ok(Answer::File),
            Answer::Directory => Ok(Answer::Directory),
            Answer::Names(names) => Ok(Answer::Names(names.share()?)),
            Answer::Denied => Ok(Answer::Denied),
        }
    }
}

/// What a run did to a path: it asked and was answered, it wrote, or it was not allowed to write.
#[derive(Drop)]
pub enum Access {
    Asked(Ask, Answer),
    Wrote(Path),
    WriteDenied(Path),
}

/// How a run ends.
#[derive(Clone, Copy, Debug, PartialEq, Eq)]
pub enum End {
    /// The tool ended with this code.
    Exit(u8),
    /// An access was denied.
    Denied,
    /// The text is no tool, or a number in it is none.
    BadProgram,
    /// A text names no path.
    BadPath,
    /// A step was due and none was left.
    Budget,
    /// A register, or all that was written and said, would be above its limit.
    TooLong,
    /// A path to write is a directory of one that was written, or lies below one.
    NotADirectory,
}
