//! The nine statuses of a call. The program ends with a status as its exit code.

ghost use Rattle.std.specs.Prelude.{◌≡◌};
ghost use Rattle.bx_engine.specs.Statuses.{code_of};

/// How a call ended. docs/FORMATS.md has the table of the codes.
#[derive(Clone, Copy, Debug, PartialEq, Eq)]
pub enum Status {
    /// 0: the command did its work; in a build, every pip succeeded.
    Done = 0,
    /// 1: a pip of a build did not succeed, or a check of the cache found a bad entry.
    FailuresFound = 1,
    /// 2: the words are no command.
    NoCommand = 2,
    /// 3: the input of a build is refused.
    InputRefused = 3,
    /// 4: the specification of a build is refused.
    SpecificationRefused = 4,
    /// 5: the source failed in this call.
    SourceFailed = 5,
    /// 6: `out` failed in this call, and has taken a prefix of the output.
    OutFailed = 6,
    /// 7: out of memory.
    OutOfMemory = 7,
    /// 8: the store failed in this call. A build never gives this.
    KeeperFailed = 8,
}

impl Status {
    /// The exit code, from 0 to 8.
    pub fn code(&self) -> u8
        ensures { result ≡ code_of self.now }
    {
        *self as u8
    }
}
