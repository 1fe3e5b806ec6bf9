//! How pips end.
ghost use Rattle.std.specs.Prelude.{◌≡◌};
ghost use Rattle.violations.specs.Verdicts as ends;

use bx_tree::Path;
use observed::End;

/// Why an access is a violation.
#[derive(Clone, Copy, Debug, PartialEq, Eq)]
pub enum ViolationKind {
    /// A read of a source file that the process does not declare.
    MissingSourceDependency,
    /// A look at what another pip can produce, to which edges lead from the process.
    UndeclaredOrderedRead,
    /// A look at what another pip can produce, from which edges lead to the process.
    UndeclaredReadCycle,
    /// A look at what another pip can produce, where no edges lead between the two.
    ReadRace,
    /// A write outside of the declared outputs.
    UndeclaredOutput,
    /// A write in a shared directory that clashes with one of an earlier pip.
    DoubleWrite,
}

/// What an access does.
#[derive(Clone, Copy, Debug, PartialEq, Eq)]
pub enum DeedKind {
    Read,
    Probe,
    Write,
}

/// An access that breaks the declarations of its process, with the other pip that is concerned, if one is.
#[derive(Drop)]
pub struct Violation {
    pub kind: ViolationKind,
    pub path: Path,
    pub deed: DeedKind,
    pub other: Option<u32>,
}

/// How a pip ended.
#[derive(Drop)]
pub enum Verdict {
    Succeeded,
    /// An input of the pip did not succeed.
    Skipped,
    /// The tool ended with a code other than 0.
    Exit(u8),
    /// The tool was at fault.
    Tool(End),
    /// A declared output file was not written: the least one.
    MissingOutput(Path),
    Violated(Violation),
}

impl Verdict {
    /// Whether the pip succeeded.
    pub fn is_success(&self) -> bool
        ensures { result ≡ ends.is_success self.now }
    {
        matches!(self, Verdict::Succeeded)
    }
}
