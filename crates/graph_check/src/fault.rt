//! Why pips give no plan.

use bx_tree::{Memory, Path};
use std::alloc::AllocFailed;

/// A rule of the graph, in the order in which the rules are tried.
#[derive(Clone, Copy, Debug, PartialEq, Eq)]
pub enum GraphKind {
    /// A pip declares a file that an earlier pip declares.
    DoubleProducer,
    /// Files, output directories or full seals of a pip, or of it and an earlier pip, do not keep apart.
    Overlap,
    /// A pip names a source file that is not there.
    NoSuchSource,
    /// An output of a pip does not lie strictly below `out`.
    OutsideOut,
    /// A process has the description of an earlier process.
    Twin,
    /// There are more pips than a plan may have.
    Limit,
}

/// Why pips give no plan.
#[derive(Drop)]
pub enum GraphFault {
    /// The first rule that fails, the number of the pip at which it fails, and that pip's specification file.
    Fault {
        kind: GraphKind,
        pip: u32,
        file: Path,
    },
    /// Out of memory.
    Memory,
}

impl From<Memory> for GraphFault {
    ghost use Rattle.std.specs.Prelude.{◌≡◌};
    ghost use Rattle.graph_check.specs.declared.fault.GraphFault.TheVariants as graph_faults;

    ghost from_gives = { λ _ e. e ≡ graph_faults.Memory };

    fn from(_: Memory) -> Self {
        GraphFault::Memory
    }
}

impl<T: Drop> From<AllocFailed<T>> for GraphFault {
    ghost use Rattle.std.specs.Prelude.{◌≡◌};
    ghost use Rattle.graph_check.specs.declared.fault.GraphFault.TheVariants as graph_faults;

    ghost from_gives = { λ _ e. e ≡ graph_faults.Memory };

    fn from(_: AllocFailed<T>) -> Self {
        GraphFault::Memory
    }
}
