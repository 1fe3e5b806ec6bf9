//! Why a specification is refused before it is evaluated.

ghost use Rattle.std.specs.Prelude.{◌≡◌};
ghost use Rattle.dscript_program.specs.declared.spec_fault.SpecFault.TheVariants as spec_faults;

use crate::place::Place;
use bx_tree::{Memory, Path};
use std::alloc::AllocFailed;

/// The kinds of faults. docs/FORMATS.md says when each comes.
#[derive(Clone, Copy, Debug, PartialEq, Eq)]
pub enum SpecKind {
    /// A file is no list of tokens.
    Lex,
    /// The grammar derives no file from the tokens of a file.
    Syntax,
    /// The configuration of the workspace or of a module says something that is not allowed; neither `config.dsc`
    /// nor `build.dsc` is there; or a module lists a file that belongs to another module too.
    ModuleConfig,
    /// Two modules have one name, or one has the name of the module that is always there.
    DuplicateModule,
    /// Two declarations, two locals or two imports have one name.
    DuplicateName,
    /// A name stands for nothing.
    UnknownName,
    /// No module has this name.
    UnknownModule,
    /// A value is not public, and another module names it.
    NotPublic,
    /// An assignment is to something else than a variable of the function that it is in.
    AssignCaptured,
}

/// A fault with its file, and its place where it has one.
#[derive(Drop)]
pub struct Fault {
    pub kind: SpecKind,
    pub file: Path,
    /// Where in the file it is, for `Lex` and `Syntax`.
    pub place: Option<Place>,
}

/// The first fault of a specification, or that memory ran out before it was found.
#[derive(Drop)]
pub enum SpecFault {
    Fault {
        kind: SpecKind,
        file: Path,
        /// Where in the file it is, for `Lex` and `Syntax`.
        place: Option<Place>,
    },
    Memory,
}

impl From<Fault> for SpecFault {
    ghost from_gives = { λ fault e. e ≡ spec_faults.Fault fault.kind fault.file fault.place };

    fn from(fault: Fault) -> Self {
        SpecFault::Fault {
            kind: fault.kind,
            file: fault.file,
            place: fault.place,
        }
    }
}

impl From<Memory> for SpecFault {
    ghost from_gives = { λ _ e. e ≡ spec_faults.Memory };

    fn from(_: Memory) -> Self {
        SpecFault::Memory
    }
}

impl<T: Drop> From<AllocFailed<T>> for SpecFault {
    ghost from_gives = { λ _ e. e ≡ spec_faults.Memory };

    fn from(_: AllocFailed<T>) -> Self {
        SpecFault::Memory
    }
}
