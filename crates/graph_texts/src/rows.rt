//! What the lines of a pip say.
ghost use Rattle.std.specs.Prelude.{◌≡◌};

use bx_tree::Path;
use pip_model_types::{
    Arguments, CopyDesc, FileInputs, OutDirs, Outputs, SealDesc, Variables, WriteDesc,
};
use std::marker::Model;

/// A directory that a process takes, as its line has it: that of a seal, by its pip, or an output directory of the
/// process with this number.
#[derive(Drop)]
pub enum DirRef {
    OfSeal(u32),
    OfProcess(u32, Path),
}

/// Directories that a process takes, in the order of their lines. Contracts see them as a list.
#[derive(Drop)]
pub struct DirRefs {
    refs: Vec<DirRef>,
}

impl Model for DirRefs {
    ghost use Rattle.std.specs.Prelude.{List};
    ghost use Rattle.graph_texts.specs.declared.rows.DirRef.{DirRef};

    ghost Value = { List DirRef };

    ghost view = { λ d. d.refs.items };
}

impl DirRefs {
    /// These directories.
    pub(crate) fn of(refs: Vec<DirRef>) -> DirRefs
        ensures { result ≡ refs.items }
    {
        DirRefs { refs }
    }

    /// The directories, in order.
    pub(crate) fn refs(&self) -> &[DirRef]
        ensures { result.now ≡ self.now }
    {
        self.refs.as_slice()
    }
}

/// What the lines of a process say: all of it but the forms and roots of the seals that it takes.
#[derive(Drop)]
pub struct ProcessRow {
    pub exe: Path,
    pub dir: Path,
    pub console: Option<Path>,
    pub args: Arguments,
    pub env: Variables,
    pub files: FileInputs,
    pub dirs: DirRefs,
    pub outs: Outputs,
    pub outdirs: OutDirs,
}

/// What the lines of a pip say that it does.
#[derive(Drop)]
pub enum RowKind {
    Process(ProcessRow),
    Copy(CopyDesc),
    Write(WriteDesc),
    Seal(SealDesc),
}

/// What the lines of a pip say.
#[derive(Drop)]
pub struct PipRow {
    pub spec: Path,
    pub kind: RowKind,
}
