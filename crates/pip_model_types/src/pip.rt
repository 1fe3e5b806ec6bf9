//! Pips: the steps of a build.
ghost use Rattle.std.specs.Prelude.{◌≡◌, None, Some, MatchOption, slice_get};
ghost use Rattle.pip_model_types.specs.Inputs.{RiseByPath};
ghost use Rattle.pip_model_types.specs.Kinds.{form_files, listed_files};

use crate::args::{Arguments, Variables};
use crate::dir_inputs::{DirInputs, SealForm};
use crate::file_inputs::{FileInputs, no_inputs};
use crate::outputs::{OutDirs, Outputs};
use bx_tree::{FileInput, Path, Text};

/// A process: a tool that is run over its files, with the executable, the arguments and environment, the
/// working directory, the declared files and directories, what it declares to make, and the file of its
/// console.
#[derive(Drop)]
pub struct ProcessDesc {
    pub exe: Path,
    pub args: Arguments,
    pub env: Variables,
    pub dir: Path,
    pub files: FileInputs,
    pub dirs: DirInputs,
    pub outs: Outputs,
    pub outdirs: OutDirs,
    pub console: Option<Path>,
}

/// A file with the bytes of another.
#[derive(Drop)]
pub struct CopyDesc {
    pub from: FileInput,
    pub to: Path,
}

/// A file with a given text.
#[derive(Drop)]
pub struct WriteDesc {
    pub to: Path,
    pub text: Text,
}

/// A sealed directory: its form, its root and the files that it lists. A source seal lists none.
#[derive(Drop)]
pub struct SealDesc {
    pub form: SealForm,
    pub root: Path,
    pub files: FileInputs,
}

impl SealDesc {
    /// The files that the seal lists, in order: none, where it is one of source files.
    pub fn listed(&self) -> &[FileInput]
        ensures files { result.now ≡ form_files self.now.form self.now.files }
        ensures rising { RiseByPath result.now }
    {
        match self.form {
            SealForm::Full | SealForm::Partial => self.files.files(),
            SealForm::SourceTop | SealForm::SourceAll => no_inputs(),
        }
    }
}

/// What a pip does.
#[derive(Drop)]
pub enum PipKind {
    Process(ProcessDesc),
    Copy(CopyDesc),
    Write(WriteDesc),
    Seal(SealDesc),
}

impl PipKind {
    /// The files that the pip lists, in order: none, where it is no full or partial seal.
    pub fn listed(&self) -> &[FileInput]
        ensures files { result.now ≡ listed_files self.now }
        ensures rising { RiseByPath result.now }
    {
        match self {
            PipKind::Seal(seal) => seal.listed(),
            PipKind::Process(_) | PipKind::Copy(_) | PipKind::Write(_) => no_inputs(),
        }
    }
}

/// A step of a build, with the specification file that asked for it.
#[derive(Drop)]
pub struct Pip {
    pub spec: Path,
    pub kind: PipKind,
}

/// The pip with a number, if there is one.
pub fn pip_at(pips: &[Pip], number: u32) -> Option<&Pip>
    ensures { MatchOption result
        (slice_get pips.now number ≡ None)
        (λ pip. slice_get pips.now number ≡ Some pip.now) }
{
    pips.get(number as usize)
}
