//! Reading weak texts.
ghost use Rattle.std.specs.Prelude.{◌≡◌, true, Err, IfOk, OnOk, Some};
ghost use Rattle.prints.specs.Lines.{rises};
ghost use Rattle.prints.specs.Reading.{Gives, GivesItems, Takes, TakesItems};
ghost use Rattle.prints.specs.Processes.{IsWeak, without_pips};
ghost use Rattle.prints.specs.ReadWeak.{args_at, console_at, dir_of as any_dir, digests_of, dir_before};
ghost use Rattle.prints.specs.ReadWeak.{dirs_from, envs_at, file_before};
ghost use Rattle.prints.specs.ReadWeak.{head_at, indirs_at, ins_at, lists_from, named_console, outdirs_at};
ghost use Rattle.prints.specs.ReadWeak.{outdir_before, outs_at, path_before, read_weak_text, sources_of};
ghost use Rattle.prints.specs.Weak.{weak_text};
ghost use Rattle.prints.specs.declared.weak_parts.WeakParts.{WeakParts as AnyParts};

use crate::cursor::{Cursor, after_word, path_of};
use crate::fault::PrintFault;
use crate::line::read_lines;
use crate::order::{
    are_dirs_rising, are_files_rising, are_outdirs_rising, are_paths_rising, are_variables_sorted,
};
use crate::weak_lines::{
    ArgKind, DirLine, EnvKind, FileLine, InKind, IndirKind, OutKind, OutdirKind,
};
use crate::weak_parts::{Digests, WeakParts};
use bx_digest::Digest;
use bx_tree::{FileInput, Path, Text};
use pip_model_types::{
    Arguments, DirInput, DirInputs, EnvPair, FileInputs, MadeFile, OutDir, OutDirs, Outputs,
    ProcessDesc, SealForm, Variables,
};
use std::alloc::{AllocError, Global};

// The lines that are there once.
#[derive(Drop)]
pub(crate) struct Head {
    pub(crate) exe: Path,
    pub(crate) digest: Digest,
    pub(crate) dir: Path,
    pub(crate) budget: u64,
    pub(crate) console: Option<Path>,
}

// The lists, and the digests of the declared files.
#[derive(Drop)]
pub(crate) struct Lists {
    pub(crate) args: Arguments,
    pub(crate) env: Variables,
    pub(crate) files: FileInputs,
    pub(crate) digests: Digests,
    pub(crate) dirs: DirInputs,
    pub(crate) outs: Outputs,
    pub(crate) outdirs: OutDirs,
}

// The console file that a line names.
fn named(alloc: Global, line: &[u8]) -> Result<Option<Path>, PrintFault>
    ensures { Gives result (named_console line.now) }
{
    if line == b"no-console".as_slice() {
        return Ok(None);
    }
    match after_word(b"console ", line) {
        Some(path) => Ok(Some(path_of(alloc, path)?)),
        None => Err(PrintFault::BadPrint),
    }
}

fn console(alloc: Global, cursor: &mut Cursor) -> Result<Option<Path>, PrintFault>
    ensures { Takes result cursor.new (console_at cursor.old) }
{
    let line = cursor.part(b'\n')?;
    named(alloc, line)
}

#[tactic(auto, unfolding(crate::specs::ReadWeak::head_at))]
fn read_head(alloc: Global, cursor: &mut Cursor) -> Result<Head, PrintFault>
    ensures { Takes result cursor.new (head_at cursor.old) }
{
    cursor.word(b"exe ")?;
    let exe = cursor.path(alloc, b' ')?;
    let digest = cursor.digest(b'\n')?;
    cursor.word(b"cwd ")?;
    let dir = cursor.path(alloc, b'\n')?;
    cursor.word(b"budget ")?;
    let budget = cursor.number(b'\n')?;
    let console = console(alloc, cursor)?;
    Ok(Head {
        exe,
        digest,
        dir,
        budget,
        console,
    })
}

/// The arguments that come next.
#[tactic(auto, unfolding(crate::specs::ReadWeak::args_at))]
pub fn read_args(alloc: Global, cursor: &mut Cursor) -> Result<Arguments, PrintFault>
    ensures { Takes result cursor.new (args_at cursor.old) }
{
    let texts = read_lines::<Text, Text, ArgKind>(alloc, cursor)?;
    Ok(Arguments::of(texts))
}

/// The variables that come next, sorted by name.
#[tactic(auto, unfolding(crate::specs::ReadWeak::envs_at))]
pub fn read_variables(alloc: Global, cursor: &mut Cursor) -> Result<Variables, PrintFault>
    ensures { Takes result cursor.new (envs_at cursor.old) }
{
    let pairs = read_lines::<EnvPair, EnvPair, EnvKind>(alloc, cursor)?;
    if !are_variables_sorted(pairs.as_slice()) {
        return Err(PrintFault::BadPrint);
    }
    Ok(Variables::in_order(pairs))
}

// The declared files of lines, as source files.
fn sources(alloc: Global, lines: &[FileLine]) -> Result<Vec<FileInput>, AllocError>
    ensures { IfOk result (λ files. files.items ≡ sources_of lines.now) }
{
    let mut files = Vec::new(alloc);
    'lines: for line in lines {
        files.push(FileInput::Source(line.path.share()?))?;
    }
    Ok(files)
}

// The declared files of lines, which rise by path.
fn inputs(alloc: Global, lines: &[FileLine]) -> Result<FileInputs, AllocError>
    requires { rises file_before lines.now ≡ true }
    ensures { IfOk result (λ files. files ≡ sources_of lines.now) }
{
    Ok(FileInputs::of(sources(alloc, lines)?))
}

fn digests(alloc: Global, lines: &[FileLine]) -> Result<Digests, AllocError>
    ensures { IfOk result (λ digests. digests ≡ digests_of lines.now) }
{
    let mut digests = Vec::new(alloc);
    'lines: for line in lines {
        digests.push(line.digest)?;
    }
    Ok(Digests::of(digests))
}

// The lines of declared files, which rise by path.
#[tactic(auto, unfolding(crate::specs::ReadWeak::ins_at))]
fn files(alloc: Global, cursor: &mut Cursor) -> Result<Vec<FileLine>, PrintFault>
    ensures lines { TakesItems result cursor.new (ins_at cursor.old) }
    ensures order { IfOk result (λ lines. rises file_before lines.items ≡ true) }
{
    let lines = read_lines::<MadeFile, FileLine, InKind>(alloc, cursor)?;
    if !are_files_rising(lines.as_slice()) {
        return Err(PrintFault::BadPrint);
    }
    Ok(lines)
}

// The directory of a line, as that of a pip.
fn dir_of(pip: u32, line: &DirLine) -> Result<DirInput, AllocError>
    ensures { IfOk result (λ dir. dir ≡ any_dir pip line.now.form line.now.path) }
{
    let path = line.path.share()?;
    match line.form {
        Some(form) => Ok(DirInput::Sealed(pip, form, path)),
        None => Ok(DirInput::Opaque(pip, path)),
    }
}

// The directories of lines, numbered. Pip numbers have 32 bits; a longer list is answered by a lack of
// memory.
fn numbered(alloc: Global, lines: &[DirLine]) -> Result<Vec<DirInput>, PrintFault>
    ensures { GivesItems result (Some (dirs_from 0 lines.now)) }
{
    let mut dirs = Vec::new(alloc);
    'lines: for line in lines {
        let Ok(pip) = u32::try_from(dirs.len()) else {
            return Err(PrintFault::Memory);
        };
        dirs.push(dir_of(pip, line)?)?;
    }
    Ok(dirs)
}

/// Directories that rise already, as they are.
pub fn dir_inputs(dirs: Vec<DirInput>) -> DirInputs
    requires { rises dir_before dirs.items ≡ true }
    ensures { result ≡ dirs.items }
{
    DirInputs::of(dirs)
}

fn outputs(paths: Vec<Path>) -> Outputs
    requires { rises path_before paths.items ≡ true }
    ensures { result ≡ paths.items }
{
    Outputs::of(paths)
}

fn out_dirs(dirs: Vec<OutDir>) -> OutDirs
    requires { rises outdir_before dirs.items ≡ true }
    ensures { result ≡ dirs.items }
{
    OutDirs::of(dirs)
}

#[tactic(auto, unfolding(crate::specs::ReadWeak::indirs_at))]
fn dirs(alloc: Global, cursor: &mut Cursor) -> Result<DirInputs, PrintFault>
    ensures { Takes result cursor.new (indirs_at cursor.old) }
{
    let lines = read_lines::<DirInput, DirLine, IndirKind>(alloc, cursor)?;
    let dirs = numbered(alloc, lines.as_slice())?;
    if !are_dirs_rising(dirs.as_slice()) {
        return Err(PrintFault::BadPrint);
    }
    Ok(dir_inputs(dirs))
}

/// The output files that come next, which rise.
#[tactic(auto, unfolding(crate::specs::ReadWeak::outs_at))]
pub fn read_outs(alloc: Global, cursor: &mut Cursor) -> Result<Outputs, PrintFault>
    ensures { Takes result cursor.new (outs_at cursor.old) }
{
    let paths = read_lines::<Path, Path, OutKind>(alloc, cursor)?;
    if !are_paths_rising(paths.as_slice()) {
        return Err(PrintFault::BadPrint);
    }
    Ok(outputs(paths))
}

/// The output directories that come next, which rise.
#[tactic(auto, unfolding(crate::specs::ReadWeak::outdirs_at))]
pub fn read_outdirs(alloc: Global, cursor: &mut Cursor) -> Result<OutDirs, PrintFault>
    ensures { Takes result cursor.new (outdirs_at cursor.old) }
{
    let dirs = read_lines::<OutDir, OutDir, OutdirKind>(alloc, cursor)?;
    if !are_outdirs_rising(dirs.as_slice()) {
        return Err(PrintFault::BadPrint);
    }
    Ok(out_dirs(dirs))
}

#[tactic(auto, unfolding(crate::specs::ReadWeak::lists_from))]
fn read_lists_of(alloc: Global, cursor: &mut Cursor) -> Result<Lists, PrintFault>
    ensures { Takes result cursor.new (lists_from cursor.old) }
{
    let args = read_args(alloc, cursor)?;
    let env = read_variables(alloc, cursor)?;
    let lines = files(alloc, cursor)?;
    let dirs = dirs(alloc, cursor)?;
    let outs = read_outs(alloc, cursor)?;
    let outdirs = read_outdirs(alloc, cursor)?;
    let digests = digests(alloc, lines.as_slice())?;
    Ok(Lists {
        args,
        env,
        files: inputs(alloc, lines.as_slice())?,
        digests,
        dirs,
        outs,
        outdirs,
    })
}

// The process of a text, and its steps and digests.
#[tactic(auto, unfolding(crate::specs::ReadWeak::read_weak_text))]
fn parts_in(alloc: Global, bytes: &[u8]) -> Result<WeakParts, PrintFault>
    ensures { Gives result (read_weak_text bytes.now) }
{
    let mut cursor = Cursor::of(bytes);
    cursor.word(b"bxl 1\n")?;
    let head = read_head(alloc, &mut cursor)?;
    let lists = read_lists_of(alloc, &mut cursor)?;
    cursor.end()?;
    let process = ProcessDesc {
        exe: head.exe,
        args: lists.args,
        env: lists.env,
        dir: head.dir,
        files: lists.files,
        dirs: lists.dirs,
        outs: lists.outs,
        outdirs: lists.outdirs,
        console: head.console,
    };
    Ok(WeakParts {
        process,
        budget: head.budget,
        exe: head.digest,
        files: lists.digests,
    })
}

/// What has a weak text: a process, the steps of its tool, and digests.
pub fn read_weak(alloc: Global, bytes: &[u8]) -> Result<WeakParts, PrintFault>
    ensures found { IfOk result (λ parts. IsWeak parts × (bytes.now ≡ weak_text parts)) }
    ensures no_pips { IfOk result (λ parts. without_pips parts ≡ parts) }
    ensures none { result ≡ Err PrintFault.BadPrint → (parts : AnyParts) →
        IsWeak parts → bytes.now ≡ weak_text parts → ⊥ }
    ensures read { Gives result (read_weak_text bytes.now) }
{
    parts_in(alloc, bytes)
}
