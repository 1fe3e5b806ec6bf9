//! Whether what a slot holds is of now, byte by byte.
ghost use Rattle.std.specs.Prelude.{◌≡◌, ◌↔◌, ◌<◌, IfOk, IfSome, IsSome, IsTrue, Some, length, map, slice_get, true};
ghost use Rattle.pip_model_types.specs.Made.{made_files};
ghost use Rattle.pip_model_types.specs.declared.pip.ProcessDesc.{ProcessDesc as AnyProcess};
ghost use Rattle.pip_view_inputs.specs.Contents.{bytes_at, input_bytes, input_file};
ghost use Rattle.pip_view_inputs.specs.Plain.{desc_of, process_in};
ghost use Rattle.pip_view_inputs.specs.Results.{files_by};
ghost use Rattle.prints.specs.Processes.{numbered_from, with_pip};
ghost use Rattle.run_record.specs.Holding.{HoldsNow, IsSameWork};
ghost use Rattle.sched_board_slots.specs.SameProcesses.{AreSamePlaces, IsSameCall};
ghost use Rattle.memo_format.specs.Found.{IsFoundFor};
ghost use Rattle.sched_board_slots.specs.Slots.{HitHolds, own_desc, own_view};

use bx_tree::{FileInput, Memory, Path, Text};
use memo_format::Found;
use pip_model::{Desc, DirInput, EnvPair, MadeFile, OutDir, Plan, ProcessDesc, Sources};
use pip_view::PipView;
use pip_view_inputs::{Inputs, made_at, process_at};
use run_record::{Record, answers_hold};
use std::alloc::Global;

// ## Contents

// The bytes of a source file, none where there is no such file.
fn source_bytes<'a>(sources: &'a Sources, path: &Path) -> &'a [u8]
    ensures { result.now ≡ bytes_at sources.entry.now path.now }
{
    match sources.find(path) {
        Some(blob) => blob.bytes(),
        None => &[],
    }
}

// The bytes of a file that an input made, none where there is no such file.
fn made_bytes<'a>(inputs: &'a Inputs, pip: u32, path: &Path) -> &'a [u8]
    ensures { result.now ≡ bytes_at (files_by inputs.entry.now pip) path.now }
{
    match made_at(inputs, pip, path) {
        Some(blob) => blob.bytes(),
        None => &[],
    }
}

// The bytes of a file that a process takes.
fn taken_bytes<'a>(sources: &'a Sources, inputs: &'a Inputs, file: &FileInput) -> &'a [u8]
    ensures { result.now ≡ input_bytes sources.entry.now inputs.entry.now file.now }
{
    match file {
        FileInput::Source(path) => source_bytes(sources, path),
        FileInput::Made(path, pip) => made_bytes(inputs, *pip, path),
    }
}

// Whether bytes are the same.
fn are_same_bytes(a: &[u8], b: &[u8]) -> bool
    ensures { IsTrue result ↔ a.now ≡ b.now }
{
    a == b
}

// Whether a path is another.
fn is_same_path(a: &Path, b: &Path) -> bool
    ensures { IsTrue result ↔ a.now ≡ b.now }
{
    a == b
}

// Whether a file with its bytes is the one that a process takes.
fn is_taken(sources: &Sources, inputs: &Inputs, file: &FileInput, shown: &MadeFile) -> bool
    ensures { IsTrue result ↔ (shown.now.path, shown.now.blob) ≡ input_file sources.now inputs.now file.now }
{
    if !is_same_path(file.path(), &shown.path) {
        return false;
    }
    are_same_bytes(taken_bytes(sources, inputs, file), shown.blob.bytes())
}

// Whether files with their bytes are those that a process takes.
fn are_taken(sources: &Sources, inputs: &Inputs, files: &[FileInput], shown: &[MadeFile]) -> bool
    ensures { IsTrue result ↔ made_files shown.now ≡ map (input_file sources.now inputs.now) files.now }
{
    if files.len() != shown.len() {
        return false;
    }
    'files: for place in 0..files.len() {
        if !is_taken(sources, inputs, &files[place], &shown[place]) {
            return false;
        }
    }
    true
}

// ## What a process declares

// Whether a text has the same bytes as another.
fn is_same_text(a: &Text, b: &Text) -> bool
    ensures { IsTrue result ↔ a.now ≡ b.now }
{
    a.bytes() == b.bytes()
}

// Whether texts have the same bytes.
fn are_same_texts(a: &[Text], b: &[Text]) -> bool
    ensures { IsTrue result ↔ a.now ≡ b.now }
{
    if a.len() != b.len() {
        return false;
    }
    'texts: for place in 0..a.len() {
        if !is_same_text(&a[place], &b[place]) {
            return false;
        }
    }
    true
}

// Whether a variable has the same name and value as another.
fn is_same_variable(a: &EnvPair, b: &EnvPair) -> bool
    ensures { IsTrue result ↔ a.now ≡ b.now }
{
    if !is_same_text(&a.name, &b.name) {
        return false;
    }
    is_same_text(&a.value, &b.value)
}

// Whether variables have the same names and values.
fn are_same_variables(a: &[EnvPair], b: &[EnvPair]) -> bool
    ensures { IsTrue result ↔ a.now ≡ b.now }
{
    if a.len() != b.len() {
        return false;
    }
    'pairs: for place in 0..a.len() {
        if !is_same_variable(&a[place], &b[place]) {
            return false;
        }
    }
    true
}

// Whether a directory that is taken has the same form and path as another, whichever pips they are of.
fn is_same_dir(a: &DirInput, b: &DirInput) -> bool
    ensures { IsTrue result ↔ with_pip 0 a.now ≡ with_pip 0 b.now }
{
    let mine = a.rank();
    let other = b.rank();
    if mine != other {
        return false;
    }
    is_same_path(a.path(), b.path())
}

// Whether directories that are taken have the same forms and paths, whichever pips they are of.
fn are_same_dirs(a: &[DirInput], b: &[DirInput]) -> bool
    ensures { IsTrue result ↔ numbered_from 0 a.now ≡ numbered_from 0 b.now }
{
    if a.len() != b.len() {
        return false;
    }
    'dirs: for place in 0..a.len() {
        if !is_same_dir(&a[place], &b[place]) {
            return false;
        }
    }
    true
}

// Whether paths are the same, in order.
fn are_same_paths(a: &[Path], b: &[Path]) -> bool
    ensures { IsTrue result ↔ a.now ≡ b.now }
{
    a == b
}

// Whether output directories are the same, in order.
fn are_same_outdirs(a: &[OutDir], b: &[OutDir]) -> bool
    ensures { IsTrue result ↔ a.now ≡ b.now }
{
    a == b
}

// Whether the file of the console is this one.
fn is_console(console: &Option<Path>, path: &Path) -> bool
    ensures { IsTrue result ↔ console.now ≡ Some path.now }
{
    match console {
        Some(own) => is_same_path(own, path),
        None => false,
    }
}

// Whether files of the console are the same.
fn is_same_console(a: &Option<Path>, b: &Option<Path>) -> bool
    ensures { IsTrue result ↔ a.now ≡ b.now }
{
    match b {
        Some(path) => is_console(a, path),
        None => a.is_none(),
    }
}

// Whether processes call the same.
fn is_same_call(a: &ProcessDesc, b: &ProcessDesc) -> bool
    ensures { IsTrue result ↔ IsSameCall a.now b.now }
{
    if !is_same_path(&a.exe, &b.exe) {
        return false;
    }
    if !are_same_texts(a.args.texts(), b.args.texts()) {
        return false;
    }
    if !are_same_variables(a.env.pairs(), b.env.pairs()) {
        return false;
    }
    is_same_path(&a.dir, &b.dir)
}

// Whether processes take the same directories and declare the same outputs.
fn are_same_places(a: &ProcessDesc, b: &ProcessDesc) -> bool
    ensures { IsTrue result ↔ AreSamePlaces a.now b.now }
{
    if !are_same_dirs(a.dirs.dirs(), b.dirs.dirs()) {
        return false;
    }
    if !are_same_paths(a.outs.paths(), b.outs.paths()) {
        return false;
    }
    if !are_same_outdirs(a.outdirs.dirs(), b.outdirs.dirs()) {
        return false;
    }
    is_same_console(&a.console, &b.console)
}

// Whether a description is that of a process with the contents of its files.
fn is_work_of(
    sources: &Sources,
    inputs: &Inputs,
    process: &ProcessDesc,
    budget: u64,
    shown: &Desc,
) -> bool
    ensures { IsTrue result ↔ IsSameWork shown.now (desc_of sources.now inputs.now budget process.now) }
{
    if !is_same_call(&shown.process, process) {
        return false;
    }
    if !are_same_places(&shown.process, process) {
        return false;
    }
    let steps = shown.budget;
    if steps != budget {
        return false;
    }
    if !are_same_bytes(source_bytes(sources, &process.exe), shown.exe.bytes()) {
        return false;
    }
    are_taken(sources, inputs, process.files.files(), shown.files.files())
}

// ## Records

/// Whether the record of a run holds now: it is of the process that the pip is, with the contents of its files, and its
/// answers are what that process sees, byte by byte. Nothing is written or hashed.
pub fn holds_now(
    alloc: Global,
    plan: &Plan,
    sources: &Sources,
    pip: u32,
    inputs: &Inputs,
    ran: &Record,
) -> Result<bool, Memory>
    requires there { pip < length plan.now.pips }
    requires process { IsSome (process_in (slice_get plan.now.pips pip)) }
    ensures { IfOk result (λ holds. IfSome (process_in (slice_get plan.now.pips pip)) (λ (process : AnyProcess).
        holds ≡ true ↔ HoldsNow (own_desc plan.now sources.now inputs.now process)
        (own_view plan.now sources.now inputs.now pip) ran.now)) }
{
    let Some(process) = process_at(plan.pips(), pip) else {
        unreachable!()
    };
    if !is_work_of(sources, inputs, process, plan.tool_budget(), ran.desc()) {
        return Ok(false);
    }
    let mut view = PipView::new(alloc, plan, sources, pip, inputs)?;
    let paths = ran.paths();
    answers_hold(alloc, paths.asks(), ran.answers(), &mut view)
}

// ## Hits

// Whether something was found for a process with the contents of its files. It is false where what it was found for is not with
// it.
fn is_found_for(
    sources: &Sources,
    inputs: &Inputs,
    process: &ProcessDesc,
    budget: u64,
    found: &Found,
) -> bool
    ensures { IsTrue result → IsFoundFor found.now (desc_of sources.now inputs.now budget process.now) }
{
    match found.work() {
        Some(work) => is_work_of(sources, inputs, process, budget, work),
        None => false,
    }
}

/// Whether what a lookup found holds now: it was found for the process that the pip is, with the contents of its files, and its
/// answers are what that process sees, byte by byte. Nothing is written or hashed. It is false where that process is not with
/// what was found.
pub fn hit_holds(
    alloc: Global,
    plan: &Plan,
    sources: &Sources,
    pip: u32,
    inputs: &Inputs,
    found: &Found,
) -> Result<bool, Memory>
    requires there { pip < length plan.now.pips }
    requires process { IsSome (process_in (slice_get plan.now.pips pip)) }
    ensures { IfOk result (λ holds. holds ≡ true → IfSome (process_in (slice_get plan.now.pips pip)) (λ (process : AnyProcess).
        HitHolds (own_desc plan.now sources.now inputs.now process) (own_view plan.now sources.now inputs.now pip) found.now)) }
{
    let Some(process) = process_at(plan.pips(), pip) else {
        unreachable!()
    };
    if !is_found_for(sources, inputs, process, plan.tool_budget(), found) {
        return Ok(false);
    }
    let mut view = PipView::new(alloc, plan, sources, pip, inputs)?;
    let paths = found.paths();
    answers_hold(alloc, paths.asks(), found.answers(), &mut view)
}
