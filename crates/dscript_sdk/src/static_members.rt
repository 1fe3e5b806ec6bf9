//! The members of static directories.
ghost use Rattle.std.specs.Prelude.{◌≡◌, ◌++◌, Ok, Some, None, find, map, slice_get};
ghost use Rattle.std.specs.Prelude.{IfOk, MatchOption, MatchResult};
ghost use Rattle.bx_tree.specs.Paths.{same_path};
ghost use Rattle.bx_tree.specs.declared.file_input.FileInput.TheVariants as inputs;
ghost use Rattle.dscript_sdk_calls.specs.Sources.{tree_answers};
ghost use Rattle.dscript_sdk_members.specs.Gives.{Gives, applied};
ghost use Rattle.dscript_sdk_pips.specs.States.{over_tree};
ghost use Rattle.dscript_sdk_values.specs.Answers.{list_answer};
ghost use Rattle.dscript_sdk_values.specs.Outcomes.{Refuses};
ghost use Rattle.dscript_sdk.specs.SealMembers.{ask_of_form, ask_of_kind, held_by, held_by_kind, held_by_pip, seal_ask};
ghost use Rattle.dscript_sdk.specs.SealMembers.{seal_members};
ghost use Rattle.dscript_sdk.specs.StaticMembers.{file_with, member_file};
ghost use Rattle.dscript_sdk.specs.StaticMembers.{seal_function, seal_function_ask, static_function};
ghost use Rattle.dscript_sdk.specs.StaticMembers.{static_function_ask, static_property};
ghost use Rattle.dscript_value.specs.Plain as plain;
ghost use Rattle.dscript_value.specs.Plain.{plain_of};
ghost use Rattle.bx_tree.specs.FileInputs.{input_path};

use bx_tree::{FileInput, Memory, Path, Tree};
use dscript_sdk_calls::{TreeAsk, find_below, find_directly_in};
use dscript_sdk_members::Member;
use dscript_sdk_pips::SdkState;
use dscript_sdk_values::{SdkFault, first_argument, list_value, read_path, share_file};
use dscript_value::{StaticDir, Value, static_path};
use pip_model_types::{PipKind, SealDesc, SealForm, pip_at};
use std::alloc::Global;

// Files like these.
fn share_files(alloc: Global, files: &[FileInput]) -> Result<Vec<FileInput>, Memory>
    ensures { IfOk result (λ copy. copy.items ≡ files.now) }
{
    let mut copy = Vec::new(alloc);
    'files: for file in files {
        copy.push(share_file(file)?)?;
    }
    Ok(copy)
}

// Source files as the files of a seal.
fn source_files(alloc: Global, paths: Vec<Path>) -> Result<Vec<FileInput>, Memory>
    ensures { IfOk result (λ files. files.items ≡ map inputs.Source paths.items) }
{
    let mut files = Vec::new(alloc);
    'paths: for path in paths {
        files.push(FileInput::Source(path))?;
    }
    Ok(files)
}

// The first of some files that has a path.
fn find_file<'a>(files: &'a [FileInput], path: &Path) -> Option<&'a FileInput>
    ensures { MatchOption result
        (file_with path.now files.now ≡ None)
        (λ file. file_with path.now files.now ≡ Some file.now) }
{
    'files: for file in files {
        if file.path() == path {
            return Some(file);
        }
    }
    None
}

// Files as values, in their order.
fn file_values(alloc: Global, files: &[FileInput]) -> Result<Vec<Value>, Memory>
    ensures { IfOk result (λ values. map plain_of values.items ≡ map plain.File files.now) }
{
    let mut values = Vec::new(alloc);
    'files: for file in files {
        values.push(Value::File(share_file(file)?))?;
    }
    Ok(values)
}

// The files that a seal holds: those that it lists, or source files below its root.
fn files_held(alloc: Global, tree: &Tree, seal: &SealDesc) -> Result<Vec<FileInput>, Memory>
    ensures { IfOk result (λ files. files.items
        ≡ held_by (tree_answers tree.now) seal.now.form seal.now.root seal.now.files) }
{
    match seal.form {
        SealForm::Full | SealForm::Partial => share_files(alloc, seal.files.files()),
        SealForm::SourceTop => {
            let paths = find_directly_in(alloc, tree, &seal.root)?;
            source_files(alloc, paths)
        }
        SealForm::SourceAll => {
            let paths = find_below(alloc, tree, &seal.root)?;
            source_files(alloc, paths)
        }
    }
}

fn files_of_kind(alloc: Global, tree: &Tree, kind: &PipKind) -> Result<Vec<FileInput>, Memory>
    ensures { IfOk result (λ files. files.items ≡ held_by_kind (tree_answers tree.now) kind.now) }
{
    match kind {
        PipKind::Seal(seal) => files_held(alloc, tree, seal),
        PipKind::Process(_) | PipKind::Copy(_) | PipKind::Write(_) => Ok(Vec::new(alloc)),
    }
}

// The members of the seal with a number, by path.
fn members_of_seal(alloc: Global, state: &SdkState, number: u32) -> Result<Vec<FileInput>, Memory>
    ensures { IfOk result (λ files. files.items ≡ seal_members (over_tree state.now) number) }
{
    match pip_at(state.pips(), number) {
        Some(pip) => files_of_kind(alloc, state.tree(), &pip.kind),
        None => Ok(Vec::new(alloc)),
    }
}

// The first of some files that has a path, shared.
fn share_file_with(files: &[FileInput], path: &Path) -> Result<Option<FileInput>, Memory>
    ensures { IfOk result (λ file. file ≡ file_with path.now files.now) }
{
    match find_file(files, path) {
        Some(file) => Ok(Some(share_file(file)?)),
        None => Ok(None),
    }
}

// The member of a seal that has a path. What a seal lists is not copied for it.
fn member_held(
    alloc: Global,
    tree: &Tree,
    seal: &SealDesc,
    path: &Path,
) -> Result<Option<FileInput>, Memory>
    ensures { IfOk result (λ file. file ≡ file_with path.now
        (held_by (tree_answers tree.now) seal.now.form seal.now.root seal.now.files)) }
{
    match seal.form {
        SealForm::Full | SealForm::Partial => share_file_with(seal.files.files(), path),
        SealForm::SourceTop | SealForm::SourceAll => {
            let files = files_held(alloc, tree, seal)?;
            share_file_with(files.as_slice(), path)
        }
    }
}

fn member_of_kind(
    alloc: Global,
    tree: &Tree,
    kind: &PipKind,
    path: &Path,
) -> Result<Option<FileInput>, Memory>
    ensures { IfOk result (λ file. file ≡ file_with path.now (held_by_kind (tree_answers tree.now) kind.now)) }
{
    match kind {
        PipKind::Seal(seal) => member_held(alloc, tree, seal, path),
        PipKind::Process(_) | PipKind::Copy(_) | PipKind::Write(_) => Ok(None),
    }
}

fn find_member(
    alloc: Global,
    state: &SdkState,
    number: u32,
    path: &Path,
) -> Result<Option<FileInput>, Memory>
    ensures { IfOk result (λ file. file ≡ file_with path.now (seal_members (over_tree state.now) number)) }
{
    match pip_at(state.pips(), number) {
        Some(pip) => member_of_kind(alloc, state.tree(), &pip.kind, path),
        None => Ok(None),
    }
}

fn get_file(alloc: Global, state: &SdkState, number: u32, args: &[Value]) -> Result<Value, SdkFault>
    ensures { MatchResult result
        (λ value. member_file (over_tree state.now) number (map plain_of args.now) ≡ Ok (plain_of value))
        (λ fault. Refuses fault (member_file (over_tree state.now) number (map plain_of args.now))) }
{
    let path = read_path(first_argument(args)?)?;
    match find_member(alloc, state, number, path)? {
        Some(file) => Ok(Value::File(file)),
        None => Err(SdkFault::BadArgument),
    }
}

fn get_content(alloc: Global, state: &SdkState, number: u32) -> Result<Value, SdkFault>
    ensures { MatchResult result
        (λ value. list_answer (map plain.File (seal_members (over_tree state.now) number)) ≡ Ok (plain_of value))
        (λ fault. Refuses fault (list_answer (map plain.File (seal_members (over_tree state.now) number)))) }
{
    let members = members_of_seal(alloc, state, number)?;
    let values = file_values(alloc, members.as_slice())?;
    list_value(alloc, values)
}

fn call_seal(
    alloc: Global,
    state: &SdkState,
    number: u32,
    member: Member,
    args: &[Value],
) -> Result<Option<Value>, SdkFault>
    ensures { Gives (applied (seal_function (over_tree state.now) member number) (map plain_of args.now)) result }
{
    match member {
        Member::GetFile => Ok(Some(get_file(alloc, state, number, args)?)),
        Member::GetContent => Ok(Some(get_content(alloc, state, number)?)),
        _ => Ok(None),
    }
}

/// The call of a member function of a static directory.
#[tactic(auto, unfolding(crate::specs::StaticMembers::static_function))]
pub(crate) fn call_static(
    alloc: Global,
    state: &SdkState,
    dir: &StaticDir,
    member: Member,
    args: &[Value],
) -> Result<Option<Value>, SdkFault>
    ensures { Gives (applied (static_function (over_tree state.now) member dir.now) (map plain_of args.now)) result }
{
    match dir {
        StaticDir::Seal(number, _) => call_seal(alloc, state, *number, member, args),
        StaticDir::Opaque(_, _) => Ok(None),
    }
}

/// A member of a static directory that is no function.
#[tactic(auto, unfolding(crate::specs::StaticMembers::static_property))]
pub(crate) fn member_of_static(dir: &StaticDir, member: Member) -> Result<Option<Value>, SdkFault>
    ensures { Gives (static_property member dir.now) result }
{
    match member {
        Member::Root => Ok(Some(Value::Directory(static_path(dir).share()?))),
        _ => Ok(None),
    }
}

// What is asked for the members of a seal.
fn ask_of_seal(seal: &SealDesc) -> Result<Option<TreeAsk>, Memory>
    ensures { IfOk result (λ ask. ask ≡ ask_of_form seal.now.form seal.now.root) }
{
    match seal.form {
        SealForm::Full | SealForm::Partial => Ok(None),
        SealForm::SourceTop | SealForm::SourceAll => Ok(Some(TreeAsk::Below(seal.root.share()?))),
    }
}

fn ask_of_pip(kind: &PipKind) -> Result<Option<TreeAsk>, Memory>
    ensures { IfOk result (λ ask. ask ≡ ask_of_kind kind.now) }
{
    match kind {
        PipKind::Seal(seal) => ask_of_seal(seal),
        PipKind::Process(_) | PipKind::Copy(_) | PipKind::Write(_) => Ok(None),
    }
}

// What is asked for the members of the seal with a number.
fn ask_for_members(state: &SdkState, number: u32) -> Result<Option<TreeAsk>, Memory>
    ensures { IfOk result (λ ask. ask ≡ seal_ask (over_tree state.now) number) }
{
    match pip_at(state.pips(), number) {
        Some(pip) => ask_of_pip(&pip.kind),
        None => Ok(None),
    }
}

// What the call of a member function of a seal asks.
fn ask_of_member(state: &SdkState, number: u32, member: Member) -> Result<Option<TreeAsk>, Memory>
    ensures { IfOk result (λ ask. ask ≡ seal_function_ask (over_tree state.now) member number) }
{
    match member {
        Member::GetFile => ask_for_members(state, number),
        Member::GetContent => ask_for_members(state, number),
        _ => Ok(None),
    }
}

/// What the call of a member function of a static directory asks.
pub(crate) fn ask_of_static(
    state: &SdkState,
    dir: &StaticDir,
    member: Member,
) -> Result<Option<TreeAsk>, Memory>
    ensures { IfOk result (λ ask. ask ≡ static_function_ask (over_tree state.now) member dir.now) }
{
    match dir {
        StaticDir::Seal(number, _) => ask_of_member(state, *number, member),
        _ => Ok(None),
    }
}
