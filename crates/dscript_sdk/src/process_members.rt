//! The members of processes.
ghost use Rattle.std.specs.Prelude.{◌≡◌, Ok, MatchResult, map, slice_get};
ghost use Rattle.std.specs.List.{list_any};
ghost use Rattle.std.specs.List.Sorted.{IsStrictlySortedBy};
ghost use Rattle.bx_tree.specs.Paths.{same_path};
ghost use Rattle.pip_model_types.specs.Outputs.{outdir_cmp};
ghost use Rattle.pip_model_types.specs.declared.outputs.OutDir.{OutDir as AnyDir};
ghost use Rattle.dscript_sdk_members.specs.Gives.{Gives, applied};
ghost use Rattle.dscript_sdk_values.specs.Outcomes.{Refuses};
ghost use Rattle.dscript_sdk.specs.ProcessMembers.{declared_by, directories_of_kind, files_of_kind};
ghost use Rattle.dscript_sdk.specs.ProcessMembers.{output_directory};
ghost use Rattle.dscript_sdk.specs.ProcessMembers.{output_file as declared_file, process_function};
ghost use Rattle.dscript_sdk_pips.specs.States.{over_tree};
ghost use Rattle.dscript_value.specs.Plain.{plain_of};

use bx_tree::{FileInput, Path};
use dscript_sdk_execute::has_output;
use dscript_sdk_members::Member;
use dscript_sdk_pips::SdkState;
use dscript_sdk_values::{SdkFault, first_argument, read_directory, read_path};
use dscript_value::{StaticDir, Value};
use pip_model_types::{OutDir, Pip, PipKind, pip_at};

// Whether a path is that of one of some directories, which rise.
fn has_directory(dirs: &[OutDir], path: &Path) -> bool
    requires { IsStrictlySortedBy outdir_cmp dirs.now }
    ensures { result ≡ list_any (same_path path.now) (map (λ (dir : AnyDir). dir.path) dirs.now) }
{
    dirs.binary_search_by(|dir| dir.path.cmp(path)).is_ok()
}

fn makes_file(kind: &PipKind, path: &Path) -> bool
    ensures { result ≡ list_any (same_path path.now) (files_of_kind kind.now) }
{
    match kind {
        PipKind::Process(process) => has_output(&process.outs, path),
        PipKind::Copy(_) | PipKind::Write(_) | PipKind::Seal(_) => false,
    }
}

fn makes_directory(kind: &PipKind, path: &Path) -> bool
    ensures { result ≡ list_any (same_path path.now) (directories_of_kind kind.now) }
{
    match kind {
        PipKind::Process(process) => has_directory(process.outdirs.dirs(), path),
        PipKind::Copy(_) | PipKind::Write(_) | PipKind::Seal(_) => false,
    }
}

fn declares_file(pips: &[Pip], number: u32, path: &Path) -> bool
    ensures { result ≡ list_any (same_path path.now) (declared_by files_of_kind (slice_get pips.now number)) }
{
    match pip_at(pips, number) {
        Some(pip) => makes_file(&pip.kind, path),
        None => false,
    }
}

fn declares_directory(pips: &[Pip], number: u32, path: &Path) -> bool
    ensures { result
        ≡ list_any (same_path path.now) (declared_by directories_of_kind (slice_get pips.now number)) }
{
    match pip_at(pips, number) {
        Some(pip) => makes_directory(&pip.kind, path),
        None => false,
    }
}

fn get_file(state: &SdkState, number: u32, args: &[Value]) -> Result<Value, SdkFault>
    ensures { MatchResult result
        (λ value. declared_file (over_tree state.now) number (map plain_of args.now) ≡ Ok (plain_of value))
        (λ fault. Refuses fault (declared_file (over_tree state.now) number (map plain_of args.now))) }
{
    let path = read_path(first_argument(args)?)?;
    if !declares_file(state.pips(), number, path) {
        return Err(SdkFault::BadArgument);
    }
    Ok(Value::File(FileInput::Made(path.share()?, number)))
}

fn get_directory(state: &SdkState, number: u32, args: &[Value]) -> Result<Value, SdkFault>
    ensures { MatchResult result
        (λ value. output_directory (over_tree state.now) number (map plain_of args.now) ≡ Ok (plain_of value))
        (λ fault. Refuses fault (output_directory (over_tree state.now) number (map plain_of args.now))) }
{
    let path = read_directory(first_argument(args)?)?;
    if !declares_directory(state.pips(), number, path) {
        return Err(SdkFault::BadArgument);
    }
    Ok(Value::Static(StaticDir::Opaque(number, path.share()?)))
}

/// The call of a member function of a process.
#[tactic(auto, unfolding(crate::specs::ProcessMembers::process_function))]
pub(crate) fn call_process(
    state: &SdkState,
    number: u32,
    member: Member,
    args: &[Value],
) -> Result<Option<Value>, SdkFault>
    ensures { Gives (applied (process_function (over_tree state.now) member number) (map plain_of args.now)) result }
{
    match member {
        Member::GetOutputFile => Ok(Some(get_file(state, number, args)?)),
        Member::GetOutputDirectory => Ok(Some(get_directory(state, number, args)?)),
        _ => Ok(None),
    }
}
