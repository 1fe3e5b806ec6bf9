//! The ambient calls by name.
ghost use Rattle.std.specs.Prelude.{◌≡◌, Ok, map, IfOk, IfErr, OnErr};
ghost use Rattle.dscript_sdk_values.specs.Outcomes.{Refuses};
ghost use Rattle.dscript_sdk_calls.specs.Globs.{glob_files as files_of_glob};
ghost use Rattle.dscript_sdk_pips.specs.States.{asking, over_tree};
ghost use Rattle.dscript_sdk.specs.Calls.{call_of};
ghost use Rattle.dscript_value.specs.Plain.{plain_of};

use dscript_program::Ambient;
use dscript_sdk_calls::{
    artifact_input, artifact_none, artifact_output, cmd_argument, cmd_flag, cmd_option,
    contract_assert, contract_fail, glob_files,
};
use dscript_sdk_execute::execute;
use dscript_sdk_pips::{
    SdkState, Site, copy_file, new_output_directory, seal_directory, seal_partial_directory,
    seal_source_directory, write_all_lines, write_all_text,
};
use dscript_sdk_values::SdkFault;
use dscript_value::Value;
use std::alloc::Global;

// A glob, whose ask is noted.
fn glob(alloc: Global, state: &mut SdkState, deep: bool, args: &[Value]) -> Result<Value, SdkFault>
    ensures answer { IfOk result (λ value.
        asking (files_of_glob deep (map plain_of args.now) (over_tree state.old).answers) (over_tree state.old)
        ≡ Ok (plain_of value, over_tree state.new)) }
    ensures fault { IfErr result (λ fault. Refuses fault
        (asking (files_of_glob deep (map plain_of args.now) (over_tree state.old).answers) (over_tree state.old))) }
    ensures unchanged { OnErr result (state.new ≡ state.old) }
    ensures sources { state.new.sources ≡ state.old.sources }
{
    let (files, ask) = glob_files(alloc, state.tree(), deep, args)?;
    state.note(ask)?;
    Ok(files)
}

/// What an ambient call gives at its arguments, or its first fault. A fault leaves the state as it was.
#[tactic(auto, using(crate::proofs::Unchanged::answered, crate::proofs::Unchanged::refused), unfolding(crate::specs::Calls::call_of))]
pub fn call(
    alloc: Global,
    state: &mut SdkState,
    site: &Site,
    name: Ambient,
    args: &[Value],
) -> Result<Value, SdkFault>
    ensures answer { IfOk result (λ value.
        call_of name site.now.file (map plain_of args.now) (over_tree state.old)
        ≡ Ok (plain_of value, over_tree state.new)) }
    ensures fault { IfErr result (λ fault.
        Refuses fault (call_of name site.now.file (map plain_of args.now) (over_tree state.old))) }
    ensures unchanged { OnErr result (state.new ≡ state.old) }
    ensures sources { state.new.sources ≡ state.old.sources }
{
    match name {
        Ambient::WriteAllText => write_all_text(alloc, state, site, args),
        Ambient::WriteAllLines => write_all_lines(alloc, state, site, args),
        Ambient::CopyFile => copy_file(alloc, state, site, args),
        Ambient::SealDirectory => seal_directory(alloc, state, site, args),
        Ambient::SealPartialDirectory => seal_partial_directory(alloc, state, site, args),
        Ambient::SealSourceDirectory => seal_source_directory(alloc, state, site, args),
        Ambient::Execute => execute(alloc, state, site, args),
        Ambient::NewOutputDirectory => new_output_directory(alloc, state, site, args),
        Ambient::CmdArgument => cmd_argument(alloc, args),
        Ambient::CmdOption => cmd_option(alloc, args),
        Ambient::CmdFlag => cmd_flag(alloc, args),
        Ambient::ArtifactInput => artifact_input(alloc, args),
        Ambient::ArtifactOutput => artifact_output(args),
        Ambient::ArtifactNone => artifact_none(args),
        Ambient::Fail => contract_fail(alloc, args),
        Ambient::Assert => contract_assert(alloc, args),
        Ambient::Requires => contract_assert(alloc, args),
        Ambient::Glob => glob(alloc, state, false, args),
        Ambient::GlobRecursive => glob(alloc, state, true, args),
    }
}
