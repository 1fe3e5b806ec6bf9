//! The call itself.
ghost use Rattle.std.specs.Prelude.{◌≡◌, Ok, map, IfOk, IfErr, OnErr, MatchResult};
ghost use Rattle.dscript_sdk_values.specs.Outcomes.{Refuses};
ghost use Rattle.dscript_sdk_pips.specs.States.{over_tree, with_pip};
ghost use Rattle.pip_model_types.specs.declared.pip.PipKind.TheVariants as kinds;
ghost use Rattle.dscript_sdk_execute.specs.Execute as spec;
ghost use Rattle.dscript_sdk_execute.specs.Execute.{asked_process};
ghost use Rattle.dscript_value.specs.Plain as plain;
ghost use Rattle.dscript_value.specs.Plain.{plain_of};

use crate::clashes::unless_clashing;
use crate::process::process_of;
use crate::request::read_request;
use bx_tree::Path;
use dscript_sdk_pips::{SdkState, Site};
use dscript_sdk_values::SdkFault;
use dscript_value::Value;
use pip_model_types::{Pip, PipKind, ProcessDesc};
use std::alloc::Global;

// The process that the arguments of a call in a file ask for.
fn read_process(
    alloc: Global,
    file: &Path,
    pips: &[Pip],
    args: &[Value],
) -> Result<ProcessDesc, SdkFault>
    ensures { MatchResult result
        (λ process. asked_process file.now pips.now (map plain_of args.now) ≡ Ok process)
        (λ fault. Refuses fault (asked_process file.now pips.now (map plain_of args.now))) }
{
    let (taken, made) = read_request(alloc, args)?;
    let process = process_of(alloc, file, pips, taken, made)?;
    unless_clashing(process)
}

// A process pip, and its process.
fn add_process(state: &mut SdkState, site: &Site, process: ProcessDesc) -> Result<Value, SdkFault>
    ensures answer { IfOk result (λ value.
        with_pip site.now.file (kinds.Process process) plain.Process (over_tree state.old)
        ≡ Ok (plain_of value, over_tree state.new)) }
    ensures fault { IfErr result (λ fault.
        Refuses fault (with_pip site.now.file (kinds.Process process) plain.Process (over_tree state.old))) }
    ensures unchanged { OnErr result (state.new ≡ state.old) }
    ensures sources { state.new.sources ≡ state.old.sources }
{
    let number = state.add(site, PipKind::Process(process))?;
    Ok(Value::Process(number))
}

/// A process pip, and its process.
#[tactic(auto, unfolding(crate::specs::Execute::execute))]
pub fn execute(
    alloc: Global,
    state: &mut SdkState,
    site: &Site,
    args: &[Value],
) -> Result<Value, SdkFault>
    ensures answer { IfOk result (λ value.
        spec.execute site.now.file (map plain_of args.now) (over_tree state.old) ≡ Ok (plain_of value, over_tree state.new)) }
    ensures fault { IfErr result (λ fault.
        Refuses fault (spec.execute site.now.file (map plain_of args.now) (over_tree state.old))) }
    ensures unchanged { OnErr result (state.new ≡ state.old) }
    ensures sources { state.new.sources ≡ state.old.sources }
{
    let process = read_process(alloc, &site.file, state.pips(), args)?;
    add_process(state, site, process)
}
