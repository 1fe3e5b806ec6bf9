//! The evaluation of a program.
ghost use Rattle.std.specs.Prelude.{◌≡◌, map, Err, IfErr, IfOk};
ghost use Rattle.pip_model_types.specs.Makers.{IsPipList};
ghost use Rattle.dscript_program.specs.Views.{program_data};
ghost use Rattle.dscript_sdk_calls.specs.Sources.{tree_answers};
ghost use Rattle.dscript_eval_meaning.specs.Answers.{Asks, Builds, Stops};
ghost use Rattle.dscript_eval_meaning.specs.Meaning.{Unnumbered, meaning};
ghost use Rattle.dscript_eval_meaning.specs.declared.fault.EvalFault.TheVariants as eval_faults;
ghost use Rattle.dscript_eval.specs.Tops.{IsAnsweredAs, first_view};
ghost use Rattle.dscript_eval_frames.specs.Codes.{code_data};
ghost use Rattle.dscript_eval_frames.specs.Views.{seen};

use crate::running::run;
use bx_tree::{Memory, Tree};
use dscript_eval_frames::{
    Code, Frame, Machine, StmtWork, Stop, Work, all_waiting, codes_of, path_of,
};
use dscript_eval_meaning::{EvalFault, MAX_OPEN_CALLS};
use dscript_program::Program;
use dscript_sdk::{SdkState, TreeAsk};
use dscript_value::Value;
use pip_model_types::PipList;
use std::alloc::Global;

/// The pips of a program, and what it asked of the source tree, in the order of its calls.
#[derive(Drop)]
pub struct Asked {
    pub pips: PipList,
    pub asks: Vec<TreeAsk>,
}

// The machine before the first step.
fn start<'a>(
    alloc: Global,
    program: &'a Program,
    codes: &'a [Code<'a>],
    tree: &'a Tree,
    budget: u64,
) -> Result<Machine<'a>, Memory>
    requires { map code_data codes.now ≡ (program_data program.now).functions }
    ensures { IfOk result (λ machine. seen machine
        ≡ first_view (program_data program.entry.now) (tree_answers tree.entry.now) budget) }
{
    let constants = all_waiting(alloc, program)?;
    let calls = SdkState::new(alloc, tree)?;
    let mut work = Vec::new(alloc);
    work.push(Work::Stmt(StmtWork::Demands(0, 0)))?;
    Ok(Machine {
        alloc,
        program,
        codes,
        work,
        given: Value::Undefined,
        openable: MAX_OPEN_CALLS,
        frame: Frame::of_constant(alloc, 0),
        constants,
        calls,
        left: budget,
    })
}

// The pips and the asks that calls left.
fn into_asked(machine: Machine<'_>) -> Asked
    requires { IsPipList (seen machine).state.calls.pips }
    ensures pips { result.pips ≡ (seen machine.entry).state.calls.pips }
    ensures asks { result.asks.items ≡ (seen machine.entry).state.calls.asks }
{
    let Machine {
        work,
        given,
        frame,
        constants,
        calls,
        ..
    } = machine;
    drop(work);
    drop(given);
    drop(frame);
    drop(constants);
    let (pips, asks) = calls.into_parts();
    Asked {
        pips: PipList::of(pips),
        asks,
    }
}

// A fault with the path of its file.
fn fault_of(alloc: Global, program: &Program, stop: Stop) -> EvalFault
    ensures { IsAnsweredAs (program_data program.now) stop result }
{
    match stop {
        Stop::Memory => EvalFault::Memory,
        Stop::Fault(kind, file, message) => match path_of(alloc, program, file) {
            Ok(file) => EvalFault::Fault {
                kind,
                file,
                message,
            },
            Err(_) => EvalFault::Memory,
        },
    }
}

/// The pips of a program over source files within a budget of steps, with what it asked of them in order, or
/// its first fault. A program that would leave more pips than can be numbered is out of memory.
pub fn evaluate_asked(
    alloc: Global,
    program: &Program,
    tree: &Tree,
    budget: u64,
) -> Result<Asked, EvalFault>
    ensures asked { IfOk result (λ asked.
        Asks (program_data program.now) tree.now budget asked.pips asked.asks.items) }
    ensures pips { IfOk result (λ asked. Builds (program_data program.now) tree.now budget asked.pips) }
    ensures fault { IfErr result (λ fault. Stops (program_data program.now) tree.now budget fault) }
    ensures unnumbered { meaning (program_data program.now) tree.now budget ≡ Err Unnumbered
        → result ≡ Err eval_faults.Memory }
{
    let codes = codes_of(alloc, program)?;
    let mut machine = start(alloc, program, codes.as_slice(), tree, budget)?;
    match run(&mut machine) {
        Ok(()) => Ok(into_asked(machine)),
        Err(stop) => {
            drop(machine);
            Err(fault_of(alloc, program, stop))
        }
    }
}

/// The pips of a program over source files within a budget of steps, or its first fault. A program that would
/// leave more pips than can be numbered is out of memory.
pub fn evaluate(
    alloc: Global,
    program: &Program,
    tree: &Tree,
    budget: u64,
) -> Result<PipList, EvalFault>
    ensures pips { IfOk result (λ pips. Builds (program_data program.now) tree.now budget pips) }
    ensures fault { IfErr result (λ fault. Stops (program_data program.now) tree.now budget fault) }
    ensures unnumbered { meaning (program_data program.now) tree.now budget ≡ Err Unnumbered
        → result ≡ Err eval_faults.Memory }
{
    match evaluate_asked(alloc, program, tree, budget) {
        Ok(asked) => Ok(asked.pips),
        Err(fault) => Err(fault),
    }
}
