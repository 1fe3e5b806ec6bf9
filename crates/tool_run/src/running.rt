//! Runs of tools.
ghost use Rattle.std.specs.Prelude.{◌≡◌, ◌<◌, ◌^◌, Some, IfOk, OnSome, slice_get};
ghost use Rattle.std.specs.Option.{option_copied};
ghost use Rattle.observed.specs.declared.access.End.TheVariants as ends;
ghost use Rattle.tool_text.specs.Reading.{tool_of};
ghost use Rattle.tool_run.specs.Described.{described};
ghost use Rattle.tool_run.specs.Description.{answer_of, declared_at, given as given_by};
ghost use Rattle.tool_run.specs.Machine.{start};
ghost use Rattle.tool_run.specs.Run.{ended, run_after, run_of, turn};
ghost use Rattle.tool_run.specs.Seen.{Turns, seen};
ghost use Rattle.tool_run.specs.States.{machine_of};

use crate::effect::Effect;
use crate::state::State;
use bx_digest::Blob;
use bx_tree::Path;
use observed::{Access, Answer, Ask, AskKind, End, View};
use pip_model_types::{Desc, Made};
use std::alloc::{AllocError, Global};
use tool_text::{Instr, Tool};

/// What a run did: its accesses in order, the files that it wrote, what it said, how it ended, and how many
/// steps it took. What its own writes answered is no access.
#[derive(Drop)]
pub struct Ran {
    pub accesses: Vec<Access>,
    pub writes: Made,
    pub console: Vec<u8>,
    pub end: End,
    pub steps: u64,
}

// The bytes of the executable or of a declared file.
pub(crate) fn declared<'a>(desc: &'a Desc, path: &Path) -> Option<&'a Blob>
    ensures { option_copied result ≡ declared_at (described desc.entry.now) path.now }
{
    if desc.process.exe == *path {
        return Some(&desc.exe);
    }
    desc.files.find(path)
}

// What a declared file answers.
fn given(desc: &Desc, ask: &Ask) -> Result<Option<Answer>, AllocError>
    ensures { IfOk result (λ answer. answer ≡ given_by (described desc.now) ask.now) }
{
    let Some(blob) = declared(desc, &ask.path) else {
        return Ok(None);
    };
    match &ask.kind {
        AskKind::Read => Ok(Some(Answer::Content(blob.share()?))),
        AskKind::Probe => Ok(Some(Answer::File)),
        AskKind::List | AskKind::Match(_) => Ok(None),
    }
}

// Answers an ask: by the declared files first.
fn answer<V: View>(
    alloc: Global,
    desc: &Desc,
    view: &mut V,
    ask: &Ask,
) -> Result<Answer, AllocError>
    ensures answer { IfOk result (λ answer.
        answer ≡ answer_of (described desc.now) (V.answers view.old) ask.now) }
    ensures same { V.answers view.new ≡ V.answers view.old }
{
    match given(desc, ask)? {
        Some(answer) => Ok(answer),
        None => view.ask(alloc, ask),
    }
}

// Takes one instruction through what it does outside the machine, which goes to the end of the accesses.
#[inline(never)]
fn take_effect<V: View>(
    alloc: Global,
    desc: &Desc,
    view: &mut V,
    state: &mut State,
    instr: &Instr,
    accesses: &mut Vec<Access>,
) -> Result<Option<End>, AllocError>
    requires { state.old.place < 2 ^ 63 }
    ensures turn { IfOk result (λ end.
        Turns (turn (described desc.now) (V.answers view.old) (machine_of state.old) instr.now)
        (machine_of state.new) accesses.old.items accesses.new.items end) }
    ensures same { V.answers view.new ≡ V.answers view.old }
{
    match state.act(alloc, desc, instr)? {
        Effect::Goes => Ok(None),
        Effect::Asks(ask) => {
            let answer = answer(alloc, desc, view, &ask)?;
            let end = state.take_answer(alloc, instr, &ask, &answer)?;
            accesses.push(Access::Asked(ask, answer))?;
            Ok(end)
        }
        Effect::Wrote(path) => {
            accesses.push(Access::Wrote(path))?;
            Ok(None)
        }
        Effect::Refused(path) => {
            accesses.push(Access::WriteDenied(path))?;
            Ok(Some(End::Denied))
        }
        Effect::Stops(end) => Ok(Some(end)),
    }
}

// Takes one instruction: what it did goes to the end of the accesses.
fn take_turn<V: View>(
    alloc: Global,
    desc: &Desc,
    view: &mut V,
    state: &mut State,
    instr: &Instr,
    accesses: &mut Vec<Access>,
) -> Result<Option<End>, AllocError>
    requires { state.old.place < 2 ^ 63 }
    ensures turn { IfOk result (λ end.
        Turns (turn (described desc.now) (V.answers view.old) (machine_of state.old) instr.now)
        (machine_of state.new) accesses.old.items accesses.new.items end) }
    ensures same { V.answers view.new ≡ V.answers view.old }
{
    if state.go(alloc, instr)? {
        return Ok(None);
    }
    take_effect(alloc, desc, view, state, instr, accesses)
}

fn instr_at(tool: &Tool, place: usize) -> Option<&Instr>
    ensures at { option_copied result ≡ slice_get tool.entry.now place }
    ensures small { OnSome result (place < 2 ^ 63) }
{
    tool.lines().get(place)
}

// What a run did that has come to its end.
fn finished(
    alloc: Global,
    accesses: Vec<Access>,
    state: State,
    end: End,
    steps: u64,
) -> Result<Ran, AllocError>
    ensures { IfOk result (λ ran. seen ran
        ≡ run_after accesses.items steps (ended (machine_of state) end)) }
{
    let State {
        writes,
        console,
        ..
    } = state;
    Ok(Ran {
        accesses,
        writes: writes.into_made(alloc)?,
        console,
        end,
        steps,
    })
}

/// Runs a tool for a process: the tool is the one whose text the executable has. The view answers what
/// neither the run's own writes nor the declared files do.
pub fn run<V: View>(
    alloc: Global,
    tool: &Tool,
    desc: &Desc,
    view: &mut V,
) -> Result<Ran, AllocError>
    requires { tool_of desc.now.exe ≡ Some tool.now }
    ensures ran { IfOk result (λ ran. seen ran ≡ run_of (described desc.now) (V.answers view.old)) }
    ensures same { V.answers view.new ≡ V.answers view.old }
{
    let mut state = State::start(alloc)?;
    let mut accesses = Vec::new(alloc);
    let mut left = desc.budget;
    'turns: while let Some(instr) = instr_at(tool, state.place) {
        if left == 0 {
            return finished(alloc, accesses, state, End::Budget, desc.budget);
        }
        left -= 1;
        if let Some(end) = take_turn(alloc, desc, view, &mut state, instr, &mut accesses)? {
            return finished(alloc, accesses, state, end, desc.budget - left);
        }
    }
    finished(alloc, accesses, state, End::Exit(0), desc.budget - left)
}

/// The run of a process whose executable is no tool.
pub fn run_no_tool(alloc: Global) -> Result<Ran, AllocError>
    ensures { IfOk result (λ ran. seen ran ≡ ended start ends.BadProgram) }
{
    finished(
        alloc,
        Vec::new(alloc),
        State::start(alloc)?,
        End::BadProgram,
        0,
    )
}
