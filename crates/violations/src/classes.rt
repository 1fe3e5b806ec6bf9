//! What violation a denied access is.
ghost use Rattle.std.specs.Prelude.{◌≡◌, ◌<◌, IfOk, IfSome, is_some, length};
ghost use Rattle.bx_tree.specs.Trees.{file_at};
ghost use Rattle.pip_model_types.specs.Makers.{IsPipList};
ghost use Rattle.violations.specs.Verdicts.{alone as lone, with_pip};
ghost use Rattle.violations.specs.Classes as classes;
ghost use Rattle.violations.specs.Leading.{leads as walks_lead};

use crate::producing::least_unseen;
use crate::verdict::{DeedKind, Violation, ViolationKind};
use bx_tree::{Memory, Path};
use observed::{Access, Answer, Ask, AskKind};
use pip_model::{Plan, Sources};

// A violation that concerns no other pip.
fn alone(kind: ViolationKind, deed: DeedKind, path: &Path) -> Result<Violation, Memory>
    ensures { IfOk result (λ violation. violation ≡ lone kind deed path.now) }
{
    Ok(Violation {
        kind,
        path: path.share()?,
        deed,
        other: None,
    })
}

// A violation that concerns another pip too.
pub(crate) fn with_other(
    kind: ViolationKind,
    deed: DeedKind,
    path: &Path,
    other: u32,
) -> Result<Violation, Memory>
    ensures { IfOk result (λ violation. violation ≡ with_pip kind deed path.now other) }
{
    Ok(Violation {
        kind,
        path: path.share()?,
        deed,
        other: Some(other),
    })
}

// Whether edges lead from one pip to another.
fn leads(plan: &Plan, from: u32, to: u32) -> bool
    requires list { IsPipList plan.now.pips }
    requires from { from < length plan.now.pips }
    requires to { to < length plan.now.pips }
    ensures { result ≡ walks_lead plan.now.pips from to }
{
    plan.reaches(from, to)
}

// Which violation a denied look at what another pip can produce is.
fn look_kind(plan: &Plan, pip: u32, other: u32) -> ViolationKind
    requires list { IsPipList plan.now.pips }
    requires pip { pip < length plan.now.pips }
    requires other { other < length plan.now.pips }
    ensures { result ≡ classes.look_kind plan.now.pips pip other }
{
    if leads(plan, pip, other) {
        ViolationKind::UndeclaredOrderedRead
    } else if leads(plan, other, pip) {
        ViolationKind::UndeclaredReadCycle
    } else {
        ViolationKind::ReadRace
    }
}

// The least other pip that can produce a path by an output that is no input of the pip.
fn producer(plan: &Plan, pip: u32, path: &Path) -> Option<u32>
    ensures least { result ≡ classes.producer plan.now.pips pip path.now }
    ensures there { IfSome result (λ other. other < length plan.now.pips) }
    ensures list { IsPipList plan.now.pips }
{
    let _ = plan.pips();
    least_unseen(plan, pip, path)
}

// A denied look at a path that another pip can produce.
fn looked(plan: &Plan, pip: u32, deed: DeedKind, path: &Path) -> Result<Violation, Memory>
    requires { pip < length plan.now.pips }
    ensures { IfOk result (λ violation. violation
        ≡ classes.other_class plan.now.pips pip deed path.now (classes.producer plan.now.pips pip path.now)) }
{
    match producer(plan, pip, path) {
        Some(other) => with_other(look_kind(plan, pip, other), deed, path, other),
        None => alone(ViolationKind::ReadRace, deed, path),
    }
}

fn is_source(sources: &Sources, path: &Path) -> bool
    ensures { result ≡ is_some (file_at sources.now path.now) }
{
    sources.find(path).is_some()
}

// What violation a denied read is.
fn read(plan: &Plan, sources: &Sources, pip: u32, path: &Path) -> Result<Violation, Memory>
    requires { pip < length plan.now.pips }
    ensures { IfOk result (λ violation. violation
        ≡ classes.read_class plan.now.pips pip path.now (is_some (file_at sources.now path.now))) }
{
    if is_source(sources, path) {
        return alone(ViolationKind::MissingSourceDependency, DeedKind::Read, path);
    }
    looked(plan, pip, DeedKind::Read, path)
}

fn denied(plan: &Plan, sources: &Sources, pip: u32, ask: &Ask) -> Result<Option<Violation>, Memory>
    requires { pip < length plan.now.pips }
    ensures { IfOk result (λ violation. violation
        ≡ classes.ask_class plan.now.pips sources.now pip ask.now.kind ask.now.path) }
{
    match &ask.kind {
        AskKind::Read => Ok(Some(read(plan, sources, pip, &ask.path)?)),
        AskKind::Probe => Ok(Some(looked(plan, pip, DeedKind::Probe, &ask.path)?)),
        AskKind::List | AskKind::Match(_) => Ok(None),
    }
}

fn asked(
    plan: &Plan,
    sources: &Sources,
    pip: u32,
    ask: &Ask,
    answer: &Answer,
) -> Result<Option<Violation>, Memory>
    requires { pip < length plan.now.pips }
    ensures { IfOk result (λ violation. violation
        ≡ classes.answer_class plan.now.pips sources.now pip ask.now answer.now) }
{
    match answer {
        Answer::Denied => denied(plan, sources, pip, ask),
        Answer::Absent | Answer::Content(_) | Answer::File | Answer::Directory | Answer::Names(_) =>
            Ok(None),
    }
}

/// What violation an access of a pip is, if it was denied.
pub fn classify(
    plan: &Plan,
    sources: &Sources,
    pip: u32,
    access: &Access,
) -> Result<Option<Violation>, Memory>
    requires { pip < length plan.now.pips }
    ensures { IfOk result (λ violation. violation
        ≡ classes.class_of plan.now.pips sources.now pip access.now) }
{
    match access {
        Access::Asked(ask, answer) => asked(plan, sources, pip, ask, answer),
        Access::Wrote(_) => Ok(None),
        Access::WriteDenied(path) => Ok(Some(alone(
            ViolationKind::UndeclaredOutput,
            DeedKind::Write,
            path,
        )?)),
    }
}
