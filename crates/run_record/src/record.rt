//! Records of runs, each with the answers that it depends on.
ghost use Rattle.std.specs.Prelude.{◌≡◌, ◌≢◌, ◌↔◌, IsTrue, IfOk, IfSome, IfNone, length, option_map};
ghost use Rattle.std.specs.Arc.{arc_value};
ghost use Rattle.tool_run.specs.Seen.{seen};
ghost use Rattle.tool_run.specs.Described.{described};
ghost use Rattle.tool_run.specs.Run.{path_set};
ghost use Rattle.run_record.specs.Answered.{answered};
ghost use Rattle.run_record.specs.Digests.{IsWeakOf};
ghost use Rattle.run_record.specs.Facts.{IsRun, Replays, Sound, run_for};
ghost use Rattle.run_record.specs.Outcomes.{outcome_of};

use crate::answered::Stored;
use crate::answers::given_to;
use crate::outcome::{Outcome, judge};
use crate::tools::Tools;
use crate::trace::{Trace, are_same_paths};
use bx_io::Gate;
use observed::{Access, Answer, PathSet, View};
use pip_model_types::Desc;
use prints::Printed;
use std::alloc::{AllocError, Global};
use std::marker::Model;
use std::sync::Arc;
use tool_run::{Ran, accesses_hold, noninterference, path_set_of, run, run_no_tool};

// What a record holds, which is the run on its own answers. The accesses are not kept: that run gives them.
#[derive(Drop)]
struct RecordParts {
    desc: Desc,
    trace: Arc<Trace>,
    outcome: Outcome,
}

impl Model for RecordParts {
    ghost use Rattle.std.specs.Arc.{arc_value};
    ghost use Rattle.run_record.specs.Facts.{Facts, Sound};
    ghost use Rattle.run_record.specs.Traces.{facts_of};

    ghost Value = { Facts };

    ghost view = { λ r. facts_of r.desc (arc_value r.trace) r.outcome };

    ghost invariant = { λ r. Sound (facts_of r.desc (arc_value r.trace) r.outcome) };
}

/// A run of a process, with an answer to each ask of its path set: the run on these answers alone has
/// this path set, these accesses and this outcome. It is shared. With it may be the weak text of the process, where that was
/// written for a lookup; contracts see the run.
#[derive(Drop)]
pub struct Record {
    parts: Arc<RecordParts>,
    weak: Option<Arc<Printed>>,
}

impl Model for Record {
    ghost use Rattle.std.specs.Arc.{arc_value};
    ghost use Rattle.std.specs.Prelude.{IfSome};
    ghost use Rattle.run_record.specs.Digests.{IsWeakOf};
    ghost use Rattle.run_record.specs.Facts.{Facts};

    ghost Value = { Facts };

    ghost view = { λ r. arc_value r.parts };

    ghost invariant = { λ r. IfSome r.weak (λ w. IsWeakOf (arc_value r.parts).desc (arc_value w)) };
}

// A weak text, shared, if there is one.
fn share_weak(weak: &Option<Arc<Printed>>) -> Result<Option<Arc<Printed>>, AllocError>
    ensures { IfOk result (λ shared. option_map arc_value shared ≡ option_map arc_value weak.now) }
{
    match weak {
        Some(weak) => Ok(Some(weak.clone()?)),
        None => Ok(None),
    }
}

impl Record {
    /// The record, shared.
    pub fn share(&self) -> Result<Record, AllocError>
        ensures { IfOk result (λ shared. shared ≡ self.now) }
    {
        Ok(Record {
            parts: self.parts.clone()?,
            weak: share_weak(&self.weak)?,
        })
    }

    /// The record with the weak text of its process.
    pub fn with_weak(self, alloc: Global, weak: Printed) -> Result<Record, AllocError>
        requires { IsWeakOf self.desc weak }
        ensures { IfOk result (λ r. r ≡ self) }
    {
        let weak = Arc::new(alloc, weak)?;
        Ok(Record {
            parts: self.parts,
            weak: Some(weak),
        })
    }

    /// The weak text of the process, if it is there.
    pub fn weak(&self) -> Option<&Printed>
        ensures { IfSome result (λ weak. IsWeakOf self.now.desc weak.now) }
    {
        match &self.weak {
            Some(weak) => Some(&**weak),
            None => None,
        }
    }

    /// The process. A record is the run on its own answers.
    pub fn desc(&self) -> &Desc
        ensures value { result.now ≡ self.now.desc }
        ensures sound { Sound self.now }
    {
        &self.parts.desc
    }

    /// The path set.
    pub fn paths(&self) -> &PathSet
        ensures { result.now ≡ self.now.paths }
    {
        &self.parts.trace.paths
    }

    /// The answers, one to each ask of the path set, in its order.
    pub fn answers(&self) -> &[Answer]
        ensures value { result.now ≡ self.now.answers }
        ensures number { length result.now ≡ length self.now.paths }
    {
        self.parts.trace.answers.as_slice()
    }

    /// The accesses, in order. They are not kept: the tool runs again, on the record's own answers.
    pub fn accesses(&self, alloc: Global) -> Result<Vec<Access>, AllocError>
        ensures { IfOk result (λ accesses. accesses.items ≡ self.now.accesses) }
    {
        let mut view = Stored::new(self.paths(), self.answers());
        let ran = run_process(alloc, &mut Tools::new(alloc), self.desc(), &mut view)?;
        Ok(ran.accesses)
    }

    /// What the run came to.
    pub fn outcome(&self) -> &Outcome
        ensures { result.now ≡ self.now.outcome }
    {
        &self.parts.outcome
    }
}

// Runs the tool of a process, if its executable is one.
fn run_process<V: View>(
    alloc: Global,
    tools: &mut Tools,
    desc: &Desc,
    view: &mut V,
) -> Result<Ran, AllocError>
    ensures ran { IfOk result (λ ran. seen ran ≡ run_for desc.now (V.answers view.old)) }
    ensures same { V.answers view.new ≡ V.answers view.old }
{
    let read = tools.of(alloc, &desc.process.exe, &desc.exe)?;
    match read.tool() {
        Some(tool) => run(alloc, tool, desc, view),
        None => run_no_tool(alloc),
    }
}

// The parts of the record of a run on a view.
fn run_parts<V: View>(
    alloc: Global,
    tools: &mut Tools,
    desc: Desc,
    view: &mut V,
) -> Result<RecordParts, AllocError>
    ensures ran { IfOk result (λ made. IsRun made desc (V.answers view.old)) }
    ensures meaning { V.answers view.new ≡ V.answers view.old }
{
    noninterference();
    accesses_hold();
    let ran = run_process(alloc, tools, &desc, view)?;
    let paths = path_set_of(alloc, &desc, &ran.accesses)?;
    let answers = given_to(alloc, &ran.accesses, paths.asks())?;
    let outcome = judge(alloc, &desc, &ran)?;
    let trace = tools.share(alloc, Trace { paths, answers })?;
    Ok(RecordParts {
        desc,
        trace,
        outcome,
    })
}

/// Passes the gate once, and runs the tool of a process on a view.
pub fn execute<V: View, G: Gate>(
    alloc: Global,
    desc: Desc,
    pip: u32,
    view: &mut V,
    gate: &G,
) -> Result<Record, AllocError>
    ensures ran { IfOk result (λ made. IsRun made desc (V.answers view.old)) }
    ensures meaning { V.answers view.new ≡ V.answers view.old }
{
    execute_with(alloc, &mut Tools::new(alloc), desc, pip, view, gate)
}

/// The same with tools that were read before: the text of the tool is read where it is not among them.
pub fn execute_with<V: View, G: Gate>(
    alloc: Global,
    tools: &mut Tools,
    desc: Desc,
    pip: u32,
    view: &mut V,
    gate: &G,
) -> Result<Record, AllocError>
    ensures ran { IfOk result (λ made. IsRun made desc (V.answers view.old)) }
    ensures meaning { V.answers view.new ≡ V.answers view.old }
{
    gate.pass(pip);
    let parts = run_parts(alloc, tools, desc, view)?;
    Ok(Record {
        parts: Arc::new(alloc, parts)?,
        weak: None,
    })
}

/// Passes the gate once, runs the tool of a process on a view, and keeps the outcome alone.
pub fn outcome_of_run<V: View, G: Gate>(
    alloc: Global,
    desc: &Desc,
    pip: u32,
    view: &mut V,
    gate: &G,
) -> Result<Outcome, AllocError>
    ensures outcome { IfOk result (λ outcome. outcome
        ≡ outcome_of (described desc.now) (run_for desc.now (V.answers view.old))) }
    ensures meaning { V.answers view.new ≡ V.answers view.old }
{
    gate.pass(pip);
    let ran = run_process(alloc, &mut Tools::new(alloc), desc, view)?;
    judge(alloc, desc, &ran)
}

// The parts of the record of a run on stored answers.
fn replayed_parts(
    alloc: Global,
    desc: Desc,
    paths: &PathSet,
    answers: Vec<Answer>,
) -> Result<Option<RecordParts>, AllocError>
    requires { length answers.items ≡ length paths.now }
    ensures found { IfOk result (λ found. IfSome found (λ made.
        Replays made desc paths.now answers.items)) }
    ensures none { IfOk result (λ found. IfNone found
        (path_set (described desc) (run_for desc (answered paths.now answers.items)).accesses ≢ paths.now)) }
{
    let mut view = Stored::new(paths, &answers);
    let ran = run_process(alloc, &mut Tools::new(alloc), &desc, &mut view)?;
    let asked = path_set_of(alloc, &desc, &ran.accesses)?;
    if !are_same_paths(&asked, paths) {
        return Ok(None);
    }
    let outcome = judge(alloc, &desc, &ran)?;
    let trace = Trace {
        paths: asked,
        answers,
    };
    Ok(Some(RecordParts {
        desc,
        trace: Arc::new(alloc, trace)?,
        outcome,
    }))
}

/// Runs the tool of a process on stored answers: none where the run asks for something else or has another
/// path set. There are as many answers as asks.
pub fn replay(
    alloc: Global,
    desc: Desc,
    paths: &PathSet,
    answers: Vec<Answer>,
) -> Result<Option<Record>, AllocError>
    requires { length answers.items ≡ length paths.now }
    ensures found { IfOk result (λ found. IfSome found (λ made.
        Replays made desc paths.now answers.items)) }
    ensures none { IfOk result (λ found. IfNone found
        (path_set (described desc) (run_for desc (answered paths.now answers.items)).accesses ≢ paths.now)) }
{
    match replayed_parts(alloc, desc, paths, answers)? {
        Some(parts) => Ok(Some(Record {
            parts: Arc::new(alloc, parts)?,
            weak: None,
        })),
        None => Ok(None),
    }
}
