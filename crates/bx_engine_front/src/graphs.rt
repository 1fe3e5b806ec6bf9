//! A plan whose pips may be taken from a store of graphs.
//!
//! The modules of the tree are always found. Where types are to be checked, the project files are read and their types are
//! checked before the store is asked. Where an entry of the store is usable, its pips are taken; without a check of types no
//! project file is read then. Otherwise the program is evaluated, and what evaluation made is kept. The rules of the graph are
//! checked in both cases.

ghost use Rattle.std.specs.Prelude.{◌≡◌, ◌≢◌, IfOk, IsSome, MatchResult, Some, if◌then◌else◌, true, false, ⊤};
ghost use Rattle.bx_io.specs.Holdings.{Holdings, Keeps, held_in};
ghost use Rattle.bx_tree.specs.Bundle.{IsInSize};
ghost use Rattle.bx_tree.specs.Trees.{IsTree};
ghost use Rattle.dscript_names_workspace.specs.Finding.{Finds};
ghost use Rattle.dscript_names_workspace.specs.Workspaces.{Found};
ghost use Rattle.dscript_program.specs.Views.{program_data};
ghost use Rattle.dscript_program.specs.Workspaces.{modules_of};
ghost use Rattle.graph_check.specs.Rules.{KeepsRules};
ghost use Rattle.graph_memo.specs.Finding.{IsFound};
ghost use Rattle.graph_memo.specs.Keeping.{KeepsAll, KeepsUpTo, made_by};
ghost use Rattle.graph_texts.specs.Keys.{HasKey};
ghost use Rattle.two_phase.specs.Calls.{KeeperCall};
ghost use Rattle.build_report.specs.declared.counts.GraphLine.TheVariants as lines;
ghost use Rattle.bx_engine_front.specs.Faults.{IsRefused};
ghost use Rattle.bx_engine_front.specs.Graphs.{EvaluatedTells, EvaluatesIn, FairGraphs, FromGraphs, GraphsLeft};
ghost use Rattle.bx_engine_front.specs.Graphs.{IsTypedIn, RefusesBy, TellsGraphs, typed_data, work_in};
ghost use Rattle.bx_engine_front.specs.Specifications.{IsProgramOf, MakesPips, PassesTypes, Plans};
ghost use Rattle.bx_engine_front.specs.StoreChanges.{change_of};

use crate::fault::FrontFault;
use crate::front::{FrontEnd, checked, let_go, planned, program_in, workspace_of};
use crate::limits::Limits;
use crate::refusing::{evaluation_refusal, file_refusal};
use build_report::GraphLine;
use bx_io::Keeper;
use bx_tree::{Memory, Tree};
use dscript_eval::{Asked, evaluate_asked};
use dscript_eval_meaning::meaning_over_sources;
use dscript_program::{Program, Workspace};
use graph_memo::{
    GraphFound, SaveResult, find_graph, keep_graph, keeps_stay_honest, kept_is_usable,
};
use graph_memo_meaning::graphs_hit;
use pip_model::PipList;
use std::alloc::{AllocError, Global};

/// The plan of a build, and where its pips came from.
#[derive(Drop)]
pub struct GraphPlan {
    pub end: FrontEnd,
    pub line: GraphLine,
}

// Pips, and where they came from.
#[derive(Drop)]
struct Sourced {
    pips: PipList,
    line: GraphLine,
}

// The program of the modules of a tree, whose types pass, where types are to be checked; none where they are not.
fn typed_in(
    alloc: Global,
    work: &Workspace,
    tree: &Tree,
    limits: &Limits,
) -> Result<Option<Program>, FrontFault>
    requires size { IsInSize tree.now }
    requires found { Finds tree.now (Found (modules_of work.now)) }
    ensures { MatchResult result
        (λ typed. IsTypedIn limits.now tree.now (modules_of work.now) (typed_data typed))
        (λ fault. IsRefused limits.now tree.now fault) }
{
    if !limits.types {
        return Ok(None);
    }
    match program_in(alloc, tree, work) {
        Ok(program) => {
            checked(alloc, &program, tree, limits)?;
            Ok(Some(program))
        }
        Err(fault) => Err(file_refusal(alloc, fault)),
    }
}

// What the store has for the modules of a tree.
fn look_up<M: Keeper>(
    alloc: Global,
    work: &Workspace,
    tree: &Tree,
    limits: &Limits,
    graphs: &mut M,
) -> Result<GraphFound, Memory>
    ensures key { IfOk result (λ found. found ≢ GraphFound.Memory
        → HasKey limits.now.eval_budget (modules_of work.now)) }
    ensures found { IfOk result (λ found. (G : Holdings) → held_in (M.known graphs.old) ≡ Some G
        → IsSome (held_in (M.known graphs.new))
        → IsFound G (work_in limits.now tree.now (modules_of work.now)) found) }
    ensures known { Keeps (M.known graphs.old) (M.known graphs.new) }
    ensures bound { M.bound graphs.new ≡ M.bound graphs.old }
    ensures faults { M.faults graphs.new ≡ M.faults graphs.old }
    ensures cause { result ≡ Ok GraphFound.Fault → M.bound graphs.old ≡ Some 0 → ⊥ }
{
    let mut reader = graphs.reader(alloc)?;
    let found = find_graph(alloc, &mut reader, work, tree, limits.eval_budget);
    graphs.close(reader);
    Ok(found)
}

// What a program makes, which is that of the modules of a tree and passes the check of its types, and what it asked of the
// tree.
fn evaluated_asked(
    alloc: Global,
    program: Program,
    work: &Workspace,
    tree: &Tree,
    limits: &Limits,
) -> Result<Asked, FrontFault>
    requires found { Finds tree.now (Found (modules_of work.now)) }
    requires program { IsProgramOf tree.now (modules_of work.now) (program_data program) }
    requires types { PassesTypes limits.now (program_data program) }
    ensures { MatchResult result
        (λ asked. EvaluatesIn limits.now tree.now (modules_of work.now) (made_by asked))
        (λ fault. IsRefused limits.now tree.now fault) }
{
    match evaluate_asked(alloc, &program, tree, limits.eval_budget) {
        Ok(asked) => {
            let_go(Some(program), &asked.pips);
            Ok(asked)
        }
        Err(fault) => Err(evaluation_refusal(alloc, fault)),
    }
}

// What the modules of a tree make, and what they asked of the tree. Their program is read, where it was not read before.
fn asked_in(
    alloc: Global,
    work: &Workspace,
    tree: &Tree,
    limits: &Limits,
    typed: Option<Program>,
) -> Result<Asked, FrontFault>
    requires size { IsInSize tree.now }
    requires found { Finds tree.now (Found (modules_of work.now)) }
    requires typed { IsTypedIn limits.now tree.now (modules_of work.now) (typed_data typed) }
    ensures { MatchResult result
        (λ asked. EvaluatesIn limits.now tree.now (modules_of work.now) (made_by asked))
        (λ fault. IsRefused limits.now tree.now fault) }
{
    match typed {
        Some(program) => evaluated_asked(alloc, program, work, tree, limits),
        None => match program_in(alloc, tree, work) {
            Ok(program) => evaluated_asked(alloc, program, work, tree, limits),
            Err(fault) => Err(file_refusal(alloc, fault)),
        },
    }
}

// Keeps what was evaluated. Gives whether all was put.
fn keep<M: Keeper>(
    alloc: Global,
    work: &Workspace,
    tree: &Tree,
    limits: &Limits,
    asked: &Asked,
    graphs: &mut M,
) -> Result<bool, Memory>
    ensures kept { result ≡ Ok true → KeepsAll (M.known graphs.old) (M.known graphs.new)
        (work_in limits.now tree.now (modules_of work.now)) (made_by asked.now) }
    ensures first { KeepsUpTo (M.known graphs.old) (M.known graphs.new)
        (work_in limits.now tree.now (modules_of work.now)) (made_by asked.now) }
    ensures keeper { KeeperCall (M.bound graphs.old) (M.bound graphs.new) (M.faults graphs.old)
        (M.faults graphs.new) (result ≡ Ok false) }
{
    match keep_graph(alloc, graphs, work, tree, limits.eval_budget, asked) {
        SaveResult::Saved => Ok(true),
        SaveResult::Fault => Ok(false),
        SaveResult::Memory => Err(AllocError),
    }
}

// The line of pips that were evaluated, where a reader failed before or not, and all was put or not.
fn line_if(failed: bool, kept: bool) -> GraphLine
    ensures { result ≡ (if failed then lines.Fault else (if kept then lines.Ran else lines.Fault)) }
{
    if failed {
        return GraphLine::Fault;
    }
    if kept {
        GraphLine::Ran
    } else {
        GraphLine::Fault
    }
}

// The pips of the modules of a tree, which are evaluated, and kept. A reader of the store failed before, or none.
fn evaluated_kept<M: Keeper>(
    alloc: Global,
    work: &Workspace,
    tree: &Tree,
    limits: &Limits,
    typed: Option<Program>,
    graphs: &mut M,
    failed: bool,
) -> Result<Sourced, FrontFault>
    requires tree { IsTree tree.now }
    requires size { IsInSize tree.now }
    requires found { Finds tree.now (Found (modules_of work.now)) }
    requires key { HasKey limits.now.eval_budget (modules_of work.now) }
    requires typed { IsTypedIn limits.now tree.now (modules_of work.now) (typed_data typed) }
    ensures pips { MatchResult result
        (λ sourced. MakesPips limits.now tree.now sourced.pips)
        (λ fault. IsRefused limits.now tree.now fault) }
    ensures line { IfOk result (λ sourced. EvaluatedTells (work_in limits.now tree.now (modules_of work.now))
        (change_of (M.known graphs.old) (M.known graphs.new) (M.bound graphs.old) (M.faults graphs.old)
        (M.faults graphs.new)) failed sourced.line) }
    ensures left { GraphsLeft limits.now tree.now (change_of (M.known graphs.old) (M.known graphs.new)
        (M.bound graphs.old) (M.faults graphs.old) (M.faults graphs.new)) }
    ensures bound { M.bound graphs.new ≡ M.bound graphs.old }
{
    meaning_over_sources();
    keeps_stay_honest();
    kept_is_usable();
    let asked = asked_in(alloc, work, tree, limits, typed)?;
    let kept = keep(alloc, work, tree, limits, &asked, graphs)?;
    Ok(Sourced {
        pips: asked.pips,
        line: line_if(failed, kept),
    })
}

// The pips of a tree: those of a usable entry, or those that are evaluated.
fn pips_with<M: Keeper>(
    alloc: Global,
    tree: &Tree,
    limits: &Limits,
    graphs: &mut M,
) -> Result<Sourced, FrontFault>
    requires { IsInSize tree.now }
    ensures pips { IfOk result (λ sourced. FromGraphs limits.now tree.now
        (change_of (M.known graphs.old) (M.known graphs.new) (M.bound graphs.old) (M.faults graphs.old)
        (M.faults graphs.new)) sourced.pips sourced.line) }
    ensures fault { MatchResult result (λ _. ⊤) (λ fault. IsRefused limits.now tree.now fault) }
    ensures left { GraphsLeft limits.now tree.now (change_of (M.known graphs.old) (M.known graphs.new)
        (M.bound graphs.old) (M.faults graphs.old) (M.faults graphs.new)) }
    ensures bound { M.bound graphs.new ≡ M.bound graphs.old }
{
    meaning_over_sources();
    graphs_hit();
    let work = match workspace_of(alloc, tree) {
        Ok(work) => work,
        Err(fault) => return Err(file_refusal(alloc, fault)),
    };
    let typed = typed_in(alloc, &work, tree, limits)?;
    let found = look_up(alloc, &work, tree, limits, graphs)?;
    match found {
        GraphFound::Hit(pips) => {
            let_go(typed, &pips);
            Ok(Sourced {
                pips,
                line: GraphLine::Hit,
            })
        }
        GraphFound::Miss => evaluated_kept(alloc, &work, tree, limits, typed, graphs, false),
        GraphFound::Fault => evaluated_kept(alloc, &work, tree, limits, typed, graphs, true),
        GraphFound::Memory => Err(FrontFault::Memory),
    }
}

/// The plan that a tree of source files asks for, or the first refusal, where pips may be taken from a store of
/// graphs and are kept there. The bytes of the files become those of the sources.
pub fn plan_with_graphs<M: Keeper>(
    alloc: Global,
    tree: Tree,
    limits: &Limits,
    graphs: &mut M,
) -> Result<GraphPlan, FrontFault>
    requires { IsInSize tree }
    ensures plan { IfOk result (λ planned. (planned.line ≡ lines.Hit
        → FairGraphs limits.now tree (held_in (M.known graphs.old)) (held_in (M.known graphs.new)))
        → Plans limits.now tree planned.end.plan.pips) }
    ensures fault { MatchResult result (λ _. ⊤) (λ fault. RefusesBy
        (FairGraphs limits.now tree (held_in (M.known graphs.old)) (held_in (M.known graphs.new)))
        limits.now tree fault) }
    ensures line { IfOk result (λ planned. TellsGraphs limits.now tree
        (change_of (M.known graphs.old) (M.known graphs.new) (M.bound graphs.old) (M.faults graphs.old)
        (M.faults graphs.new)) planned.end.plan.pips planned.line) }
    ensures rules { IfOk result (λ planned. KeepsRules planned.end.plan.pips planned.end.sources) }
    ensures sources { IfOk result (λ planned. planned.end.sources ≡ tree) }
    ensures tool_budget { IfOk result (λ planned. planned.end.plan.tool_budget ≡ limits.now.tool_budget) }
    ensures left { GraphsLeft limits.now tree (change_of (M.known graphs.old) (M.known graphs.new)
        (M.bound graphs.old) (M.faults graphs.old) (M.faults graphs.new)) }
    ensures bound { M.bound graphs.new ≡ M.bound graphs.old }
{
    let sourced = pips_with(alloc, &tree, limits, graphs)?;
    let Sourced { pips, line } = sourced;
    let end = planned(alloc, tree, pips, limits)?;
    Ok(GraphPlan { end, line })
}
