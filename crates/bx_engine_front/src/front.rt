//! All passes, one after the other.

ghost use Rattle.std.specs.Prelude.{◌≡◌, IfOk, MatchResult, ⊤};
ghost use Rattle.bx_tree.specs.Bundle.{IsInSize};
ghost use Rattle.bx_tree.specs.Trees.{IsTree};
ghost use Rattle.dscript_names_workspace.specs.Finding.{Finds};
ghost use Rattle.dscript_names_workspace.specs.Workspaces.{Found};
ghost use Rattle.dscript_program.specs.Views.{program_data};
ghost use Rattle.dscript_program.specs.Workspaces.{modules_of};
ghost use Rattle.graph_check.specs.Rules.{KeepsRules};
ghost use Rattle.bx_engine_front.specs.FileFaults.{RefusesTree};
ghost use Rattle.bx_engine_front.specs.Faults.{IsOfRule, IsRefused};
ghost use Rattle.bx_engine_front.specs.Specifications.{IsProgram, IsProgramOf, MakesPips, PassesTypes, Plans};

use crate::fault::FrontFault;
use crate::limits::Limits;
use crate::projects::{parse_projects, project_files};
use crate::refusing::{evaluation_refusal, file_refusal, graph_refusal, type_refusal};
use bx_tree::Tree;
use dscript_eval::evaluate;
use dscript_names::resolve;
use dscript_names_workspace::find_workspace;
use dscript_program::{Program, SpecFault, Workspace};
use dscript_types::check_types;
use graph_check::check;
use pip_model::{PipList, Plan, Sources};
use std::alloc::Global;
use std::mem::forget;

/// As many pips at most are few.
const FEW_PIPS: usize = 256;

/// The plan of a build, with the source files that it reads.
#[derive(Drop)]
pub struct FrontEnd {
    pub plan: Plan,
    pub sources: Sources,
}

// The modules of a tree.
pub(crate) fn workspace_of(alloc: Global, tree: &Tree) -> Result<Workspace, SpecFault>
    requires { IsInSize tree.now }
    ensures found { MatchResult result
        (λ work. Finds tree.now (Found (modules_of work)))
        (λ fault. RefusesTree tree.now fault) }
    ensures tree { IsTree tree.now }
{
    // Contracts learn from the files of a tree that it is one.
    let _ = tree.files();
    let work = find_workspace(alloc, tree)?;
    Ok(work)
}

// The program of the modules of a tree: their files are read, and the names in them are resolved.
pub(crate) fn program_in(alloc: Global, tree: &Tree, work: &Workspace) -> Result<Program, SpecFault>
    requires size { IsInSize tree.now }
    requires found { Finds tree.now (Found (modules_of work.now)) }
    ensures { MatchResult result
        (λ program. IsProgramOf tree.now (modules_of work.now) (program_data program))
        (λ fault. RefusesTree tree.now fault) }
{
    let files = project_files(alloc, tree, work)?;
    let parsed = parse_projects(alloc, files.as_slice())?;
    resolve(work, parsed)
}

// The program of a tree: its modules are found, their files are read, and the names in them are resolved.
fn program_of(alloc: Global, tree: &Tree) -> Result<Program, SpecFault>
    requires { IsInSize tree.now }
    ensures { MatchResult result
        (λ program. IsProgram tree.now (program_data program))
        (λ fault. RefusesTree tree.now fault) }
{
    let work = workspace_of(alloc, tree)?;
    program_in(alloc, tree, &work)
}

// Checks the types of a program, which is that of a tree, where that is asked for.
pub(crate) fn checked(
    alloc: Global,
    program: &Program,
    tree: &Tree,
    limits: &Limits,
) -> Result<(), FrontFault>
    requires { IsProgram tree.now (program_data program.now) }
    ensures { MatchResult result
        (λ _. PassesTypes limits.now (program_data program.now))
        (λ fault. IsRefused limits.now tree.now fault) }
{
    // The tree is named in the clauses alone.
    let _tree = tree;
    if !limits.types {
        return Ok(());
    }
    match check_types(alloc, program) {
        Ok(()) => Ok(()),
        Err(fault) => Err(type_refusal(alloc, fault)),
    }
}

// The pips of a program, which is that of a tree and passes the check of its types.
fn evaluated(
    alloc: Global,
    program: &Program,
    tree: &Tree,
    limits: &Limits,
) -> Result<PipList, FrontFault>
    requires program { IsProgram tree.now (program_data program.now) }
    requires types { PassesTypes limits.now (program_data program.now) }
    ensures { MatchResult result
        (λ pips. MakesPips limits.now tree.now pips)
        (λ fault. IsRefused limits.now tree.now fault) }
{
    match evaluate(alloc, program, tree, limits.eval_budget) {
        Ok(pips) => Ok(pips),
        Err(fault) => Err(evaluation_refusal(alloc, fault)),
    }
}

// Lets go of a program, if there is one, whose pips are made. Where these are few, what follows needs little memory, and the
// program's is left to the system, since to give it back is to go over all of it.
pub(crate) fn let_go(program: Option<Program>, pips: &PipList) {
    if pips.pips().len() <= FEW_PIPS {
        forget(program);
    }
}

// The pips of a tree.
fn pips_of(alloc: Global, tree: &Tree, limits: &Limits) -> Result<PipList, FrontFault>
    requires { IsInSize tree.now }
    ensures { MatchResult result
        (λ pips. MakesPips limits.now tree.now pips)
        (λ fault. IsRefused limits.now tree.now fault) }
{
    match program_of(alloc, tree) {
        Ok(program) => {
            checked(alloc, &program, tree, limits)?;
            let pips = evaluated(alloc, &program, tree, limits)?;
            let_go(Some(program), &pips);
            Ok(pips)
        }
        Err(fault) => Err(file_refusal(alloc, fault)),
    }
}

// The plan of pips over the files of a tree, whose bytes become those of the sources, or the rule that fails first.
pub(crate) fn planned(
    alloc: Global,
    tree: Tree,
    pips: PipList,
    limits: &Limits,
) -> Result<FrontEnd, FrontFault>
    ensures plan { MakesPips limits.now tree pips → MatchResult result
        (λ end. Plans limits.now tree end.plan.pips)
        (λ fault. IsRefused limits.now tree fault) }
    ensures pips { IfOk result (λ end. end.plan.pips ≡ pips) }
    ensures fault { MatchResult result (λ _. ⊤) IsOfRule }
    ensures rules { IfOk result (λ end. KeepsRules end.plan.pips end.sources) }
    ensures sources { IfOk result (λ end. end.sources ≡ tree) }
    ensures tool_budget { IfOk result (λ end. end.plan.tool_budget ≡ limits.now.tool_budget) }
{
    let sources = Sources::new(alloc, tree)?;
    match check(alloc, pips, &sources, limits.tool_budget) {
        Ok(plan) => Ok(FrontEnd { plan, sources }),
        Err(fault) => Err(graph_refusal(alloc, fault)),
    }
}

/// The plan that a tree of source files asks for, or the first refusal. The bytes of the files become those
/// of the sources.
pub fn plan_of(alloc: Global, tree: Tree, limits: &Limits) -> Result<FrontEnd, FrontFault>
    requires { IsInSize tree }
    ensures plan { MatchResult result
        (λ end. Plans limits.now tree end.plan.pips)
        (λ fault. IsRefused limits.now tree fault) }
    ensures rules { IfOk result (λ end. KeepsRules end.plan.pips end.sources) }
    ensures sources { IfOk result (λ end. end.sources ≡ tree) }
    ensures tool_budget { IfOk result (λ end. end.plan.tool_budget ≡ limits.now.tool_budget) }
{
    let pips = pips_of(alloc, &tree, limits)?;
    planned(alloc, tree, pips, limits)
}
