//! What a build of an input comes to: its status, its output and its notes.

ghost use Rattle.std.specs.Prelude.{◌≡◌, ◌<◌, ◌≤◌, [], ℕ, List, Some, IsSome, false, IfOk, OnOk, if◌then◌else◌, length};
ghost use Rattle.std.specs.List.{AllByRecursion};
ghost use Rattle.bx_io.specs.Holdings.{Holdings, held_in};
ghost use Rattle.bx_tree.specs.Bundle.{IsBundle, IsInSize};
ghost use Rattle.bx_tree.specs.Paths.{IsPath};
ghost use Rattle.bx_tree.specs.Trees.{paths_of};
ghost use Rattle.graph_check.specs.Rules.{KeepsRules};
ghost use Rattle.pip_model_types.specs.Made.{made_files};
ghost use Rattle.two_phase_meaning.specs.Honest.{Honest};
ghost use Rattle.retire.specs.Builds.{IsFair, LeavesFair};
ghost use Rattle.bx_engine.specs.Calls.{change_of};
ghost use Rattle.bx_engine.specs.Counting.{given_files};
ghost use Rattle.bx_engine.specs.Crews.{AreThrough};
ghost use Rattle.retire.specs.Saving.{OnlyPuts};
ghost use Rattle.bx_engine.specs.Ending as endings;
ghost use Rattle.bx_engine.specs.Expected.{limits_of};
ghost use Rattle.bx_engine.specs.Responses.{IsBuildResponse, IsReportOf, IsResponseOf, IsResponseTo};
ghost use Rattle.bx_engine.specs.Responses.{IsResponseToBundle, IsResponseToFault, Responds, counts_in};
ghost use Rattle.bx_engine.specs.Graphs.{KeepsGraphs, KeepsOfInput, LeavesGraphs};
ghost use Rattle.bx_engine.specs.Statuses.{HasNoTree, IsRefusal};
ghost use Rattle.bx_engine.specs.Stores.{FairGraphStore, FairStore, StoreLeft, uses_graphs, uses_store};
ghost use Rattle.bx_engine_words.specs.Words.{HasCrew};

use crate::crew::{Crewed, Worked, work_ahead};
use crate::fault::{InputFault, input_name};
use crate::limits::{is_cached, workers_of};
use crate::output::output;
use crate::planning::plan_for;
use crate::status::Status;
use build_report::{Counts, GraphLine, all_succeeded, notes, refused_report, report};
use bx_engine_front::{FrontFault, Refusal};
use bx_engine_words::Order;
use bx_io::{Gate, Keeper};
use bx_tree::{BundleFault, Memory, Text, Tree, read_bundle, reserved};
use pip_model::{Made, MadeFile, Plan, Sources};
use retire::{RetireTally, Retired, retire};
use sched_core::MAX_WORKERS;
use std::alloc::{AllocError, Global};
use std::mem::forget;
use std::sync::{Arc, Wait};
use std::thread::Threads;

/// What a build comes to: its status, all bytes of its output, and its notes.
#[derive(Drop)]
pub(crate) struct Response {
    pub status: Status,
    pub bytes: Vec<u8>,
    pub notes: Vec<u8>,
}

fn refused(alloc: Global, status: Status, refusal: &Refusal) -> Result<Response, Memory>
    ensures { IfOk result (IsReportOf status refusal.now) }
{
    let report = refused_report(alloc, refusal)?;
    let bytes = output(alloc, &[], report.as_slice())?;
    Ok(Response {
        status,
        bytes,
        notes: Vec::new(alloc),
    })
}

fn refuse_input(alloc: Global, fault: InputFault) -> Result<Response, Memory>
    ensures { IfOk result (IsResponseTo (endings.InputRefused fault) []) }
{
    let name = Vec::from_slice(alloc, input_name(fault).as_bytes())?;
    let kind = Text::new(alloc, name)?;
    let refusal = Refusal::Input(kind);
    refused(alloc, Status::InputRefused, &refusal)
}

fn refuse_specification(alloc: Global, refusal: &Refusal) -> Result<Response, Memory>
    ensures { IfOk result (IsResponseTo (endings.SpecificationRefused refusal.now) []) }
{
    refused(alloc, Status::SpecificationRefused, refusal)
}

// The response to a source tree that comes to no plan.
fn refuse_fault(alloc: Global, fault: FrontFault) -> Result<Response, Memory>
    ensures { IfOk result (IsResponseToFault fault) }
{
    match fault {
        FrontFault::Refused(refusal) => refuse_specification(alloc, &refusal),
        FrontFault::Memory => Err(AllocError),
    }
}

// The status of a build, by whether all pips succeeded.
fn status_if(good: bool) -> Status
    ensures { result ≡ (if good then Status.Done else Status.FailuresFound) }
{
    if good {
        Status::Done
    } else {
        Status::FailuresFound
    }
}

// The files that a build gives, which are none unless all pips succeeded.
fn files_if(good: bool, outputs: &Made) -> &[MadeFile]
    ensures { made_files result.now ≡ (if good then outputs.now else []) }
{
    if good { outputs.files() } else { &[] }
}

// The counts of a build, of its workers and of what came after them, and where its pips came from.
fn counts(tally: RetireTally, worked: Worked, line: Option<GraphLine>) -> Counts
    ensures counts { result ≡ counts_in tally worked line }
    ensures more { tally.faults ≤ (counts_in tally worked line).faults }
{
    Counts {
        hits: tally.hits,
        ran: tally.ran,
        late: tally.late,
        faults: tally.faults.saturating_add(worked.faults),
        starved: worked.starved,
        graph: line,
    }
}

// The response of a build whose pips were gone through.
fn show(
    alloc: Global,
    plan: &Plan,
    retired: &Retired,
    worked: Worked,
    line: Option<GraphLine>,
) -> Result<Response, Memory>
    requires { length retired.now.verdicts.items ≡ length plan.now.pips }
    ensures shown { IfOk result (IsResponseOf plan.now.pips retired.now worked line) }
    ensures faults { retired.now.tally.faults ≤ (counts_in retired.now.tally worked line).faults }
    ensures paths { OnOk result (AllByRecursion IsPath (paths_of (given_files retired.now.verdicts.items
        retired.now.outputs))) }
{
    let counts = counts(retired.tally, worked, line);
    let verdicts = retired.verdicts.as_slice();
    let good = all_succeeded(verdicts);
    let report = report(alloc, plan, verdicts)?;
    let bytes = output(alloc, files_if(good, &retired.outputs), report.as_slice())?;
    let notes = notes(alloc, &counts)?;
    Ok(Response {
        status: status_if(good),
        bytes,
        notes,
    })
}

// The response of a build of a plan where workers went ahead: the results are collected. Their memory is left to the system.
fn collect<K: Keeper, G: Gate>(
    alloc: Global,
    plan: &Plan,
    sources: &Sources,
    crewed: Crewed,
    line: Option<GraphLine>,
    keeper: &mut K,
    gate: &G,
    cached: bool,
) -> Result<Response, Memory>
    requires rules { KeepsRules plan.now.pips sources.now }
    requires slots { length crewed.finished.slots.items ≡ length plan.now.pips }
    ensures response { (workers : ℕ)
        → AreThrough cached (K.bound keeper.old) workers crewed.worked.faults crewed.worked.starved
        → IfOk result (IsBuildResponse plan.now.pips sources.now plan.now.tool_budget cached workers
        (change_of (K.known keeper.old) (K.known keeper.new) (K.bound keeper.old) (K.faults keeper.old)
        (K.faults keeper.new)) line) }
    ensures left { (held : Holdings) → held_in (K.known keeper.old) ≡ Some held
        → IsSome (held_in (K.known keeper.new))
        → IsFair plan.now.pips sources.now plan.now.tool_budget held
        → LeavesFair plan.now.pips sources.now plan.now.tool_budget held (K.known keeper.old)
        (K.known keeper.new) }
    ensures untouched { cached ≡ false → keeper.new ≡ keeper.old }
    ensures puts { OnlyPuts (K.known keeper.old) (K.known keeper.new) }
    ensures bound { K.bound keeper.new ≡ K.bound keeper.old }
    ensures later { K.faults keeper.old ≤ K.faults keeper.new }
{
    let Crewed { finished, worked } = crewed;
    let retired = retire(alloc, plan, sources, keeper, finished, gate, cached)?;
    let response = show(alloc, plan, &retired, worked, line);
    forget(retired);
    response
}

// The response of a build of a plan: workers go ahead, and then the results are collected. The memory of the plan and of the
// source files is left to the system.
fn build_plan<H: Threads + Wait + Sync, K: Keeper, G: Gate>(
    rt: &H,
    alloc: Global,
    plan: Plan,
    sources: Sources,
    workers: u32,
    line: Option<GraphLine>,
    keeper: &mut K,
    gate: &G,
    cached: bool,
) -> Result<Response, Memory>
    requires rules { KeepsRules plan.pips sources }
    requires workers { (0 < workers) × (workers ≤ MAX_WORKERS) }
    ensures response { IfOk result (IsBuildResponse plan.pips sources plan.tool_budget cached workers
        (change_of (K.known keeper.old) (K.known keeper.new) (K.bound keeper.old) (K.faults keeper.old)
        (K.faults keeper.new)) line) }
    ensures left { (held : Holdings) → held_in (K.known keeper.old) ≡ Some held
        → IsSome (held_in (K.known keeper.new))
        → IsFair plan.pips sources plan.tool_budget held
        → LeavesFair plan.pips sources plan.tool_budget held (K.known keeper.old)
        (K.known keeper.new) }
    ensures untouched { cached ≡ false → keeper.new ≡ keeper.old }
    ensures puts { OnlyPuts (K.known keeper.old) (K.known keeper.new) }
    ensures bound { K.bound keeper.new ≡ K.bound keeper.old }
    ensures later { K.faults keeper.old ≤ K.faults keeper.new }
{
    let plans = Arc::new(alloc, plan)?;
    let files = Arc::new(alloc, sources)?;
    let crewed = work_ahead(rt, alloc, &plans, &files, workers, &*keeper, gate, cached)?;
    let response = collect(alloc, &*plans, &*files, crewed, line, keeper, gate, cached);
    forget(plans);
    forget(files);
    response
}

// The response to a source tree.
fn respond_tree<H: Threads + Wait + Sync, K: Keeper, M: Keeper, G: Gate>(
    rt: &H,
    alloc: Global,
    tree: Tree,
    order: &Order,
    keeper: &mut K,
    graphs: &mut M,
    gate: &G,
) -> Result<Response, Memory>
    requires size { IsInSize tree }
    requires crew { HasCrew order.now }
    ensures response { (input : List ℕ) → IsBundle input tree → IfOk result (Responds order.now input
        (change_of (K.known keeper.old) (K.known keeper.new) (K.bound keeper.old) (K.faults keeper.old)
        (K.faults keeper.new))
        (Some (change_of (M.known graphs.old) (M.known graphs.new) (M.bound graphs.old) (M.faults graphs.old)
        (M.faults graphs.new)))) }
    ensures kept { IfOk result (λ response. IsRefusal response.status → keeper.new ≡ keeper.old) }
    ensures left { (input : List ℕ) (held : Holdings) → IsBundle input tree
        → held_in (K.known keeper.old) ≡ Some held → Honest held
        → FairStore order.now input (held_in (K.known keeper.old)) (held_in (K.known keeper.new))
        (Some (change_of (M.known graphs.old) (M.known graphs.new) (M.bound graphs.old) (M.faults graphs.old)
        (M.faults graphs.new)))
        → StoreLeft (limits_of order.now) input held (K.known keeper.old) (K.known keeper.new) }
    ensures graphs_kept { (input : List ℕ) → IsBundle input tree
        → KeepsOfInput (Some (change_of (M.known graphs.old) (M.known graphs.new) (M.bound graphs.old) (M.faults graphs.old)
        (M.faults graphs.new))) (limits_of order.now) input }
    ensures graphs_left { (input : List ℕ) → IsBundle input tree
        → FairGraphStore order.now input (Some (change_of (M.known graphs.old) (M.known graphs.new) (M.bound graphs.old) (M.faults graphs.old)
        (M.faults graphs.new)))
        → LeavesGraphs (Some (change_of (M.known graphs.old) (M.known graphs.new) (M.bound graphs.old) (M.faults graphs.old)
        (M.faults graphs.new))) }
    ensures untouched { uses_store order.now ≡ false → keeper.new ≡ keeper.old }
    ensures no_graphs { uses_graphs order.now ≡ false → graphs.new ≡ graphs.old }
    ensures no_tree { IfOk result (λ response. HasNoTree response.status → graphs.new ≡ graphs.old) }
    ensures puts { OnlyPuts (K.known keeper.old) (K.known keeper.new) }
    ensures graph_puts { KeepsGraphs (change_of (M.known graphs.old) (M.known graphs.new) (M.bound graphs.old) (M.faults graphs.old)
        (M.faults graphs.new)) }
    ensures bound { K.bound keeper.new ≡ K.bound keeper.old }
    ensures graph_bound { M.bound graphs.new ≡ M.bound graphs.old }
    ensures later { K.faults keeper.old ≤ K.faults keeper.new }
{
    if reserved(&tree) {
        return refuse_input(alloc, InputFault::Reserved);
    }
    match plan_for(alloc, tree, order, graphs) {
        Ok(planned) => build_plan(
            rt,
            alloc,
            planned.end.plan,
            planned.end.sources,
            workers_of(order),
            planned.line,
            keeper,
            gate,
            is_cached(order),
        ),
        Err(fault) => refuse_fault(alloc, fault),
    }
}

// The response to an input that is no bundle.
fn refuse_bundle(alloc: Global, fault: BundleFault) -> Result<Response, Memory>
    ensures { IfOk result (IsResponseToBundle fault) }
{
    match fault {
        BundleFault::BadBundle => refuse_input(alloc, InputFault::BadBundle),
        BundleFault::BadPath => refuse_input(alloc, InputFault::BadPath),
        BundleFault::Unordered => refuse_input(alloc, InputFault::Unordered),
        BundleFault::Nested => refuse_input(alloc, InputFault::Nested),
        BundleFault::TooManyFiles => refuse_input(alloc, InputFault::TooManyFiles),
        BundleFault::TooLarge => refuse_input(alloc, InputFault::TooLarge),
        BundleFault::Memory => Err(AllocError),
    }
}

/// What a build of this input comes to.
pub(crate) fn respond<H: Threads + Wait + Sync, K: Keeper, M: Keeper, G: Gate>(
    rt: &H,
    alloc: Global,
    input: &[u8],
    order: &Order,
    keeper: &mut K,
    graphs: &mut M,
    gate: &G,
) -> Result<Response, Memory>
    requires crew { HasCrew order.now }
    ensures response { IfOk result (Responds order.now input.now
        (change_of (K.known keeper.old) (K.known keeper.new) (K.bound keeper.old) (K.faults keeper.old)
        (K.faults keeper.new))
        (Some (change_of (M.known graphs.old) (M.known graphs.new) (M.bound graphs.old) (M.faults graphs.old)
        (M.faults graphs.new)))) }
    ensures kept { IfOk result (λ response. IsRefusal response.status → keeper.new ≡ keeper.old) }
    ensures left { (held : Holdings) → held_in (K.known keeper.old) ≡ Some held → Honest held
        → FairStore order.now input.now (held_in (K.known keeper.old)) (held_in (K.known keeper.new))
        (Some (change_of (M.known graphs.old) (M.known graphs.new) (M.bound graphs.old) (M.faults graphs.old)
        (M.faults graphs.new)))
        → StoreLeft (limits_of order.now) input.now held (K.known keeper.old) (K.known keeper.new) }
    ensures graphs_kept { KeepsOfInput (Some (change_of (M.known graphs.old) (M.known graphs.new) (M.bound graphs.old)
        (M.faults graphs.old) (M.faults graphs.new))) (limits_of order.now) input.now }
    ensures graphs_left { FairGraphStore order.now input.now
        (Some (change_of (M.known graphs.old) (M.known graphs.new) (M.bound graphs.old) (M.faults graphs.old)
        (M.faults graphs.new)))
        → LeavesGraphs (Some (change_of (M.known graphs.old) (M.known graphs.new) (M.bound graphs.old) (M.faults graphs.old)
        (M.faults graphs.new))) }
    ensures untouched { uses_store order.now ≡ false → keeper.new ≡ keeper.old }
    ensures no_graphs { uses_graphs order.now ≡ false → graphs.new ≡ graphs.old }
    ensures no_tree { IfOk result (λ response. HasNoTree response.status → graphs.new ≡ graphs.old) }
    ensures puts { OnlyPuts (K.known keeper.old) (K.known keeper.new) }
    ensures graph_puts { KeepsGraphs (change_of (M.known graphs.old) (M.known graphs.new) (M.bound graphs.old) (M.faults graphs.old)
        (M.faults graphs.new)) }
    ensures bound { K.bound keeper.new ≡ K.bound keeper.old }
    ensures graph_bound { M.bound graphs.new ≡ M.bound graphs.old }
    ensures later { K.faults keeper.old ≤ K.faults keeper.new }
{
    match read_bundle(alloc, input) {
        Ok(tree) => respond_tree(rt, alloc, tree, order, keeper, graphs, gate),
        Err(fault) => refuse_bundle(alloc, fault),
    }
}
