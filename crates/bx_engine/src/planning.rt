//! The plan that an order asks for.

ghost use Rattle.std.specs.Prelude.{◌≡◌, IfOk, MatchResult, None, Some, false, if◌then◌else◌, ⊤};
ghost use Rattle.bx_io.specs.Holdings.{held_in};
ghost use Rattle.bx_engine_front.specs.Faults.{IsRefused};
ghost use Rattle.bx_engine_front.specs.Graphs.{GraphsLeft, RefusesBy};
ghost use Rattle.bx_engine_front.specs.Specifications.{Plans};
ghost use Rattle.bx_engine_front.specs.StoreChanges.{change_of};
ghost use Rattle.build_report.specs.declared.counts.GraphLine.TheVariants as lines;
ghost use Rattle.bx_tree.specs.Bundle.{IsInSize};
ghost use Rattle.graph_check.specs.Rules.{KeepsRules};
ghost use Rattle.bx_engine.specs.Expected.{limits_of as limits_of_order};
ghost use Rattle.bx_engine.specs.TreeGraphs.{IsFairFor, TellsPlanned};
ghost use Rattle.bx_engine.specs.Stores.{uses_graphs as uses_graphs_in};
ghost use Rattle.bx_engine_words.specs.Words.{asks_graphs as asks_graphs_in};

use crate::limits::{asks_graphs, limits_of, uses_graphs};
use build_report::GraphLine;
use bx_engine_front::{FrontEnd, FrontFault, GraphPlan, plan_of, plan_with_graphs};
use bx_engine_words::Order;
use bx_io::Keeper;
use bx_tree::Tree;
use std::alloc::Global;

/// The plan that an order asks for of a tree of source files, or the first refusal. The pips of the plan keep
/// all rules of the graph over these files.
pub fn front(alloc: Global, tree: Tree, order: &Order) -> Result<FrontEnd, FrontFault>
    requires { IsInSize tree }
    ensures plan { MatchResult result
        (λ end. Plans (limits_of_order order.now) tree end.plan.pips)
        (λ fault. IsRefused (limits_of_order order.now) tree fault) }
    ensures rules { IfOk result (λ end. KeepsRules end.plan.pips end.sources) }
    ensures sources { IfOk result (λ end. end.sources ≡ tree) }
    ensures tool_budget { IfOk result (λ end.
        end.plan.tool_budget ≡ (limits_of_order order.now).tool_budget) }
{
    plan_of(alloc, tree, &limits_of(order))
}

/// A plan, and the line of the notes that says where its pips came from.
#[derive(Drop)]
pub(crate) struct Planned {
    pub end: FrontEnd,
    pub line: Option<GraphLine>,
}

// The line of a build that does not use the store of graphs.
fn line_unused(order: &Order) -> Option<GraphLine>
    ensures { result ≡ (if asks_graphs_in order.now then Some lines.Ran else None) }
{
    if asks_graphs(order) {
        Some(GraphLine::Ran)
    } else {
        None
    }
}

/// The same, where the order may let pips be taken from a store of graphs and kept there.
pub(crate) fn plan_for<M: Keeper>(
    alloc: Global,
    tree: Tree,
    order: &Order,
    graphs: &mut M,
) -> Result<Planned, FrontFault>
    requires { IsInSize tree }
    ensures plan { IfOk result (λ planned. (planned.line ≡ Some lines.Hit
        → IsFairFor (uses_graphs_in order.now) (limits_of_order order.now) tree (held_in (M.known graphs.old))
        (held_in (M.known graphs.new)))
        → Plans (limits_of_order order.now) tree planned.end.plan.pips) }
    ensures fault { MatchResult result (λ _. ⊤) (λ fault. RefusesBy
        (IsFairFor (uses_graphs_in order.now) (limits_of_order order.now) tree (held_in (M.known graphs.old))
        (held_in (M.known graphs.new))) (limits_of_order order.now) tree fault) }
    ensures line { IfOk result (λ planned. TellsPlanned order.now tree
        (change_of (M.known graphs.old) (M.known graphs.new) (M.bound graphs.old) (M.faults graphs.old)
        (M.faults graphs.new)) planned.end.plan.pips planned.line) }
    ensures rules { IfOk result (λ planned. KeepsRules planned.end.plan.pips planned.end.sources) }
    ensures sources { IfOk result (λ planned. planned.end.sources ≡ tree) }
    ensures tool_budget { IfOk result (λ planned.
        planned.end.plan.tool_budget ≡ (limits_of_order order.now).tool_budget) }
    ensures left { GraphsLeft (limits_of_order order.now) tree (change_of (M.known graphs.old) (M.known graphs.new)
        (M.bound graphs.old) (M.faults graphs.old) (M.faults graphs.new)) }
    ensures untouched { uses_graphs_in order.now ≡ false → graphs.new ≡ graphs.old }
    ensures bound { M.bound graphs.new ≡ M.bound graphs.old }
{
    let limits = limits_of(order);
    if uses_graphs(order) {
        let planned = plan_with_graphs(alloc, tree, &limits, graphs)?;
        let GraphPlan { end, line } = planned;
        return Ok(Planned {
            end,
            line: Some(line),
        });
    }
    let end = plan_of(alloc, tree, &limits)?;
    let line = line_unused(order);
    Ok(Planned { end, line })
}
