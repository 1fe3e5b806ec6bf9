//! The graph of a plan, as the scheduler's core takes it.
ghost use Rattle.std.specs.Prelude.{◌<◌, All, IfOk, length};
ghost use Rattle.sched_board_slots.specs.Graphs.{IsGraphOf, IsNodeOf};

use bx_tree::Memory;
use pip_model::Plan;
use pip_view_inputs::process_at;
use sched_core::{Graph, Node, PipNumbers};
use std::alloc::Global;

// A pip of the plan, as the core sees it.
fn node_of(alloc: Global, plan: &Plan, pip: u32) -> Result<Node, Memory>
    requires { pip < length plan.now.pips }
    ensures node { IfOk result (IsNodeOf plan.now pip) }
    ensures smaller { IfOk result (λ node. All (λ input. input < pip) node.inputs) }
{
    let inputs = plan.inputs(pip).to_vec(alloc)?;
    Ok(Node {
        is_process: process_at(plan.pips(), pip).is_some(),
        inputs: PipNumbers::of(inputs),
    })
}

/// The graph of a plan: of each pip whether it is a process, and its inputs.
pub fn graph_of(alloc: Global, plan: &Plan) -> Result<Graph, Memory>
    ensures { IfOk result (IsGraphOf plan.now) }
{
    let mut graph = Graph::new(alloc);
    let pips = plan.pips().len();
    'pips: for pip in 0..pips {
        graph.push(node_of(alloc, plan, pip as u32)?)?;
    }
    Ok(graph)
}
