//! The text of a graph.
ghost use Rattle.std.specs.Prelude.{◌≡◌, ◌++◌, ◌<◌, ℕ, List, IfOk, OnOk, length, slice_get};
ghost use Rattle.std.specs.List.{flat_map};
ghost use Rattle.pip_model.specs.Plans.{AreAllInputs, AreInputs};
ghost use Rattle.pip_graph.specs.GraphText as texts;

use crate::ended::Ended;
use crate::nodes::add_node;
use bx_tree::Memory;
use pip_model::{Pip, Plan};
use std::alloc::Global;

// How the pip with this number ended, if that is known.
fn ended_at(ends: &[Ended], number: usize) -> Option<Ended>
    ensures { result ≡ slice_get ends.now number }
{
    match ends.get(number) {
        Some(ended) => Some(*ended),
        None => None,
    }
}

// Adds the nodes of pips.
fn add_nodes(alloc: Global, text: &mut Vec<u8>, pips: &[Pip], ends: &[Ended]) -> Result<(), Memory>
    ensures { OnOk result (text.new.items ≡ text.old.items ++ texts.node_lines ends.now 0 pips.now) }
{
    'pips: for (number, pip) in pips.iter().enumerate() {
        add_node(alloc, text, number, &pip.kind, ended_at(ends, number))?;
    }
    Ok(())
}

fn add_edge(alloc: Global, text: &mut Vec<u8>, number: u32, input: u32) -> Result<(), Memory>
    ensures { OnOk result (text.new.items ≡ text.old.items ++ texts.edge_line number input) }
{
    let line = format!(in alloc; "  p{number} -> p{input};\n")?;
    text.extend_from_slice(line.as_bytes())
}

// Adds the arrows of a pip.
fn add_edges(alloc: Global, text: &mut Vec<u8>, number: u32, inputs: &[u32]) -> Result<(), Memory>
    ensures { OnOk result (text.new.items
        ≡ text.old.items ++ flat_map (texts.edge_line number) inputs.now) }
{
    'inputs: for input in inputs {
        add_edge(alloc, text, number, *input)?;
    }
    Ok(())
}

// Adds the arrows of a pip of a plan.
fn add_pip_edges(alloc: Global, text: &mut Vec<u8>, plan: &Plan, number: u32) -> Result<(), Memory>
    requires { number < length plan.now.pips }
    ensures { OnOk result ((inputs : List ℕ) × AreInputs plan.now.pips number inputs
        × (text.new.items ≡ text.old.items ++ flat_map (texts.edge_line number) inputs)) }
{
    let inputs = plan.inputs(number);
    add_edges(alloc, text, number, inputs)
}

// Adds the arrows of all pips.
fn add_all_edges(alloc: Global, text: &mut Vec<u8>, plan: &Plan) -> Result<(), Memory>
    ensures { OnOk result ((inputs : List (List ℕ)) × AreAllInputs plan.now.pips inputs
        × (text.new.items ≡ text.old.items ++ texts.edge_lines 0 inputs)) }
{
    let pips = plan.pips();
    'pips: for number in 0..pips.len() {
        add_pip_edges(alloc, text, plan, number as u32)?;
    }
    Ok(())
}

// What precedes all nodes.
fn head() -> &'static str
    ensures { result.now ≡ texts.head_text }
{
    "digraph pips {\n  rankdir = BT;\n  node [shape = box, style = filled, fillcolor = white];\n"
}

/// The graph of a plan as a Graphviz text, with the colour of each pip whose end is known. docs/FORMATS.md has its
/// form.
pub fn graph_text(alloc: Global, plan: &Plan, ends: &[Ended]) -> Result<Vec<u8>, Memory>
    ensures { IfOk result (λ text. texts.IsGraphText plan.now.pips ends.now text.items) }
{
    let mut text = Vec::from_slice(alloc, head().as_bytes())?;
    add_nodes(alloc, &mut text, plan.pips(), ends)?;
    add_all_edges(alloc, &mut text, plan)?;
    text.extend_from_slice(b"}\n")?;
    Ok(text)
}
