//! The pips that are scheduled: their kinds and their inputs.
ghost use Rattle.std.specs.Prelude.{◌≡◌, ◌++◌, ◌∷◌, [], ◌<◌, ◌-◌, ◌^◌, All, OnOk, OnErr, length};
ghost use Rattle.sched_core.specs.Table.{AreOrdered};

use std::alloc::{AllocError, Global};
use std::marker::Model;

/// Numbers of pips. Contracts see the list of them.
#[derive(Drop)]
pub struct PipNumbers {
    numbers: Vec<u32>,
}

impl Model for PipNumbers {
    ghost use Rattle.std.specs.Prelude.{List, ℕ};

    ghost Value = { List ℕ };

    ghost view = { λ n. n.numbers.items };
}

impl PipNumbers {
    /// These numbers.
    pub fn of(numbers: Vec<u32>) -> PipNumbers
        ensures { result ≡ numbers.items }
    {
        PipNumbers { numbers }
    }

    /// The numbers, in their order.
    pub fn as_slice(&self) -> &[u32]
        ensures { result.now ≡ self.now }
    {
        self.numbers.as_slice()
    }

    // Adds a number at the end.
    pub(crate) fn push(&mut self, number: u32) -> Result<(), AllocError>
        ensures ok { OnOk result (self.new ≡ self.old ++ number ∷ []) }
        ensures err { OnErr result (self.new ≡ self.old) }
    {
        Ok(self.numbers.push(number)?)
    }
}

/// A pip as the scheduler sees it.
#[derive(Drop)]
pub struct Node {
    /// Whether it is a process, which is looked up before it is published.
    pub is_process: bool,
    /// The pips that it waits for.
    pub inputs: PipNumbers,
}

/// The pips of a build, by number. Each waits for pips of smaller numbers alone.
#[derive(Drop)]
pub struct Graph {
    nodes: Vec<Node>,
}

impl Model for Graph {
    ghost use Rattle.std.specs.Prelude.{List, ◌<◌, ◌^◌, length};
    ghost use Rattle.sched_core.specs.declared.graph.Node.{Node};
    ghost use Rattle.sched_core.specs.Table.{AreOrdered};

    ghost Value = { List Node };

    ghost view = { λ g. g.nodes.items };

    ghost invariant = { λ g. AreOrdered g.nodes.items × (length g.nodes.items < 2 ^ 32) };
}

impl Graph {
    /// No pips.
    pub fn new(alloc: Global) -> Graph
        ensures { result ≡ [] }
    {
        Graph {
            nodes: Vec::new(alloc),
        }
    }

    /// Adds a pip, which gets the next number.
    pub fn push(&mut self, node: Node) -> Result<(), AllocError>
        requires room { length self.old < 2 ^ 32 - 1 }
        requires ordered { All (λ input. input < length self.old) node.inputs }
        ensures ok { OnOk result (self.new ≡ self.old ++ node ∷ []) }
        ensures err { OnErr result (self.new ≡ self.old) }
    {
        Ok(self.nodes.push(node)?)
    }

    /// The pips, by number.
    pub fn nodes(&self) -> &[Node]
        ensures nodes { result.now ≡ self.now }
        ensures ordered { AreOrdered self.now }
        ensures few { length self.now < 2 ^ 32 }
    {
        self.nodes.as_slice()
    }
}
