//! A core and the slow program, which are given the same events.
use crate::table::{is_allowed, make, may_begin, may_pass};
use sched_core::{Core, Event, Graph, Illegal, MAX_WORKERS, Node, PipNumbers, PipState};
use std::alloc::{AllocError, Global};
use std::process::Abort;

// Adds a pip with these inputs.
pub(crate) fn add(
    rt: &impl Abort,
    alloc: Global,
    graph: &mut Graph,
    is_process: bool,
    inputs: &[u32],
) -> Result<(), AllocError> {
    let pips = graph.nodes().len();
    assert!(rt; pips < 100);
    assert!(rt; inputs.iter().all(|input| (*input as usize) < pips));
    let inputs = PipNumbers::of(inputs.to_vec(alloc)?);
    graph.push(Node { is_process, inputs })?;
    Ok(())
}

// The graph of these pips: whether each is a process, and its inputs.
pub(crate) fn graph_of(
    rt: &impl Abort,
    alloc: Global,
    pips: &[(bool, &[u32])],
) -> Result<Graph, AllocError> {
    let mut graph = Graph::new(alloc);
    for (is_process, inputs) in pips {
        add(rt, alloc, &mut graph, *is_process, inputs)?;
    }
    Ok(graph)
}

#[derive(Drop)]
pub(crate) struct Both {
    core: Core,
    graph: Graph,
    states: Vec<PipState>,
    left: Vec<bool>,
}

impl Both {
    // The graph is given twice, as the core takes it.
    pub(crate) fn new(
        rt: &impl Abort,
        alloc: Global,
        graph: Graph,
        same: Graph,
        workers: u32,
    ) -> Result<Both, AllocError> {
        assert!(rt; 0 < workers && workers <= MAX_WORKERS);
        let pips = graph.nodes().len();
        Ok(Both {
            core: Core::new(alloc, graph, workers)?,
            graph: same,
            states: vec![in alloc; PipState::Waiting; pips]?,
            left: vec![in alloc; false; workers as usize]?,
        })
    }

    // The state of a pip, where it is there.
    pub(crate) fn state(&self, pip: u32) -> Option<PipState> {
        if self.core.len() <= pip as usize {
            return None;
        }
        Some(self.core.state(pip))
    }

    pub(crate) fn allows(&self, event: &Event) -> bool {
        is_allowed(
            self.graph.nodes(),
            self.states.as_slice(),
            self.left.as_slice(),
            event,
        )
    }

    // The least pip that may be skipped, or that may start, found by going through all.
    fn least(&self, skips: bool) -> Option<u32> {
        let nodes = self.graph.nodes();
        let states = self.states.as_slice();
        let left = self.left.as_slice();
        for pip in 0..nodes.len() as u32 {
            if skips && may_pass(nodes, states, left, pip) {
                return Some(pip);
            }
            if !skips && may_begin(nodes, states, left, pip) {
                return Some(pip);
            }
        }
        None
    }

    // Gives the event to both, which are then in one state.
    pub(crate) fn step(&mut self, rt: &impl Abort, event: &Event) -> Result<(), Illegal> {
        let pip = event.pip() as usize;
        let worker = event.worker() as usize;
        assert!(rt; worker < self.core.workers());
        let is_allowed = self.allows(event);
        let answer = self.core.step(event);
        assert!(rt; answer.is_ok() == is_allowed);
        if is_allowed {
            assert!(rt; pip < self.states.len() && worker < self.left.len());
            make(&mut self.states, &mut self.left, event);
        }
        for pip in 0..self.states.len() {
            assert!(rt; pip < 100 && pip < self.core.len() && pip < self.states.len());
            assert!(rt; self.core.state(pip as u32) == self.states[pip]);
        }
        let start = self.least(false);
        assert!(rt; self.core.least_start() == start);
        let skip = self.least(true);
        assert!(rt; self.core.least_skip() == skip);
        answer
    }
}
