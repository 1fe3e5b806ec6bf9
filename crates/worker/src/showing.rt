//! What a worker shows of a pip: what the cache has for it, or its run. Nothing here needs the board.
ghost use Rattle.std.specs.Prelude.{◌≡◌, ◌<◌, ◌↔◌, IfOk, IfSome, IsSome, length, slice_get, true};
ghost use Rattle.run_record.specs.Digests.{IsWeakOf};
ghost use Rattle.worker.specs.Looking.{IsLooked};
ghost use Rattle.pip_view_inputs.specs.Plain.{process_in};
ghost use Rattle.sched_board.specs.Publishing.{fits_kind};
ghost use Rattle.worker.specs.Steps.{HasPip};
ghost use Rattle.worker.specs.Workers.{GoesOn};

use crate::worker::Worker;
use bx_io::{Gate, KeepReader};
use bx_tree::Memory;
use memo_format::Found;
use observed::View;
use pip_model::{Desc, Plan, Sources};
use pip_view::PipView;
use pip_view_inputs::{Inputs, desc, plain, process_at};
use prints::{Printed, weak};
use run_record::{Record, execute_with};
use sched_board::Shown;
use std::alloc::{AllocError, Global};
use std::sync::ledger::Ledger;
use two_phase::{LookupResult, lookup_by};

// What a lookup came to. Where it found nothing, the weak text that it was by, if there was a cache.
#[derive(Drop)]
enum Looked {
    Hit(Found),
    Nothing(Option<Printed>),
}

// What a worker works with.
#[derive(Clone, Copy)]
pub(crate) struct Site<'a, G: Gate> {
    pub(crate) alloc: Global,
    pub(crate) plan: &'a Plan,
    pub(crate) sources: &'a Sources,
    pub(crate) gate: &'a G,
}

// Whether a plan has the pip of a job, as a process or none.
pub(crate) fn has_pip(plan: &Plan, pip: u32, is_process: bool) -> bool
    ensures { result ≡ true ↔ HasPip plan.now pip is_process }
{
    let pips = plan.pips();
    (pip as usize) < pips.len() && process_at(pips, pip).is_some() == is_process
}

impl<R: KeepReader, L: Ledger, E: Ledger> Worker<R, L, E> {
    // What the cache has for a process, if there is a cache. A lookup that fails finds nothing, and is counted.
    fn look_up<V: View>(
        &mut self,
        alloc: Global,
        desc: &Desc,
        view: &mut V,
    ) -> Result<Looked, Memory>
        ensures looked { IfOk result (IsLooked desc.now) }
        ensures meaning { V.answers view.new ≡ V.answers view.old }
        ensures goes { GoesOn self.old self.new }
    {
        let Some(reader) = &mut self.reader else {
            return Ok(Looked::Nothing(None));
        };
        let weak = weak(alloc, desc)?;
        match lookup_by(alloc, reader, &mut self.sets, desc, &weak.digest, view) {
            LookupResult::Hit(found) => Ok(Looked::Hit(found)),
            LookupResult::Miss => Ok(Looked::Nothing(Some(weak))),
            LookupResult::Fault => {
                self.tally.faults = self.tally.faults.saturating_add(1);
                Ok(Looked::Nothing(Some(weak)))
            }
            LookupResult::Memory => Err(AllocError),
        }
    }

    // The run of a process on a view, with the weak text of its lookup.
    fn ran<V: View, G: Gate>(
        &mut self,
        site: &Site<'_, G>,
        desc: Desc,
        pip: u32,
        view: &mut V,
        weak: Option<Printed>,
    ) -> Result<Record, Memory>
        requires { IfSome weak (IsWeakOf desc) }
        ensures goes { GoesOn self.old self.new }
    {
        let ran = execute_with(site.alloc, &mut self.tools, desc, pip, view, site.gate)?;
        match weak {
            Some(weak) => ran.with_weak(site.alloc, weak),
            None => Ok(ran),
        }
    }

    // Looks a process up, and else runs it.
    fn show_process<G: Gate>(
        &mut self,
        site: &Site<'_, G>,
        pip: u32,
        inputs: &Inputs,
    ) -> Result<Shown, Memory>
        requires there { pip < length site.now.plan.now.pips }
        requires process { IsSome (process_in (slice_get site.now.plan.now.pips pip)) }
        ensures kind { IfOk result (λ shown. fits_kind true shown ≡ true) }
        ensures goes { GoesOn self.old self.new }
    {
        let described = desc(site.alloc, site.plan, site.sources, pip, inputs)?;
        let mut view = PipView::new(site.alloc, site.plan, site.sources, pip, inputs)?;
        match self.look_up(site.alloc, &described, &mut view)? {
            Looked::Hit(found) => Ok(Shown::Hit(found.for_work(site.alloc, described)?)),
            Looked::Nothing(weak) => {
                let ran = self.ran(site, described, pip, &mut view, weak)?;
                Ok(Shown::Ran(ran))
            }
        }
    }

    // What a pip comes to, where its inputs made these files.
    pub(crate) fn show<G: Gate>(
        &mut self,
        site: &Site<'_, G>,
        pip: u32,
        is_process: bool,
        inputs: &Inputs,
    ) -> Result<Shown, Memory>
        requires { HasPip site.now.plan.now pip is_process }
        ensures kind { IfOk result (λ shown. fits_kind is_process shown ≡ true) }
        ensures goes { GoesOn self.old self.new }
    {
        if is_process {
            return self.show_process(site, pip, inputs);
        }
        let made = plain(site.alloc, site.plan, site.sources, pip, inputs)?;
        Ok(Shown::Plain(made))
    }
}
