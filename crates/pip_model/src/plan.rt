//! The plan of a build.
ghost use Rattle.std.specs.Prelude.{◌≡◌, ◌↔◌, ◌<◌, ◌≤◌, ℕ, true, length, All, Contains, IsTrue, IfOk};
ghost use Rattle.pip_model_types.specs.Makers.{IsPipList};
ghost use Rattle.pip_model.specs.Edges.{CanProduce, Leads};
ghost use Rattle.pip_model.specs.Listings.{ListsNear, has_wide};
ghost use Rattle.pip_model.specs.Outputs.{numbers_from};
ghost use Rattle.pip_model.specs.Plans.{AreInputs};

use crate::bits::BitSet;
use crate::edges::{Inputs, all_inputs};
use crate::listings::{Listings, by_listing};
use crate::outputs::{ByPath, by_output};
use crate::producing::produces;
use crate::reach::all_rows;
use bx_tree::Path;
use pip_model_types::{Pip, PipList};
use std::alloc::{AllocError, Global};
use std::marker::Model;

/// The largest number of pips in a plan.
pub const MAX_PIPS: usize = 16384;

/// The pips of a build, with which of them each one waits for and to which walks from it lead. Contracts
/// see the pips and the steps that each tool may take, which determine all else.
#[derive(Drop)]
pub struct Plan {
    pips: PipList,
    tool_budget: u64,
    inputs: Vec<Inputs>,
    reach: Vec<BitSet>,
    outputs: ByPath,
    listings: Listings,
}

impl Model for Plan {
    ghost use Rattle.pip_model.specs.Plans.{KeepsPlan, PlanData};

    ghost Value = { PlanData };

    ghost view = { λ p. record { pips = p.pips; tool_budget = p.tool_budget } };

    ghost invariant = { λ p. KeepsPlan p.pips p.inputs.items p.reach.items p.outputs p.listings };
}

impl Plan {
    /// The plan of these pips.
    pub fn build(alloc: Global, pips: PipList, tool_budget: u64) -> Result<Plan, AllocError>
        requires { length pips ≤ MAX_PIPS }
        ensures pips { IfOk result (λ plan. plan.pips ≡ pips) }
        ensures tool_budget { IfOk result (λ plan. plan.tool_budget ≡ tool_budget) }
    {
        let inputs = all_inputs(alloc, pips.pips())?;
        let reach = all_rows(alloc, inputs.as_slice())?;
        let outputs = by_output(alloc, pips.pips())?;
        let listings = by_listing(alloc, pips.pips())?;
        Ok(Plan {
            pips,
            tool_budget,
            inputs,
            reach,
            outputs,
            listings,
        })
    }

    /// The pips, by number.
    pub fn pips(&self) -> &[Pip]
        ensures pips { result.now ≡ self.now.pips }
        ensures list { IsPipList self.now.pips }
        ensures few { length self.now.pips ≤ MAX_PIPS }
    {
        self.pips.pips()
    }

    /// The steps that each tool may take.
    pub fn tool_budget(&self) -> u64
        ensures { result ≡ self.now.tool_budget }
    {
        self.tool_budget
    }

    /// The pips that a pip waits for, rising. Each is smaller than the pip.
    pub fn inputs(&self, pip: u32) -> &[u32]
        requires { pip < length self.now.pips }
        ensures inputs { AreInputs self.now.pips pip result.now }
        ensures smaller { All (λ input. input < pip) result.now }
    {
        let _ = self.pips.pips();
        self.inputs[pip as usize].numbers()
    }

    /// Whether a pip can produce a file at a path.
    pub fn can_produce(&self, pip: u32, path: &Path) -> bool
        requires { pip < length self.now.pips }
        ensures { IsTrue result ↔ CanProduce self.now.pips pip path.now }
    {
        produces(&self.pips()[pip as usize].kind, path)
    }

    /// The pips with an output whose path has this text, once for each such output: a declared output file, a
    /// console file or an output directory.
    pub fn pips_with_output(&self, text: &[u8]) -> &[u32]
        ensures { result.now ≡ numbers_from 0 text.now self.now.pips }
    {
        self.outputs.at(text)
    }

    /// The seals that list a file at the path with this text or below it, and maybe others. Where no pip takes
    /// more than `FEW_DIRS` directories, any may be left out.
    pub fn seals_near(&self, text: &[u8]) -> &[u32]
        ensures { has_wide self.now.pips ≡ true
            → (j : ℕ) → ListsNear self.now.pips j text.now → Contains result.now j }
    {
        self.listings.near(text)
    }

    /// Whether a walk of one edge or more goes from one pip to another.
    pub fn reaches(&self, from: u32, to: u32) -> bool
        requires from { from < length self.now.pips }
        requires to { to < length self.now.pips }
        ensures { IsTrue result ↔ Leads self.now.pips from to }
    {
        self.reach[from as usize].has(to as usize)
    }
}
