//! The list of all pips.
ghost use Rattle.std.specs.Prelude.{◌≡◌, ◌↔◌, ◌++◌, ◌∷◌, ◌<◌, [], length, IsTrue, IfOk, OnErr};
ghost use Rattle.pip_model_types.specs.Makers.{FitsAfter, IsPipList};

use crate::fits::fits_after;
use crate::pip::Pip;
use std::alloc::{AllocError, Global};
use std::marker::Model;

/// The pips of a build, numbered from 0 in the order in which they were made. Contracts see them as a
/// list, of which each pip names as made only what a smaller pip makes.
#[derive(Drop)]
pub struct PipList {
    pips: Vec<Pip>,
}

impl Model for PipList {
    ghost use Rattle.std.specs.Prelude.{List};
    ghost use Rattle.pip_model_types.specs.declared.pip.Pip.{Pip};
    ghost use Rattle.pip_model_types.specs.Makers.{IsPipList};

    ghost Value = { List Pip };

    ghost view = { λ l. l.pips.items };

    ghost invariant = { λ l. IsPipList l.pips.items };
}

impl PipList {
    /// No pips.
    pub fn new(alloc: Global) -> PipList
        ensures { result ≡ [] }
    {
        PipList {
            pips: Vec::new(alloc),
        }
    }

    /// The list of these pips, each of which names as made only what a smaller one makes.
    pub fn of(pips: Vec<Pip>) -> PipList
        requires { IsPipList pips.items }
        ensures { result ≡ pips.items }
    {
        PipList { pips }
    }

    /// The pips, by number.
    pub fn pips(&self) -> &[Pip]
        ensures pips { result.now ≡ self.now }
        ensures list { IsPipList self.now }
    {
        self.pips.as_slice()
    }

    /// Whether a pip may come next: what it names as made, a pip of the list makes.
    pub fn fits(&self, pip: &Pip) -> bool
        ensures { IsTrue result ↔ FitsAfter self.now pip.now }
    {
        fits_after(self.pips(), pip)
    }

    /// Adds a pip, and gives its number.
    pub fn push(&mut self, pip: Pip) -> Result<u32, AllocError>
        requires fits { FitsAfter self.old pip }
        requires few { length self.old < u32.MAX }
        ensures number { IfOk result (λ number. number ≡ length self.old) }
        ensures added { IfOk result (λ number. self.new ≡ self.old ++ pip ∷ []) }
        ensures refused { OnErr result (self.new ≡ self.old) }
    {
        let number = self.pips.len() as u32;
        self.pips.push(pip)?;
        Ok(number)
    }
}
