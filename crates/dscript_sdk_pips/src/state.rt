//! What calls leave for those after them.
ghost use Rattle.std.specs.Prelude.{◌≡◌, ◌-◌, ◌∷◌, ◌++◌, ℕ, [], length, take, Ok, IfOk, IfErr, OnErr, OnOk};
ghost use Rattle.dscript_sdk_pips.specs.States.{no_calls_over, over_tree, with_ask, with_asks, with_pip};
ghost use Rattle.dscript_value.specs.Plain.{Plain, plain_of};
ghost use Rattle.dscript_sdk_values.specs.Outcomes.{Refuses};
ghost use Rattle.dscript_sdk_pips.specs.NewOutputDirectory.{next_directory as directory_after};

use crate::counts::Counts;
use crate::limits::MAX_NUMBERED_PIPS;
use crate::new_directories::numbered;
use crate::site::Site;
use bx_tree::{Memory, Path, Tree};
use dscript_sdk_calls::TreeAsk;
use dscript_sdk_values::SdkFault;
use dscript_value::Value;
use pip_model_types::{Pip, PipKind};
use std::alloc::Global;
use std::marker::Model;

/// The pips that calls made so far, with the source tree that they ask, the numbers of the output directories
/// that they made, and what they asked. Contracts see the source files, the list of pips, for each directory
/// how many output directories were made in it, and the asks in their order.
#[derive(Drop)]
pub struct SdkState<'a> {
    tree: &'a Tree,
    pips: Vec<Pip>,
    counts: Counts,
    asks: Vec<TreeAsk>,
}

impl<'a> Model for SdkState<'a> {
    ghost use Rattle.dscript_sdk_pips.specs.States.{TreeState};
    ghost use Rattle.dscript_sdk_pips.specs.Kept.{counts_code};
    ghost use Rattle.std.specs.Coded.{codes};

    ghost Value = { TreeState };

    ghost coded = { Prim.hlevel (codes, counts_code) };

    ghost view = { λ s. record {
      sources = s.tree.now;
      pips = s.pips.items;
      counts = s.counts;
      asks = s.asks.items;
    } };
}

impl<'a> SdkState<'a> {
    /// The state before the first call over this tree.
    pub fn new(alloc: Global, tree: &'a Tree) -> Result<SdkState<'a>, Memory>
        ensures { IfOk result (λ state. state ≡ no_calls_over tree.entry.now) }
    {
        Ok(SdkState {
            tree,
            pips: Vec::new(alloc),
            counts: Counts::new(alloc),
            asks: Vec::new(alloc),
        })
    }

    /// The pips, in the order of the calls that made them, and the asks, in the order of the calls that made
    /// them.
    pub fn into_parts(self) -> (Vec<Pip>, Vec<TreeAsk>)
        ensures pips { result.0.items ≡ self.entry.pips }
        ensures asks { result.1.items ≡ self.entry.asks }
    {
        let SdkState {
            tree: _,
            pips,
            counts: _,
            asks,
        } = self;
        (pips, asks)
    }

    /// Notes what a call asks. Nothing else changes.
    pub fn note(&mut self, ask: TreeAsk) -> Result<(), Memory>
        ensures noted { OnOk result (self.new ≡ with_asks (self.old.asks ++ ask ∷ []) self.old) }
        ensures unchanged { OnErr result (self.new ≡ self.old) }
    {
        self.asks.push(ask)?;
        Ok(())
    }

    // Takes the last ask back.
    fn take_back(&mut self)
        ensures { self.new ≡ with_asks (take (length self.old.asks - 1) self.old.asks) self.old }
    {
        self.asks.pop();
    }

    /// Adds a pip that a call asks for, and gives its number. What it names as made is not looked at here: evaluation
    /// makes no other pips than those that may come next.
    pub fn add(&mut self, site: &Site, kind: PipKind) -> Result<u32, SdkFault>
        ensures added { IfOk result (λ number. (value : ℕ → Plain)
            → with_pip site.now.file kind value (over_tree self.old) ≡ Ok (value number, over_tree self.new)) }
        ensures memory { IfErr result (λ fault. fault ≡ SdkFault.Memory) }
        ensures unchanged { OnErr result (self.new ≡ self.old) }
        ensures sources { self.new.sources ≡ self.old.sources }
    {
        let spec = site.file.share()?;
        let number = self.pips.len();
        if number >= MAX_NUMBERED_PIPS as usize {
            return Err(SdkFault::Memory);
        }
        self.pips.push(Pip { spec, kind })?;
        Ok(number as u32)
    }

    /// Adds a pip of a call that makes this ask, and gives its number.
    pub(crate) fn add_asked(
        &mut self,
        site: &Site,
        kind: PipKind,
        ask: TreeAsk,
    ) -> Result<u32, SdkFault>
        ensures added { IfOk result (λ number. (value : ℕ → Plain)
            → with_pip site.now.file kind value (with_ask ask (over_tree self.old))
            ≡ Ok (value number, over_tree self.new)) }
        ensures memory { IfErr result (λ fault. fault ≡ SdkFault.Memory) }
        ensures unchanged { OnErr result (self.new ≡ self.old) }
        ensures sources { self.new.sources ≡ self.old.sources }
    {
        self.note(ask)?;
        match self.add(site, kind) {
            Ok(number) => Ok(number),
            Err(fault) => {
                self.take_back();
                Err(fault)
            }
        }
    }

    /// The pips, by number.
    pub fn pips(&self) -> &[Pip]
        ensures { result.now ≡ self.now.pips }
    {
        self.pips.as_slice()
    }

    /// The source files.
    pub fn tree(&self) -> &Tree
        ensures { result.now ≡ self.now.sources }
    {
        self.tree
    }

    // Makes the next numbered directory in a directory.
    pub(crate) fn next_directory(&mut self, alloc: Global, dir: Path) -> Result<Value, SdkFault>
        ensures answer { IfOk result (λ value.
            directory_after dir (over_tree self.old) ≡ Ok (plain_of value, over_tree self.new)) }
        ensures fault { IfErr result (λ fault. Refuses fault (directory_after dir (over_tree self.old))) }
        ensures unchanged { OnErr result (self.new ≡ self.old) }
        ensures sources { self.new.sources ≡ self.old.sources }
    {
        let number = self.counts.count(&dir);
        if number == u64::MAX {
            return Err(SdkFault::Memory);
        }
        let path = numbered(alloc, &dir, number)?;
        self.counts.keep(dir, number + 1)?;
        Ok(Value::Directory(path))
    }
}
