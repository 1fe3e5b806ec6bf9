//! A function of a program, with how the locals that it captured are found.
ghost use Rattle.std.specs.Prelude.{◌≡◌, map, ℕ, IfOk, IsTrue};
ghost use Rattle.std.specs.BTreeMap.{BTreeMap};
ghost use Rattle.dscript_value.specs.Plain.{plain_of};
ghost use Rattle.dscript_eval_meaning.specs.Frames.{captured_value};
ghost use Rattle.dscript_eval_frames.specs.Increasing.{is_increasing};
ghost use Rattle.dscript_eval_frames.specs.Placed.{KeepPlaces};
ghost use Rattle.dscript_eval_frames.specs.declared.code.Search.TheVariants as searches;

use crate::captured::{Places, are_increasing, binary_searched, captured_at, placed, places_of};
use bx_tree::Memory;
use dscript_program::Function;
use dscript_value::Value;
use std::alloc::Global;

/// How the captured locals of a function are found.
#[derive(Drop)]
pub enum Search {
    /// Linear search, where there are few.
    Linear,
    /// Binary search, where they are sorted.
    Binary,
    /// By a map from locals to places.
    Placed(Places),
}

/// A function of a program, with how its captured locals are found.
#[derive(Drop)]
pub struct Code<'a> {
    pub function: &'a Function,
    pub search: Search,
    pub ghost increasing: { search ≡ searches.Binary → IsTrue (is_increasing function.now.captured.items) },
    pub ghost placed: { (places : BTreeMap ℕ ℕ) → search ≡ searches.Placed places
        → KeepPlaces places 0 function.now.captured.items },
}

// Up to this many captured locals are looked through one after another.
const MANY: usize = 128;

impl<'a> Code<'a> {
    // Where a function captures many locals that are not sorted, a map of their places is made.
    pub(crate) fn of(alloc: Global, function: &'a Function) -> Result<Code<'a>, Memory>
        ensures { IfOk result (λ code. code.function.now ≡ function.now) }
    {
        let captured = function.captured.as_slice();
        if captured.len() <= MANY {
            return Ok(Code {
                function,
                search: Search::Linear,
            });
        }
        if are_increasing(captured) {
            return Ok(Code {
                function,
                search: Search::Binary,
            });
        }
        let places = places_of(alloc, captured)?;
        Ok(Code {
            function,
            search: Search::Placed(places),
        })
    }

    // What a captured local holds, by the values that a function holds.
    pub(crate) fn value(&self, held: &[Value], local: u32) -> Result<Value, Memory>
        ensures { IfOk result (λ value. plain_of value
            ≡ captured_value self.now.function.now.captured.items (map plain_of held.now) local) }
    {
        let captured = self.function.captured.as_slice();
        match &self.search {
            Search::Linear => captured_at(captured, held, local),
            Search::Binary => binary_searched(captured, held, local),
            Search::Placed(places) => placed(captured, places, held, local),
        }
    }
}
