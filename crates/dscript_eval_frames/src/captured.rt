//! The locals that a body captured, and what they hold.
ghost use Rattle.std.specs.Prelude.{◌≡◌, map, slice_get, unwrap_or, IfOk, IsTrue};
ghost use Rattle.std.specs.BTreeMap.{get};
ghost use Rattle.std.specs.Ordering.{nat_cmp};
ghost use Rattle.dscript_value.specs.Plain.{plain_of};
ghost use Rattle.dscript_eval_meaning.specs.Frames.{captured_value};
ghost use Rattle.dscript_eval_frames.specs.Increasing.{is_increasing};
ghost use Rattle.dscript_eval_frames.specs.Placed.{KeepPlaces};

use crate::own::value_at;
use bx_tree::Memory;
use dscript_value::Value;
use std::alloc::Global;
use std::collections::BTreeMap;

// The place of each captured local, the first where it is there more than once.
pub(crate) type Places = BTreeMap<u32, usize>;

// Whether each local is greater than the one before it.
#[tactic(auto, using(crate::proofs::Ascents::ascents))]
pub(crate) fn are_increasing(locals: &[u32]) -> bool
    ensures { result ≡ is_increasing locals.now }
{
    let mut least = 0;
    'locals: for local in locals {
        if (*local as u64) < least {
            return false;
        }
        least = *local as u64 + 1;
    }
    true
}

// The value of a captured local, by the values that a function holds.
#[tactic(auto, using(crate::proofs::Locals::captures))]
pub(crate) fn captured_at(captured: &[u32], held: &[Value], local: u32) -> Result<Value, Memory>
    ensures { IfOk result (λ value. plain_of value
        ≡ captured_value captured.now (map plain_of held.now) local) }
{
    'captured: for (place, first) in captured.iter().enumerate() {
        if *first == local {
            return value_at(held, place);
        }
    }
    Ok(Value::Undefined)
}

// The value of a captured local, where each is greater than the one before it.
pub(crate) fn binary_searched(captured: &[u32], held: &[Value], local: u32) -> Result<Value, Memory>
    requires { IsTrue (is_increasing captured.now) }
    ensures { IfOk result (λ value. plain_of value
        ≡ captured_value captured.now (map plain_of held.now) local) }
{
    match captured.binary_search(&local) {
        Ok(place) => value_at(held, place),
        Err(_) => Ok(Value::Undefined),
    }
}

// The place of each of these locals.
pub(crate) fn places_of(alloc: Global, locals: &[u32]) -> Result<Places, Memory>
    ensures { IfOk result (λ places. KeepPlaces places 0 locals.now) }
{
    let mut places = BTreeMap::new(alloc);
    let mut place = locals.len();
    // From the last on, so that the first place of a local stays.
    'locals: while place > 0 {
        place -= 1;
        places.insert(locals[place], place)?;
    }
    Ok(places)
}

// The place that is kept for a local.
fn place_of(places: &Places, local: u32) -> Option<usize>
    ensures { result ≡ get nat_cmp places.now local }
{
    places.get(&local).copied()
}

// The value of a captured local, by the place that is kept for it.
pub(crate) fn placed(
    captured: &[u32],
    places: &Places,
    held: &[Value],
    local: u32,
) -> Result<Value, Memory>
    requires { KeepPlaces places.now 0 captured.now }
    ensures { IfOk result (λ value. plain_of value
        ≡ captured_value captured.now (map plain_of held.now) local) }
{
    match place_of(places, local) {
        Some(place) => value_at(held, place),
        None => Ok(Value::Undefined),
    }
}
