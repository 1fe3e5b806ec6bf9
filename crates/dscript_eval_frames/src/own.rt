//! The own locals of a body: a list of the first ones, and those that were bound far beyond its end.
ghost use Rattle.std.specs.Prelude.{◌≡◌, ◌<◌, ◌≤◌, ◌+◌, ◌++◌, ◌∷◌, ℕ, List, length, map, slice_get, slice_set, take};
ghost use Rattle.std.specs.Prelude.{option_copied, unwrap_or, IfOk, OnErr, OnOk};
ghost use Rattle.std.specs.Option.{option_map};
ghost use Rattle.dscript_value.specs.Plain as plain;
ghost use Rattle.dscript_value.specs.Plain.{plain_of};
ghost use Rattle.dscript_value.specs.declared.value.Value.{Value};
ghost use Rattle.dscript_eval_frames.specs.Own.{own_values};

use bx_tree::Memory;
use dscript_value::Value;
use std::alloc::Global;
use std::collections::BTreeMap;
use std::mem;

// The value that was found, shared; `undefined` where none was.
fn shared(found: Option<&Value>) -> Result<Value, Memory>
    ensures { IfOk result (λ value. plain_of value
        ≡ unwrap_or (option_map plain_of (option_copied found.entry)) plain.Undefined) }
{
    match found {
        Some(value) => value.share(),
        None => Ok(Value::Undefined),
    }
}

// The value with this number, or `undefined` where there is none.
pub(crate) fn value_at(values: &[Value], number: usize) -> Result<Value, Memory>
    ensures { IfOk result (λ value. plain_of value
        ≡ unwrap_or (slice_get (map plain_of values.now) number) plain.Undefined) }
{
    match values.get(number) {
        Some(value) => value.share(),
        None => Ok(Value::Undefined),
    }
}

// The value in a place, or `undefined` where there is none.
pub(crate) fn value_in(
    own: &[Value],
    far: &BTreeMap<usize, Value>,
    count: u32,
    place: usize,
) -> Result<Value, Memory>
    ensures { IfOk result (λ value. plain_of value
        ≡ unwrap_or (slice_get (own_values own.now far.now count) place) plain.Undefined) }
{
    if place < own.len() {
        value_at(own, place)
    } else if place < count as usize {
        shared(far.get(&place))
    } else {
        Ok(Value::Undefined)
    }
}

/// The first values, as many as this, or all if there are fewer.
pub fn first_of(values: &[Value], count: usize) -> &[Value]
    ensures { map plain_of result.now ≡ take count (map plain_of values.now) }
{
    if count < values.len() {
        &values[..count]
    } else {
        values
    }
}

// These values, shared.
fn shares(alloc: Global, values: &[Value]) -> Result<Vec<Value>, Memory>
    ensures { IfOk result (λ copies. map plain_of copies.items ≡ map plain_of values.now) }
{
    let mut copies = Vec::new(alloc);
    'values: for value in values {
        copies.push(value.share()?)?;
    }
    Ok(copies)
}

// The arguments with which own locals begin: one for each parameter, as far as there are locals.
pub(crate) fn own_arguments(
    alloc: Global,
    args: &[Value],
    params: usize,
    count: u32,
) -> Result<Vec<Value>, Memory>
    ensures { IfOk result (λ own. map plain_of own.items
        ≡ take count (take params (map plain_of args.now))) }
{
    shares(alloc, first_of(first_of(args, params), count as usize))
}

// Puts a value in a place of a list, if there is one.
#[tactic(auto, using(crate::proofs::Places::places))]
pub(crate) fn put_at(own: &mut Vec<Value>, place: usize, value: Value)
    ensures len { length own.new.items ≡ length own.old.items }
    ensures put { map plain_of own.new.items ≡ slice_set (map plain_of own.old.items) place (plain_of value) }
{
    if place < own.len() {
        drop(mem::replace(&mut own[place], value));
    } else {
        drop(value);
    }
}

// Puts the value that is kept for the next place into the list.
fn fill_next(own: &mut Vec<Value>, far: &BTreeMap<usize, Value>) -> Result<(), Memory>
    ensures len { OnOk result (length own.new.items ≡ length own.old.items + 1) }
    ensures values { (count : ℕ) → length own.old.items < count
        → own_values own.new.items far.now count ≡ own_values own.old.items far.now count }
{
    let next = own.len();
    let value = shared(far.get(&next))?;
    own.push(value)?;
    Ok(())
}

// Puts the values that are kept for as many places into the list.
fn fill(own: &mut Vec<Value>, far: &BTreeMap<usize, Value>, missing: usize) -> Result<(), Memory>
    ensures len { OnOk result (length own.new.items ≡ length own.old.items + missing) }
    ensures values { (count : ℕ) → length own.old.items + missing ≤ count
        → own_values own.new.items far.now count ≡ own_values own.old.items far.now count }
{
    'places: for _ in 0..missing {
        fill_next(own, far)?;
    }
    Ok(())
}

// Puts a value into the list, after those that are kept for as many places before it.
pub(crate) fn put_after(
    own: &mut Vec<Value>,
    far: &BTreeMap<usize, Value>,
    missing: usize,
    value: Value,
) -> Result<(), Memory>
    ensures put { OnOk result ((count : ℕ) → length own.old.items + missing < count
        → own_values own.new.items far.now count
        ≡ slice_set (own_values own.old.items far.now count) (length own.old.items + missing) (plain_of value)) }
    ensures none { OnErr result ((count : ℕ) → length own.old.items + missing < count
        → own_values own.new.items far.now count ≡ own_values own.old.items far.now count) }
{
    fill(own, far, missing)?;
    own.push(value)?;
    Ok(())
}

// Keeps a value for a place beyond the end of the list.
pub(crate) fn put_far(
    far: &mut BTreeMap<usize, Value>,
    place: usize,
    value: Value,
) -> Result<(), Memory>
    ensures put { OnOk result ((own : List Value) (count : ℕ) → length own ≤ place
        → own_values own far.new count ≡ slice_set (own_values own far.old count) place (plain_of value)) }
    ensures none { OnErr result ((own : List Value) (count : ℕ)
        → own_values own far.new count ≡ own_values own far.old count) }
{
    far.insert(place, value)?;
    Ok(())
}
