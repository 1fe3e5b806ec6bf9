//! Making lists and functions, each one deeper than what it holds.
ghost use Rattle.std.specs.Prelude.{◌≡◌, ◌∷◌, [], Some, None, map, max, IfOk, MatchResult};
ghost use Rattle.dscript_value.specs.Depths.{depth_of, function_value, greatest_depth, list_value};
ghost use Rattle.dscript_value.specs.Plain.{plain_of};
ghost use Rattle.dscript_value.specs.declared.parts.Callee.TheVariants as callees;

use crate::parts::Callee;
use crate::value::{FlatValues, FunctionRef, Value, Values};
use bx_tree::Text;
use dscript_program::Ambient;
use std::alloc::{AllocError, AllocFailed, Global};

/// The greatest depth of a value.
pub const MAX_DEPTH: u32 = 1000;

/// Why a value is not made.
#[derive(Clone, Copy, Debug, PartialEq, Eq)]
pub enum DepthFault {
    /// The value would be deeper than `MAX_DEPTH`.
    TooDeep,
    /// Out of memory.
    Memory,
}

impl From<AllocError> for DepthFault {
    ghost use Rattle.std.specs.Prelude.{◌≡◌};
    ghost use Rattle.dscript_value.specs.declared.makers.DepthFault.TheVariants as depth_faults;

    ghost from_gives = { λ _ e. e ≡ depth_faults.Memory };

    fn from(_: AllocError) -> Self {
        DepthFault::Memory
    }
}

impl<T: Drop> From<AllocFailed<T>> for DepthFault {
    ghost use Rattle.std.specs.Prelude.{◌≡◌};
    ghost use Rattle.dscript_value.specs.declared.makers.DepthFault.TheVariants as depth_faults;

    ghost from_gives = { λ _ e. e ≡ depth_faults.Memory };

    fn from(_: AllocFailed<T>) -> Self {
        DepthFault::Memory
    }
}

pub(crate) fn larger(a: u32, b: u32) -> u32
    ensures { result ≡ max a b }
{
    if a < b { b } else { a }
}

// The greatest depth of some values.
pub(crate) fn deepest(items: &[Value]) -> u32
    ensures { result ≡ greatest_depth (map plain_of items.now) }
{
    let mut depth = 0;
    'items: for item in items {
        depth = larger(depth, item.depth());
    }
    depth
}

/// The list of these items.
pub fn list_of(alloc: Global, items: Vec<Value>) -> Result<Value, DepthFault>
    ensures { MatchResult result
        (λ value. list_value (map plain_of items.items) ≡ Some (plain_of value))
        (λ fault. fault ≡ DepthFault.TooDeep → list_value (map plain_of items.items) ≡ None) }
{
    let depth = deepest(items.as_slice());
    if depth >= MAX_DEPTH {
        return Err(DepthFault::TooDeep);
    }
    Ok(Values::of(FlatValues::new(alloc, depth, items)?).list())
}

/// The declared or arrow function with this number, which captured these values.
pub fn place_function(alloc: Global, number: u32, captured: Vec<Value>) -> Result<Value, DepthFault>
    ensures { MatchResult result
        (λ value. function_value (callees.Place number) (map plain_of captured.items) ≡ Some (plain_of value))
        (λ fault. fault ≡ DepthFault.TooDeep
        → function_value (callees.Place number) (map plain_of captured.items) ≡ None) }
{
    let depth = deepest(captured.as_slice());
    if depth >= MAX_DEPTH {
        return Err(DepthFault::TooDeep);
    }
    let held = FlatValues::new(alloc, depth, captured)?;
    Ok(Value::Function(FunctionRef::new(Callee::Place(number), held)))
}

/// An ambient call as a value.
pub fn ambient_function(alloc: Global, call: Ambient) -> Result<Value, AllocError>
    ensures { IfOk result (λ value. function_value (callees.Ambient call) [] ≡ Some (plain_of value)) }
{
    let held = FlatValues::new(alloc, 0, Vec::new(alloc))?;
    Ok(Value::Function(FunctionRef::new(Callee::Ambient(call), held)))
}

/// The member function with this name of a value.
pub fn member_of(alloc: Global, value: Value, name: Text) -> Result<Value, DepthFault>
    ensures { MatchResult result
        (λ made. function_value (callees.Member name) (plain_of value ∷ []) ≡ Some (plain_of made))
        (λ fault. fault ≡ DepthFault.TooDeep
        → function_value (callees.Member name) (plain_of value ∷ []) ≡ None) }
{
    let depth = value.depth();
    if depth >= MAX_DEPTH {
        return Err(DepthFault::TooDeep);
    }
    let mut held = Vec::new(alloc);
    held.push(value)?;
    let held = FlatValues::new(alloc, depth, held)?;
    Ok(Value::Function(FunctionRef::new(Callee::Member(name), held)))
}
