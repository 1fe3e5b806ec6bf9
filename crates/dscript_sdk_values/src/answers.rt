//! Values that calls answer, within the limits.
ghost use Rattle.std.specs.Prelude.{◌≡◌, Ok, map, MatchResult};
ghost use Rattle.dscript_value.specs.Grown.{grown_items};
ghost use Rattle.dscript_value.specs.Plain.{plain_of};
ghost use Rattle.dscript_sdk_values.specs.Answers.{list_answer, number_answer, text_answer};
ghost use Rattle.dscript_sdk_values.specs.Outcomes.{Refuses};

use crate::fault::SdkFault;
use crate::limits::{MAX_LIST_ITEMS, MAX_TEXT_BYTES};
use bx_tree::Text;
use dscript_value::{DepthFault, GrowingList, Value, list_of};
use std::alloc::Global;

/// A text of these bytes.
pub fn text_value(alloc: Global, bytes: Vec<u8>) -> Result<Value, SdkFault>
    ensures { MatchResult result
        (λ value. text_answer bytes.items ≡ Ok (plain_of value))
        (λ fault. Refuses fault (text_answer bytes.items)) }
{
    if bytes.len() > MAX_TEXT_BYTES {
        return Err(SdkFault::Range);
    }
    Ok(Value::Text(Text::new(alloc, bytes)?))
}

/// A length as a number.
pub fn number_value(length: usize) -> Result<Value, SdkFault>
    ensures { MatchResult result
        (λ value. number_answer length ≡ Ok (plain_of value))
        (λ fault. Refuses fault (number_answer length)) }
{
    if length > i32::MAX as usize {
        return Err(SdkFault::Range);
    }
    Ok(Value::Number(length as i32))
}

/// A list of these items.
pub fn list_value(alloc: Global, items: Vec<Value>) -> Result<Value, SdkFault>
    ensures { MatchResult result
        (λ value. list_answer (map plain_of items.items) ≡ Ok (plain_of value))
        (λ fault. Refuses fault (list_answer (map plain_of items.items))) }
{
    if items.len() > MAX_LIST_ITEMS {
        return Err(SdkFault::Range);
    }
    match list_of(alloc, items) {
        Ok(value) => Ok(value),
        Err(DepthFault::TooDeep) => Err(SdkFault::Range),
        Err(DepthFault::Memory) => Err(SdkFault::Memory),
    }
}

/// A list of what has been added.
pub fn grown_list(alloc: Global, list: GrowingList) -> Result<Value, SdkFault>
    ensures { MatchResult result
        (λ value. list_answer (grown_items list) ≡ Ok (plain_of value))
        (λ fault. Refuses fault (list_answer (grown_items list))) }
{
    if list.len() > MAX_LIST_ITEMS {
        return Err(SdkFault::Range);
    }
    match list.finish(alloc) {
        Ok(value) => Ok(value),
        Err(DepthFault::TooDeep) => Err(SdkFault::Range),
        Err(DepthFault::Memory) => Err(SdkFault::Memory),
    }
}
