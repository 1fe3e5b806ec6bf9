//! Items of lists that are gone through one by one, and lists that grow.
ghost use Rattle.std.specs.Prelude.{◌≡◌, ◌+◌, ◌∷◌, ◌++◌, [], drop, map, IfOk, MatchOption, MatchResult, Ok};
ghost use Rattle.dscript_value.specs.Grown.{grown_items};
ghost use Rattle.dscript_value.specs.Plain.{item_list, plain_field, plain_of, plain_values};
ghost use Rattle.dscript_sdk_values.specs.Kinds.{items_in};
ghost use Rattle.dscript_sdk_values.specs.Outcomes.{Refuses};
ghost use Rattle.dscript_eval_frames.specs.ItemsFrom.{IsItemFrom};

use bx_tree::{Memory, Text};
use dscript_sdk_values::SdkFault;
use dscript_value::{Field, GrowingList, Value, Values};

/// The items of a list, shared.
pub fn shared_items(value: &Value) -> Result<Values, SdkFault>
    ensures { MatchResult result
        (λ items. items_in (plain_of value.now) ≡ Ok (item_list (plain_values items).items))
        (λ fault. Refuses fault (items_in (plain_of value.now))) }
{
    match value {
        Value::List(items) => Ok(items.share()?),
        _ => Err(SdkFault::Kind),
    }
}

/// The item at a position, if there is one.
pub fn item_ref(items: &Values, at: usize) -> Option<&Value>
    ensures { MatchOption result
        (drop at (item_list (plain_values items.now).items) ≡ [])
        (λ item. drop at (item_list (plain_values items.now).items)
        ≡ plain_of item.now ∷ drop (at + 1) (item_list (plain_values items.now).items)) }
{
    items.get(at)
}

/// The item at a position, and the position after it, if there is an item.
pub fn item_at(items: &Values, at: usize) -> Result<Option<(Value, usize)>, Memory>
    ensures { IfOk result (λ found. IsItemFrom (item_list (plain_values items.now).items) at found) }
{
    if at >= items.len() {
        return Ok(None);
    }
    match items.get(at) {
        Some(item) => {
            let copy = item.share()?;
            Ok(Some((copy, at + 1)))
        }
        None => Ok(None),
    }
}

/// Adds an item to those of a list that is being made.
pub fn push_item(items: &mut GrowingList, item: Value) -> Result<(), Memory>
    ensures { IfOk result (λ _. grown_items items.new ≡ grown_items items.old ++ plain_of item ∷ []) }
{
    items.push(item)
}

/// Adds a value to those that are there.
pub fn add_value(values: &mut Vec<Value>, value: Value) -> Result<(), Memory>
    ensures { IfOk result (λ _. map plain_of values.new.items
        ≡ map plain_of values.old.items ++ plain_of value ∷ []) }
{
    values.push(value)?;
    Ok(())
}

fn field_of(name: Text, value: Value) -> Field
    ensures { plain_field result ≡ (name, plain_of value) }
{
    Field { name, value }
}

/// Adds a field to those that are there.
pub fn add_field(fields: &mut Vec<Field>, name: Text, value: Value) -> Result<(), Memory>
    ensures { IfOk result (λ _. map plain_field fields.new.items
        ≡ map plain_field fields.old.items ++ (name, plain_of value) ∷ []) }
{
    fields.push(field_of(name, value))?;
    Ok(())
}
