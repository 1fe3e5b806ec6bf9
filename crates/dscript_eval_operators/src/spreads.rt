//! What `...` adds to a list or an object.
ghost use Rattle.std.specs.Prelude.{◌≡◌, ◌++◌, Ok, map, IfOk, MatchResult, OnErr, OnOk};
ghost use Rattle.dscript_value.specs.Grown.{grown_items};
ghost use Rattle.dscript_value.specs.Plain.{plain_field, plain_of};
ghost use Rattle.dscript_sdk_values.specs.Outcomes.{Refuses};
ghost use Rattle.dscript_eval_operators.specs.Spreads.{with_fields_of, with_items_of};

use bx_tree::Memory;
use dscript_sdk_values::{MAX_LIST_ITEMS, SdkFault, read_values};
use dscript_value::{Field, GrowingList, Value};
use std::alloc::Global;

/// Adds the items of a list to some items, which together must be few enough. Where it fails, the items are as before.
#[tactic(auto, unfolding(crate::specs::Spreads::with_items_of))]
pub fn add_items(alloc: Global, items: &mut GrowingList, list: &Value) -> Result<(), SdkFault>
    ensures adds { MatchResult result
        (λ _. with_items_of (grown_items items.old) (plain_of list.now) ≡ Ok (grown_items items.new))
        (λ fault. Refuses fault (with_items_of (grown_items items.old) (plain_of list.now))) }
    ensures unchanged { OnErr result (grown_items items.new ≡ grown_items items.old) }
{
    let more = read_values(list)?;
    if items.len() > MAX_LIST_ITEMS || more.len() > MAX_LIST_ITEMS - items.len() {
        return Err(SdkFault::Range);
    }
    items.append(alloc, more)?;
    Ok(())
}

// A field like this one.
fn share_field(field: &Field) -> Result<Field, Memory>
    ensures { IfOk result (λ copy. plain_field copy ≡ plain_field field.now) }
{
    let name = field.name.share()?;
    let value = field.value.share()?;
    Ok(Field { name, value })
}

// Fields like these.
fn shared(alloc: Global, fields: &[Field]) -> Result<Vec<Field>, Memory>
    ensures { IfOk result (λ copies. map plain_field copies.items ≡ map plain_field fields.now) }
{
    let mut copies = Vec::new(alloc);
    'fields: for field in fields {
        copies.push(share_field(field)?)?;
    }
    Ok(copies)
}

// Adds fields like these, or none.
fn add_shared(alloc: Global, fields: &mut Vec<Field>, more: &[Field]) -> Result<(), Memory>
    ensures adds { OnOk result (map plain_field fields.new.items
        ≡ map plain_field fields.old.items ++ map plain_field more.now) }
    ensures unchanged { OnErr result (fields.new.items ≡ fields.old.items) }
{
    let mut copies = shared(alloc, more)?;
    fields.append(&mut copies)
}

/// Adds the fields of an object to some fields. `undefined` has none. Where it fails, the fields are as before.
#[tactic(auto, unfolding(crate::specs::Spreads::with_fields_of, crate::specs::Spreads::spread_fields))]
pub fn add_fields(alloc: Global, fields: &mut Vec<Field>, value: &Value) -> Result<(), SdkFault>
    ensures adds { MatchResult result
        (λ _. with_fields_of (map plain_field fields.old.items) (plain_of value.now)
        ≡ Ok (map plain_field fields.new.items))
        (λ fault. Refuses fault (with_fields_of (map plain_field fields.old.items) (plain_of value.now))) }
    ensures unchanged { OnErr result (fields.new.items ≡ fields.old.items) }
{
    match value {
        Value::Undefined => Ok(()),
        Value::Object(object) => {
            add_shared(alloc, fields, object.fields())?;
            Ok(())
        }
        _ => Err(SdkFault::Kind),
    }
}
