//! A value and an index in brackets.
ghost use Rattle.std.specs.Prelude.{◌≡◌, Ok, unwrap_or, IfOk, MatchResult};
ghost use Rattle.dscript_value.specs.Depths.{field_at};
ghost use Rattle.dscript_value.specs.Plain as plain;
ghost use Rattle.dscript_value.specs.Plain.{item_list, member_list, plain_fields, plain_of, plain_values};
ghost use Rattle.dscript_sdk_values.specs.Outcomes.{Refuses};
ghost use Rattle.dscript_eval_operators.specs.Indexing.{indexed, item_at};

use bx_tree::{Memory, Text};
use dscript_sdk_values::SdkFault;
use dscript_value::{Fields, Value, Values};

fn item(items: &Values, number: i32) -> Result<Value, SdkFault>
    ensures { MatchResult result
        (λ value. item_at (item_list (plain_values items.now).items) number ≡ Ok (plain_of value))
        (λ fault. Refuses fault (item_at (item_list (plain_values items.now).items) number)) }
{
    if number < 0 {
        return Err(SdkFault::Range);
    }
    match items.get(number as usize) {
        Some(item) => Ok(item.share()?),
        None => Err(SdkFault::Range),
    }
}

// The field with this name, or else `undefined`.
fn field(fields: &Fields, name: &Text) -> Result<Value, Memory>
    ensures { IfOk result (λ value. plain_of value
        ≡ unwrap_or (field_at (member_list (plain_fields fields.now).members) name.now) plain.Undefined) }
{
    match fields.find(name.bytes()) {
        Some(value) => value.share(),
        None => Ok(Value::Undefined),
    }
}

/// What a value gives at an index: the item of a list at a number, or the field of an object with a name,
/// `undefined` where it has none.
#[tactic(auto, unfolding(crate::specs::Indexing::indexed))]
pub fn index(value: &Value, at: &Value) -> Result<Value, SdkFault>
    ensures { MatchResult result
        (λ answer. indexed (plain_of value.now) (plain_of at.now) ≡ Ok (plain_of answer))
        (λ fault. Refuses fault (indexed (plain_of value.now) (plain_of at.now))) }
{
    match (value, at) {
        (Value::List(items), Value::Number(number)) => item(items, *number),
        (Value::Object(fields), Value::Text(name)) => Ok(field(fields, name)?),
        _ => Err(SdkFault::Kind),
    }
}
