//! The members of lists, without those that call functions.
ghost use Rattle.std.specs.Prelude.{◌≡◌, Ok, Err, map, MatchResult};
ghost use Rattle.dscript_value.specs.Plain.{item_list, plain_of, plain_values};
ghost use Rattle.dscript_sdk_values.specs.Answers.{text_answer};
ghost use Rattle.dscript_sdk_values.specs.Outcomes.{Refuses};
ghost use Rattle.dscript_sdk_members.specs.Gives.{Gives, applied};
ghost use Rattle.dscript_sdk_members.specs.ListMembers.{concat_lists, contains_item, has_equal as has_equal_item};
ghost use Rattle.dscript_sdk_members.specs.ListMembers.{join_items, list_function, list_property, separated_texts};

use crate::member::Member;
use bx_tree::Text;
use dscript_sdk_values::{
    MAX_TEXT_BYTES, SdkFault, first_argument, grown_list, number_value, read_each, read_text,
    read_values, text_value,
};
use dscript_value::{GrowingList, NoOrder, Value, Values, equal};
use std::alloc::Global;

fn concat(alloc: Global, values: &Values, args: &[Value]) -> Result<Value, SdkFault>
    ensures { MatchResult result
        (λ value. concat_lists (item_list (plain_values values.now).items) (map plain_of args.now)
        ≡ Ok (plain_of value))
        (λ fault. Refuses fault
        (concat_lists (item_list (plain_values values.now).items) (map plain_of args.now))) }
{
    let more = read_values(first_argument(args)?)?;
    let mut all = GrowingList::new(alloc);
    all.append(alloc, values)?;
    all.append(alloc, more)?;
    grown_list(alloc, all)
}

// Whether an item equals a value; no item after the first equal one is looked at.
fn has_equal(items: &[Value], value: &Value) -> Result<bool, SdkFault>
    ensures { MatchResult result
        (λ found. has_equal_item (map plain_of items.now) (plain_of value.now) ≡ Ok found)
        (λ fault. has_equal_item (map plain_of items.now) (plain_of value.now) ≡ Err fault) }
{
    'items: for item in items {
        match equal(item, value) {
            Ok(true) => return Ok(true),
            Ok(false) => {}
            Err(NoOrder) => return Err(SdkFault::Kind),
        }
    }
    Ok(false)
}

fn contains(alloc: Global, values: &Values, args: &[Value]) -> Result<Value, SdkFault>
    ensures { MatchResult result
        (λ value. contains_item (item_list (plain_values values.now).items) (map plain_of args.now)
        ≡ Ok (plain_of value))
        (λ fault. Refuses fault
        (contains_item (item_list (plain_values values.now).items) (map plain_of args.now))) }
{
    let value = first_argument(args)?;
    let flat = values.flat(alloc)?;
    let found = has_equal(flat.items(), value)?;
    Ok(Value::Flag(found))
}

// Texts with a separator between them, unless they are too long together.
fn join_texts(alloc: Global, separator: &Text, texts: &[Text]) -> Result<Value, SdkFault>
    ensures { MatchResult result
        (λ value. text_answer (separated_texts separator.now texts.now) ≡ Ok (plain_of value))
        (λ fault. Refuses fault (text_answer (separated_texts separator.now texts.now))) }
{
    let Some((first, more)) = texts.split_first() else {
        return text_value(alloc, Vec::new(alloc));
    };
    let mut bytes = first.bytes().to_vec(alloc)?;
    'texts: for text in more {
        if bytes.len() > MAX_TEXT_BYTES {
            return Err(SdkFault::Range);
        }
        bytes.extend_from_slice(separator.bytes())?;
        bytes.extend_from_slice(text.bytes())?;
    }
    text_value(alloc, bytes)
}

fn join(alloc: Global, values: &Values, args: &[Value]) -> Result<Value, SdkFault>
    ensures { MatchResult result
        (λ value. join_items (item_list (plain_values values.now).items) (map plain_of args.now)
        ≡ Ok (plain_of value))
        (λ fault. Refuses fault
        (join_items (item_list (plain_values values.now).items) (map plain_of args.now))) }
{
    let separator = read_text(first_argument(args)?)?;
    let flat = values.flat(alloc)?;
    let texts = read_each::<Text>(alloc, flat.items())?;
    join_texts(alloc, separator, texts.as_slice())
}

/// The call of a member function of a list that calls no functions.
#[tactic(auto, unfolding(crate::specs::ListMembers::list_function))]
pub fn call_list(
    alloc: Global,
    values: &Values,
    member: Member,
    args: &[Value],
) -> Result<Option<Value>, SdkFault>
    ensures { Gives
        (applied (list_function member (item_list (plain_values values.now).items)) (map plain_of args.now))
        result }
{
    match member {
        Member::Concat => Ok(Some(concat(alloc, values, args)?)),
        Member::Contains => Ok(Some(contains(alloc, values, args)?)),
        Member::Join => Ok(Some(join(alloc, values, args)?)),
        _ => Ok(None),
    }
}

/// A member of a list that is no function.
#[tactic(auto, unfolding(crate::specs::ListMembers::list_property))]
pub fn member_of_list(values: &Values, member: Member) -> Result<Option<Value>, SdkFault>
    ensures { Gives (list_property member (item_list (plain_values values.now).items)) result }
{
    match member {
        Member::Length => Ok(Some(number_value(values.len())?)),
        _ => Ok(None),
    }
}
