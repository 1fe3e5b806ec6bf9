//! The members of texts.
ghost use Rattle.std.specs.Prelude.{◌≡◌, ◌≢◌, [], IfOk, Ok, Err, map, nat_eq, MatchResult};
ghost use Rattle.std.specs.List.{ends_with, starts_with};
ghost use Rattle.dscript_value.specs.Plain as plain;
ghost use Rattle.dscript_value.specs.Plain.{plain_of};
ghost use Rattle.dscript_sdk_values.specs.Outcomes.{Refuses};
ghost use Rattle.dscript_sdk_members.specs.Gives.{Gives, applied};
ghost use Rattle.dscript_sdk_members.specs.TextMembers.{has_text as has_part, pieces_after};
ghost use Rattle.dscript_sdk_members.specs.TextMembers.{split_by, split_text, text_function, text_property};
ghost use Rattle.dscript_sdk_members.specs.TextMembers.{text_test};

use crate::finding::{find_text, periods_of};
use crate::member::Member;
use bx_tree::{Memory, Text};
use dscript_sdk_values::{SdkFault, first_argument, list_value, number_value, read_text};
use dscript_value::Value;
use std::alloc::Global;

// Whether another text occurs in the text.
fn has_text(alloc: Global, text: &[u8], other: &[u8]) -> Result<bool, Memory>
    ensures { IfOk result (λ found. found ≡ has_part text.now other.now) }
{
    let periods = periods_of(alloc, other)?;
    Ok(find_text(text, other, periods.as_slice()).is_some())
}

fn contains(alloc: Global, text: &Text, args: &[Value]) -> Result<Value, SdkFault>
    ensures { MatchResult result
        (λ value. text_test has_part text.now (map plain_of args.now) ≡ Ok (plain_of value))
        (λ fault. Refuses fault (text_test has_part text.now (map plain_of args.now))) }
{
    let other = read_text(first_argument(args)?)?;
    let found = has_text(alloc, text.bytes(), other.bytes())?;
    Ok(Value::Flag(found))
}

fn begins_with(text: &Text, args: &[Value]) -> Result<Value, SdkFault>
    ensures { MatchResult result
        (λ value. text_test (starts_with nat_eq) text.now (map plain_of args.now) ≡ Ok (plain_of value))
        (λ fault. text_test (starts_with nat_eq) text.now (map plain_of args.now) ≡ Err fault) }
{
    let other = read_text(first_argument(args)?)?;
    Ok(Value::Flag(text.bytes().starts_with(other.bytes())))
}

fn finishes_with(text: &Text, args: &[Value]) -> Result<Value, SdkFault>
    ensures { MatchResult result
        (λ value. text_test (ends_with nat_eq) text.now (map plain_of args.now) ≡ Ok (plain_of value))
        (λ fault. text_test (ends_with nat_eq) text.now (map plain_of args.now) ≡ Err fault) }
{
    let other = read_text(first_argument(args)?)?;
    Ok(Value::Flag(text.bytes().ends_with(other.bytes())))
}

// The text of some bytes.
fn piece(alloc: Global, bytes: &[u8]) -> Result<Value, Memory>
    ensures { IfOk result (λ value. plain_of value ≡ plain.Text bytes.now) }
{
    Ok(Value::Text(Text::new(alloc, bytes.to_vec(alloc)?)?))
}

// The pieces of a text around a separator.
fn pieces_of(alloc: Global, text: &[u8], separator: &[u8]) -> Result<Vec<Value>, Memory>
    requires { separator.now ≢ [] }
    ensures { IfOk result (λ pieces. map plain_of pieces.items
        ≡ map plain.Text (pieces_after separator.now 0 text.now)) }
{
    let periods = periods_of(alloc, separator)?;
    let mut pieces = Vec::new(alloc);
    let mut rest = text;
    'pieces: loop {
        match find_text(rest, separator, periods.as_slice()) {
            Some(place) => {
                let (before, after) = rest.split_at(place);
                let (_, following) = after.split_at(separator.len());
                pieces.push(piece(alloc, before)?)?;
                rest = following;
            }
            None => {
                pieces.push(piece(alloc, rest)?)?;
                return Ok(pieces);
            }
        }
    }
}

fn split_around(alloc: Global, text: &[u8], separator: &[u8]) -> Result<Value, SdkFault>
    ensures { MatchResult result
        (λ value. split_by text.now separator.now ≡ Ok (plain_of value))
        (λ fault. Refuses fault (split_by text.now separator.now)) }
{
    if separator.is_empty() {
        return Err(SdkFault::BadArgument);
    }
    list_value(alloc, pieces_of(alloc, text, separator)?)
}

fn split(alloc: Global, text: &Text, args: &[Value]) -> Result<Value, SdkFault>
    ensures { MatchResult result
        (λ value. split_text text.now (map plain_of args.now) ≡ Ok (plain_of value))
        (λ fault. Refuses fault (split_text text.now (map plain_of args.now))) }
{
    let separator = read_text(first_argument(args)?)?;
    split_around(alloc, text.bytes(), separator.bytes())
}

/// The call of a member function of a text.
#[tactic(auto, unfolding(crate::specs::TextMembers::text_function))]
pub fn call_text(
    alloc: Global,
    text: &Text,
    member: Member,
    args: &[Value],
) -> Result<Option<Value>, SdkFault>
    ensures { Gives (applied (text_function member text.now) (map plain_of args.now)) result }
{
    match member {
        Member::Contains => Ok(Some(contains(alloc, text, args)?)),
        Member::StartsWith => Ok(Some(begins_with(text, args)?)),
        Member::EndsWith => Ok(Some(finishes_with(text, args)?)),
        Member::Split => Ok(Some(split(alloc, text, args)?)),
        _ => Ok(None),
    }
}

/// A member of a text that is no function.
#[tactic(auto, unfolding(crate::specs::TextMembers::text_property))]
pub fn member_of_text(text: &Text, member: Member) -> Result<Option<Value>, SdkFault>
    ensures { Gives (text_property member text.now) result }
{
    match member {
        Member::Length => Ok(Some(number_value(text.bytes().len())?)),
        _ => Ok(None),
    }
}
