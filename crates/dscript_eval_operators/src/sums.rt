//! `+`: sums of numbers, and texts put together.
ghost use Rattle.std.specs.Prelude.{◌≡◌, Ok, MatchResult};
ghost use Rattle.dscript_value.specs.Plain as plain;
ghost use Rattle.dscript_value.specs.Plain.{plain_of};
ghost use Rattle.dscript_sdk_values.specs.Outcomes.{Refuses};
ghost use Rattle.dscript_eval_operators.specs.Sums.{sum_of};

use crate::numbers::add_numbers;
use crate::texts::number_text;
use bx_tree::Text;
use dscript_sdk_values::{SdkFault, text_value};
use dscript_value::Value;
use std::alloc::Global;

// The sum of a number and what follows it.
#[tactic(auto, unfolding(crate::specs::Sums::sum_of))]
fn add_to_number(alloc: Global, x: i32, b: &Value) -> Result<Value, SdkFault>
    ensures { MatchResult result
        (λ value. sum_of (plain.Number x) (plain_of b.now) ≡ Ok (plain_of value))
        (λ fault. Refuses fault (sum_of (plain.Number x) (plain_of b.now))) }
{
    match b {
        Value::Number(y) => add_numbers(x, *y),
        Value::Text(text) => {
            let mut bytes = number_text(alloc, x)?;
            bytes.extend_from_slice(text.bytes())?;
            text_value(alloc, bytes)
        }
        _ => Err(SdkFault::Kind),
    }
}

// A text, and what follows it.
#[tactic(auto, unfolding(crate::specs::Sums::sum_of))]
fn add_to_text(alloc: Global, text: &Text, b: &Value) -> Result<Value, SdkFault>
    ensures { MatchResult result
        (λ value. sum_of (plain.Text text.now) (plain_of b.now) ≡ Ok (plain_of value))
        (λ fault. Refuses fault (sum_of (plain.Text text.now) (plain_of b.now))) }
{
    let mut bytes = text.bytes().to_vec(alloc)?;
    match b {
        Value::Number(y) => bytes.extend_from_slice(number_text(alloc, *y)?.as_slice())?,
        Value::Text(more) => bytes.extend_from_slice(more.bytes())?,
        _ => return Err(SdkFault::Kind),
    }
    text_value(alloc, bytes)
}

// `+` between two values.
#[tactic(auto, unfolding(crate::specs::Sums::sum_of))]
pub(crate) fn sum(alloc: Global, a: &Value, b: &Value) -> Result<Value, SdkFault>
    ensures { MatchResult result
        (λ value. sum_of (plain_of a.now) (plain_of b.now) ≡ Ok (plain_of value))
        (λ fault. Refuses fault (sum_of (plain_of a.now) (plain_of b.now))) }
{
    match a {
        Value::Number(x) => add_to_number(alloc, *x, b),
        Value::Text(text) => add_to_text(alloc, text, b),
        _ => Err(SdkFault::Kind),
    }
}
