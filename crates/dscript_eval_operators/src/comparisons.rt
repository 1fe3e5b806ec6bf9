//! Comparisons of numbers.
ghost use Rattle.std.specs.Prelude.{◌≡◌, Ok, Err, MatchResult};
ghost use Rattle.dscript_value.specs.Plain.{plain_of};
ghost use Rattle.dscript_eval_operators.specs.Comparisons as spec;

use crate::numbers::read_number;
use dscript_sdk_values::SdkFault;
use dscript_value::Value;

// `<`
#[tactic(auto, unfolding(crate::specs::Comparisons::is_less))]
pub(crate) fn is_less(a: &Value, b: &Value) -> Result<Value, SdkFault>
    ensures { MatchResult result
        (λ value. spec.is_less (plain_of a.now) (plain_of b.now) ≡ Ok (plain_of value))
        (λ fault. spec.is_less (plain_of a.now) (plain_of b.now) ≡ Err fault) }
{
    let x = read_number(a)?;
    let y = read_number(b)?;
    Ok(Value::Flag(x < y))
}

// `<=`
#[tactic(auto, unfolding(crate::specs::Comparisons::is_at_most))]
pub(crate) fn is_at_most(a: &Value, b: &Value) -> Result<Value, SdkFault>
    ensures { MatchResult result
        (λ value. spec.is_at_most (plain_of a.now) (plain_of b.now) ≡ Ok (plain_of value))
        (λ fault. spec.is_at_most (plain_of a.now) (plain_of b.now) ≡ Err fault) }
{
    let x = read_number(a)?;
    let y = read_number(b)?;
    Ok(Value::Flag(x <= y))
}

// `>`
#[tactic(auto, unfolding(crate::specs::Comparisons::is_greater))]
pub(crate) fn is_greater(a: &Value, b: &Value) -> Result<Value, SdkFault>
    ensures { MatchResult result
        (λ value. spec.is_greater (plain_of a.now) (plain_of b.now) ≡ Ok (plain_of value))
        (λ fault. spec.is_greater (plain_of a.now) (plain_of b.now) ≡ Err fault) }
{
    let x = read_number(a)?;
    let y = read_number(b)?;
    Ok(Value::Flag(x > y))
}

// `>=`
#[tactic(auto, unfolding(crate::specs::Comparisons::is_at_least))]
pub(crate) fn is_at_least(a: &Value, b: &Value) -> Result<Value, SdkFault>
    ensures { MatchResult result
        (λ value. spec.is_at_least (plain_of a.now) (plain_of b.now) ≡ Ok (plain_of value))
        (λ fault. spec.is_at_least (plain_of a.now) (plain_of b.now) ≡ Err fault) }
{
    let x = read_number(a)?;
    let y = read_number(b)?;
    Ok(Value::Flag(x >= y))
}
