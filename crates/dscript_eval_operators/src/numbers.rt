//! Numbers: 32 bits, one of them for the sign.
ghost use Rattle.std.specs.Prelude.{◌≡◌, ◌+ℤ◌, ◌-ℤ◌, ◌*ℤ◌, neg_ℤ, Ok, Err, MatchResult};
ghost use Rattle.dscript_value.specs.Plain.{plain_of};
ghost use Rattle.dscript_eval_operators.specs.Numbers.{difference_of, integer_answer, negative_of, number_in};
ghost use Rattle.dscript_eval_operators.specs.Numbers.{product_of};

use dscript_sdk_values::SdkFault;
use dscript_value::Value;

// The number that a value is.
pub(crate) fn read_number(value: &Value) -> Result<i32, SdkFault>
    ensures { MatchResult result
        (λ number. number_in (plain_of value.now) ≡ Ok number)
        (λ fault. number_in (plain_of value.now) ≡ Err fault) }
{
    match value {
        Value::Number(number) => Ok(*number),
        _ => Err(SdkFault::Kind),
    }
}

#[tactic(auto, using(crate::proofs::Widths::integer_within, crate::proofs::Widths::integer_outside))]
pub(crate) fn add_numbers(x: i32, y: i32) -> Result<Value, SdkFault>
    ensures { MatchResult result
        (λ value. integer_answer (x +ℤ y) ≡ Ok (plain_of value))
        (λ fault. integer_answer (x +ℤ y) ≡ Err fault) }
{
    match x.checked_add(y) {
        Some(number) => Ok(Value::Number(number)),
        None => Err(SdkFault::Range),
    }
}

#[tactic(auto, using(crate::proofs::Widths::integer_within, crate::proofs::Widths::integer_outside))]
fn subtract_numbers(x: i32, y: i32) -> Result<Value, SdkFault>
    ensures { MatchResult result
        (λ value. integer_answer (x -ℤ y) ≡ Ok (plain_of value))
        (λ fault. integer_answer (x -ℤ y) ≡ Err fault) }
{
    match x.checked_sub(y) {
        Some(number) => Ok(Value::Number(number)),
        None => Err(SdkFault::Range),
    }
}

#[tactic(auto, using(crate::proofs::Widths::integer_within, crate::proofs::Widths::integer_outside))]
fn multiply_numbers(x: i32, y: i32) -> Result<Value, SdkFault>
    ensures { MatchResult result
        (λ value. integer_answer (x *ℤ y) ≡ Ok (plain_of value))
        (λ fault. integer_answer (x *ℤ y) ≡ Err fault) }
{
    match x.checked_mul(y) {
        Some(number) => Ok(Value::Number(number)),
        None => Err(SdkFault::Range),
    }
}

#[tactic(auto, using(crate::proofs::Widths::integer_within, crate::proofs::Widths::integer_outside))]
fn negate_number(x: i32) -> Result<Value, SdkFault>
    ensures { MatchResult result
        (λ value. integer_answer (neg_ℤ x) ≡ Ok (plain_of value))
        (λ fault. integer_answer (neg_ℤ x) ≡ Err fault) }
{
    match x.checked_neg() {
        Some(number) => Ok(Value::Number(number)),
        None => Err(SdkFault::Range),
    }
}

// `-` between two values.
#[tactic(auto, unfolding(crate::specs::Numbers::difference_of))]
pub(crate) fn difference(a: &Value, b: &Value) -> Result<Value, SdkFault>
    ensures { MatchResult result
        (λ value. difference_of (plain_of a.now) (plain_of b.now) ≡ Ok (plain_of value))
        (λ fault. difference_of (plain_of a.now) (plain_of b.now) ≡ Err fault) }
{
    let x = read_number(a)?;
    let y = read_number(b)?;
    subtract_numbers(x, y)
}

// `*` between two values.
#[tactic(auto, unfolding(crate::specs::Numbers::product_of))]
pub(crate) fn product(a: &Value, b: &Value) -> Result<Value, SdkFault>
    ensures { MatchResult result
        (λ value. product_of (plain_of a.now) (plain_of b.now) ≡ Ok (plain_of value))
        (λ fault. product_of (plain_of a.now) (plain_of b.now) ≡ Err fault) }
{
    let x = read_number(a)?;
    let y = read_number(b)?;
    multiply_numbers(x, y)
}

// `-` before a value.
#[tactic(auto, unfolding(crate::specs::Numbers::negative_of))]
pub(crate) fn negative(a: &Value) -> Result<Value, SdkFault>
    ensures { MatchResult result
        (λ value. negative_of (plain_of a.now) ≡ Ok (plain_of value))
        (λ fault. negative_of (plain_of a.now) ≡ Err fault) }
{
    negate_number(read_number(a)?)
}
