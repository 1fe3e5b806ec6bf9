//! What operators answer at their operands.
ghost use Rattle.std.specs.Prelude.{◌≡◌, Ok, Err, MatchResult};
ghost use Rattle.dscript_value.specs.Plain.{plain_of};
ghost use Rattle.dscript_sdk_values.specs.Outcomes.{Refuses};
ghost use Rattle.dscript_eval_operators.specs.Operators as spec;
ghost use Rattle.dscript_eval_operators.specs.Operators.{operated, prefixed, prefixed_by};

use crate::comparisons::{is_at_least, is_at_most, is_greater, is_less};
use crate::equalities::{is_equal, is_unequal};
use crate::numbers::{difference, negative, product};
use crate::sums::sum;
use crate::truth::is_true;
use dscript_ast::{BinaryOp, UnaryOp};
use dscript_sdk_values::SdkFault;
use dscript_value::Value;
use std::alloc::Global;

/// Whether the left operand is the answer, so that the right one is not evaluated: that of `&&` where it
/// counts as false, that of `||` where it counts as true.
#[tactic(auto, unfolding(crate::specs::Operators::is_settled))]
pub fn is_settled(operator: BinaryOp, a: &Value) -> bool
    ensures { result ≡ spec.is_settled operator (plain_of a.now) }
{
    match operator {
        BinaryOp::And => !is_true(a),
        BinaryOp::Or => is_true(a),
        _ => false,
    }
}

/// What an operator answers at both of its operands.
#[tactic(auto, unfolding(crate::specs::Operators::operated))]
pub fn operate(alloc: Global, operator: BinaryOp, a: &Value, b: &Value) -> Result<Value, SdkFault>
    ensures { MatchResult result
        (λ value. operated operator (plain_of a.now) (plain_of b.now) ≡ Ok (plain_of value))
        (λ fault. Refuses fault (operated operator (plain_of a.now) (plain_of b.now))) }
{
    match operator {
        BinaryOp::Or | BinaryOp::And => Ok(b.share()?),
        BinaryOp::Equal => is_equal(a, b),
        BinaryOp::NotEqual => is_unequal(a, b),
        BinaryOp::Less => is_less(a, b),
        BinaryOp::LessOrEqual => is_at_most(a, b),
        BinaryOp::Greater => is_greater(a, b),
        BinaryOp::GreaterOrEqual => is_at_least(a, b),
        BinaryOp::Add => sum(alloc, a, b),
        BinaryOp::Subtract => difference(a, b),
        BinaryOp::Multiply => product(a, b),
    }
}

fn prefixed_value(operator: UnaryOp, value: &Value) -> Result<Value, SdkFault>
    ensures { MatchResult result
        (λ answer. prefixed_by operator (plain_of value.now) ≡ Ok (plain_of answer))
        (λ fault. prefixed_by operator (plain_of value.now) ≡ Err fault) }
{
    match operator {
        UnaryOp::Not => Ok(Value::Flag(!is_true(value))),
        UnaryOp::Negate => negative(value),
    }
}

fn with_prefix(operator: UnaryOp, value: Value) -> Result<Value, SdkFault>
    ensures { MatchResult result
        (λ answer. prefixed_by operator (plain_of value) ≡ Ok (plain_of answer))
        (λ fault. prefixed_by operator (plain_of value) ≡ Err fault) }
{
    prefixed_value(operator, &value)
}

/// What operators before an operand answer. The one next to the operand is the first to act.
pub fn with_prefixes(operators: &[UnaryOp], value: Value) -> Result<Value, SdkFault>
    ensures { MatchResult result
        (λ answer. prefixed operators.now (plain_of value) ≡ Ok (plain_of answer))
        (λ fault. prefixed operators.now (plain_of value) ≡ Err fault) }
{
    let mut answer = value;
    let mut left = operators;
    'operators: while let Some((nearest, others)) = left.split_last() {
        match with_prefix(*nearest, answer) {
            Ok(next) => answer = next,
            Err(fault) => return Err(fault),
        }
        left = others;
    }
    Ok(answer)
}
