//! Numbers, and comparisons of numbers: no value is made but the last.
ghost use Rattle.std.specs.Prelude.{◌≡◌, ◌-◌, ◌≤◌, ℕ, false, true, nat_lt, map, slice_get, IfSome, Ok, Some};
ghost use Rattle.dscript_program.specs.BoundTree as tree;
ghost use Rattle.dscript_program.specs.BoundTree.{OperandRow, more_operands, to_operands};
ghost use Rattle.dscript_program.specs.Views.{expr_data, operand_data};
ghost use Rattle.dscript_value.specs.Plain as plain;
ghost use Rattle.dscript_value.specs.Plain.{Plain, plain_of};
ghost use Rattle.dscript_eval_operators.specs.Operators.{is_settled, operated};
ghost use Rattle.dscript_eval_direct.specs.Now.{GoesAtOnce, IsAtOnce, knowledge};

use crate::known::Known;
use crate::leaves::{flag_value, number_value};
use dscript_ast::BinaryOp;
use dscript_eval_frames::operand_parts;
use dscript_program::{BoundExpr, BoundOperand, Target};
use dscript_value::Value;

// Spends steps, if enough are left.
fn spend(left: &mut u64, steps: u64) -> bool
    ensures enough { result ≡ true → steps ≤ left.old }
    ensures spent { result ≡ true → left.new ≡ left.old - steps }
{
    if steps > *left {
        return false;
    }
    *left -= steps;
    true
}

// What an operator of arithmetic gives at two numbers.
#[tactic(auto, unfolding(dscript_eval_operators::specs::Operators::operated, dscript_eval_operators::specs::Operators::is_settled, dscript_eval_operators::specs::Sums::sum_of, dscript_eval_operators::specs::Numbers::difference_of, dscript_eval_operators::specs::Numbers::product_of), using(dscript_eval_operators::proofs::Widths::integer_within))]
fn arithmetic(operator: BinaryOp, x: i32, y: i32) -> Option<i32>
    ensures settled { IfSome result (λ n. is_settled operator (plain.Number x) ≡ false) }
    ensures answer { IfSome result (λ n. operated operator (plain.Number x) (plain.Number y)
        ≡ Ok (plain.Number n)) }
{
    match operator {
        BinaryOp::Add => x.checked_add(y),
        BinaryOp::Subtract => x.checked_sub(y),
        BinaryOp::Multiply => x.checked_mul(y),
        _ => None,
    }
}

// What an operator of comparison gives at two numbers.
#[tactic(auto, unfolding(dscript_eval_operators::specs::Operators::operated, dscript_eval_operators::specs::Operators::is_settled, dscript_eval_operators::specs::Comparisons::is_less, dscript_eval_operators::specs::Comparisons::is_at_most, dscript_eval_operators::specs::Comparisons::is_greater, dscript_eval_operators::specs::Comparisons::is_at_least))]
fn comparison(operator: BinaryOp, x: i32, y: i32) -> Option<bool>
    ensures settled { IfSome result (λ b. is_settled operator (plain.Number x) ≡ false) }
    ensures answer { IfSome result (λ b. operated operator (plain.Number x) (plain.Number y)
        ≡ Ok (plain.Flag b)) }
{
    match operator {
        BinaryOp::Less => Some(x < y),
        BinaryOp::LessOrEqual => Some(x <= y),
        BinaryOp::Greater => Some(x > y),
        BinaryOp::GreaterOrEqual => Some(x >= y),
        _ => None,
    }
}

// Whether the first operator is one of arithmetic.
fn begins_arithmetic(more: &[BoundOperand]) -> bool {
    match more.split_first() {
        Some((operand, _)) => matches!(
            operand_parts(operand).0,
            BinaryOp::Add | BinaryOp::Subtract | BinaryOp::Multiply
        ),
        None => false,
    }
}

fn number_in(value: &Value) -> Option<i32>
    ensures { IfSome result (λ n. plain_of value.now ≡ plain.Number n) }
{
    match value {
        Value::Number(number) => Some(*number),
        _ => None,
    }
}

// The number in a place, if there is one.
fn number_at(known: &[Value], place: usize) -> Option<i32>
    ensures { IfSome result (λ n. slice_get (map plain_of known.now) place ≡ Some (plain.Number n)) }
{
    match known.get(place) {
        Some(value) => number_in(value),
        None => None,
    }
}

// What a local holds, if that is a number.
fn local_number(known: &Known<'_>, local: u32) -> Option<i32>
    ensures own { IfSome result (λ n. nat_lt local known.now.first ≡ false) }
    ensures held { IfSome result (λ n.
        slice_get (map plain_of known.now.own.now) (local - known.now.first) ≡ Some (plain.Number n)) }
{
    if local < known.first {
        return None;
    }
    number_at(known.own, (local - known.first) as usize)
}

// What a number gives.
fn literal_number(known: &Known<'_>, number: i32, left: &mut u64) -> Option<i32>
    ensures { IfSome result (λ n. IsAtOnce (knowledge known.now) (tree.Number number) left.old
        (plain.Number n) left.new) }
{
    if spend(left, 1) {
        return Some(number);
    }
    None
}

// What a name gives, if that is a number.
fn named_number(known: &Known<'_>, target: Target, left: &mut u64) -> Option<i32>
    ensures { IfSome result (λ n. IsAtOnce (knowledge known.now) (tree.Name target) left.old
        (plain.Number n) left.new) }
{
    match target {
        Target::Local(local) => {
            let number = local_number(known, local)?;
            if spend(left, 1) {
                return Some(number);
            }
            None
        }
        _ => None,
    }
}

// What an expression gives, if that is a number.
#[cycle(number)]
#[tactic(auto, using(dscript_program::proofs::NodeViews::bound_views))]
fn number_of(known: &Known<'_>, e: &BoundExpr, left: &mut u64, nesting: u32) -> Option<i32>
    ensures { IfSome result (λ n. IsAtOnce (knowledge known.now) (expr_data e.now) left.old
        (plain.Number n) left.new) }
{
    match e {
        BoundExpr::Number(number) => literal_number(known, *number, left),
        BoundExpr::Name(target) => named_number(known, *target, left),
        BoundExpr::Chain(e, more) => chain_number(known, e, more.as_slice(), left, nesting),
        BoundExpr::Cond(condition, then, other) => {
            cond_number(known, condition, then, other, left, nesting)
        }
        _ => None,
    }
}

// What a chain gives, if that is a number.
#[cycle(number)]
fn chain_number(
    known: &Known<'_>,
    e: &BoundExpr,
    more: &[BoundOperand],
    left: &mut u64,
    nesting: u32,
) -> Option<i32>
    ensures { IfSome result (λ n. IsAtOnce (knowledge known.now) (tree.Chain (expr_data e.now)
        (to_operands (map operand_data more.now))) left.old (plain.Number n) left.new) }
{
    if nesting == 0 || !begins_arithmetic(more) {
        return None;
    }
    if !spend(left, more.len() as u64) {
        return None;
    }
    let number = number_of(known, e, left, nesting - 1)?;
    operands_number(known, more, number, left, nesting - 1)
}

// What a chain gives, from the number of its first operand on.
#[cycle(number)]
fn operands_number(
    known: &Known<'_>,
    more: &[BoundOperand],
    number: i32,
    left: &mut u64,
    nesting: u32,
) -> Option<i32>
    ensures { IfSome result (λ n. GoesAtOnce (knowledge known.now)
        (to_operands (map operand_data more.now)) (plain.Number number) left.old (plain.Number n) left.new) }
{
    let mut answer = number;
    let mut rest = more;
    'operands: while let Some((operand, others)) = rest.split_first() {
        match operand_number(known, operand, answer, left, nesting) {
            Some(next) => answer = next,
            None => return None,
        }
        rest = others;
    }
    Some(answer)
}

// The number after an operand of a chain, by the number before it.
#[cycle(number)]
fn operand_number(
    known: &Known<'_>,
    operand: &BoundOperand,
    number: i32,
    left: &mut u64,
    nesting: u32,
) -> Option<i32>
    ensures { IfSome result (λ n. (more : OperandRow) (y : Plain) (later : ℕ)
        → GoesAtOnce (knowledge known.now) more (plain.Number n) left.new y later
        → GoesAtOnce (knowledge known.now) (more_operands (operand_data operand.now) more)
        (plain.Number number) left.old y later) }
{
    let (operator, e) = operand_parts(operand);
    match number_of(known, e, left, nesting) {
        Some(right) => arithmetic(operator, number, right),
        None => None,
    }
}

// What a condition chooses, if that is a number.
#[cycle(number)]
fn cond_number(
    known: &Known<'_>,
    condition: &BoundExpr,
    then: &BoundExpr,
    other: &BoundExpr,
    left: &mut u64,
    nesting: u32,
) -> Option<i32>
    ensures { IfSome result (λ n. IsAtOnce (knowledge known.now) (tree.Cond
        (expr_data condition.now) (expr_data then.now) (expr_data other.now)) left.old (plain.Number n)
        left.new) }
{
    if nesting == 0 {
        return None;
    }
    if !spend(left, 1) {
        return None;
    }
    let holds = flag_of(known, condition, left, nesting - 1)?;
    if holds {
        number_of(known, then, left, nesting - 1)
    } else {
        number_of(known, other, left, nesting - 1)
    }
}

// What an expression gives, if that is a comparison of two numbers.
#[cycle(number)]
#[tactic(auto, using(dscript_program::proofs::NodeViews::bound_views))]
fn flag_of(known: &Known<'_>, e: &BoundExpr, left: &mut u64, nesting: u32) -> Option<bool>
    ensures { IfSome result (λ b. IsAtOnce (knowledge known.now) (expr_data e.now) left.old
        (plain.Flag b) left.new) }
{
    match e {
        BoundExpr::Chain(e, more) => chain_flag(known, e, more.as_slice(), left, nesting),
        _ => None,
    }
}

// What a comparison of two numbers gives.
#[cycle(number)]
fn chain_flag(
    known: &Known<'_>,
    e: &BoundExpr,
    more: &[BoundOperand],
    left: &mut u64,
    nesting: u32,
) -> Option<bool>
    ensures { IfSome result (λ b. IsAtOnce (knowledge known.now) (tree.Chain (expr_data e.now)
        (to_operands (map operand_data more.now))) left.old (plain.Flag b) left.new) }
{
    let (operand, others) = more.split_first()?;
    if nesting == 0 {
        return None;
    }
    if !others.is_empty() {
        return None;
    }
    if !spend(left, 1) {
        return None;
    }
    let number = number_of(known, e, left, nesting - 1)?;
    operand_flag(known, operand, number, left, nesting - 1)
}

// What the last operator of a chain gives, by the number before it.
#[cycle(number)]
fn operand_flag(
    known: &Known<'_>,
    operand: &BoundOperand,
    number: i32,
    left: &mut u64,
    nesting: u32,
) -> Option<bool>
    ensures { IfSome result (λ b. (more : OperandRow) (y : Plain) (later : ℕ)
        → GoesAtOnce (knowledge known.now) more (plain.Flag b) left.new y later
        → GoesAtOnce (knowledge known.now) (more_operands (operand_data operand.now) more)
        (plain.Number number) left.old y later) }
{
    let (operator, e) = operand_parts(operand);
    match number_of(known, e, left, nesting) {
        Some(right) => comparison(operator, number, right),
        None => None,
    }
}

// The number that an expression gives, and the steps that are left.
fn number_found(known: &Known<'_>, e: &BoundExpr, left: u64, nesting: u32) -> Option<(Value, u64)>
    ensures { IfSome result (λ r. IsAtOnce (knowledge known.now) (expr_data e.now) left
        (plain_of r.0) r.1) }
{
    let mut after = left;
    match number_of(known, e, &mut after, nesting) {
        Some(number) => Some((number_value(number), after)),
        None => None,
    }
}

// What a comparison of two numbers gives, and the steps that are left.
fn flag_found(known: &Known<'_>, e: &BoundExpr, left: u64, nesting: u32) -> Option<(Value, u64)>
    ensures { IfSome result (λ r. IsAtOnce (knowledge known.now) (expr_data e.now) left
        (plain_of r.0) r.1) }
{
    let mut after = left;
    match flag_of(known, e, &mut after, nesting) {
        Some(flag) => Some((flag_value(flag), after)),
        None => None,
    }
}

/// What an expression gives, if that is a number or a comparison of numbers, and the steps that are left.
pub fn numbers_now(
    known: &Known<'_>,
    e: &BoundExpr,
    left: u64,
    nesting: u32,
) -> Option<(Value, u64)>
    ensures { IfSome result (λ r. IsAtOnce (knowledge known.now) (expr_data e.now) left
        (plain_of r.0) r.1) }
{
    match number_found(known, e, left, nesting) {
        Some(found) => Some(found),
        None => flag_found(known, e, left, nesting),
    }
}
