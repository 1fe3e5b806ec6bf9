//! Expressions whose value is found at once.
ghost use Rattle.std.specs.Prelude.{◌≡◌, ◌-◌, ℕ, [], map, IfSome, Ok};
ghost use Rattle.dscript_program.specs.BoundTree as tree;
ghost use Rattle.dscript_program.specs.BoundTree.{OperandRow, PartRow, more_operands, more_parts};
ghost use Rattle.dscript_program.specs.BoundTree.{to_elements, to_exprs, to_operands, to_parts, to_props};
ghost use Rattle.dscript_program.specs.Views.{element_data, expr_data, operand_data, part_data, prop_data};
ghost use Rattle.dscript_value.specs.Plain.{Plain, plain_field, plain_of};
ghost use Rattle.dscript_eval_operators.specs.Operators.{operated};
ghost use Rattle.dscript_eval_direct.specs.Now.{FollowsAtOnce, GoesAtOnce, GoesOnAtOnce, HasArgumentsAtOnce};
ghost use Rattle.dscript_eval_direct.specs.Now.{HasFieldsAtOnce, IsAtOnce, knowledge};

use crate::known::Known;
use crate::leaves::{
    add_field, add_item, called_now, field_in, indexed_now, list_now, named_now, named_parts,
    number_now, object_now, path_now, plain_call, room_for, text_now,
};
use crate::numbers::numbers_now;
use bx_tree::Text;
use dscript_ast::BinaryOp;
use dscript_eval_frames::{element_parts, operand_parts};
use dscript_eval_operators::{is_settled, is_true, operate};
use dscript_program::{BoundElement, BoundExpr, BoundOperand, BoundPart, BoundProp};
use dscript_value::{Field, Value};
use std::alloc::Global;

/// How deep expressions may be nested that are evaluated at once.
pub const MAX_NESTING: u32 = 6;

// What an operator gives at its operands, and the steps that are left.
fn operated_now(
    alloc: Global,
    operator: BinaryOp,
    a: Value,
    b: Value,
    left: u64,
) -> Option<(Value, u64)>
    ensures answer { IfSome result (λ r. operated operator (plain_of a) (plain_of b) ≡ Ok (plain_of r.0)) }
    ensures steps { IfSome result (λ r. r.1 ≡ left) }
{
    let outcome = operate(alloc, operator, &a, &b);
    drop(a);
    drop(b);
    match outcome {
        Ok(value) => Some((value, left)),
        Err(_) => None,
    }
}

/// The value that an expression gives, and the steps that are left.
#[cycle(now)]
#[tactic(auto, using(dscript_program::proofs::NodeViews::bound_views))]
pub fn value_now(
    alloc: Global,
    known: &Known<'_>,
    e: &BoundExpr,
    left: u64,
    nesting: u32,
) -> Option<(Value, u64)>
    ensures { IfSome result (λ r. IsAtOnce (knowledge known.now) (expr_data e.now) left
        (plain_of r.0) r.1) }
{
    match e {
        BoundExpr::Number(number) => number_now(known, *number, left),
        BoundExpr::Str(text) => text_now(known, text, left),
        BoundExpr::Name(target) => named_now(alloc, known, *target, left),
        BoundExpr::Path(letter, text, holes) => {
            path_now(alloc, known, *letter, text, holes.as_slice(), left)
        }
        _ => match numbers_now(known, e, left, nesting) {
            Some(found) => Some(found),
            None => made_now(alloc, known, e, left, nesting),
        },
    }
}

// What an expression gives that is made of others, and not of numbers alone.
#[cycle(now)]
#[tactic(auto, using(dscript_program::proofs::NodeViews::bound_views))]
fn made_now(
    alloc: Global,
    known: &Known<'_>,
    e: &BoundExpr,
    left: u64,
    nesting: u32,
) -> Option<(Value, u64)>
    ensures { IfSome result (λ r. IsAtOnce (knowledge known.now) (expr_data e.now) left
        (plain_of r.0) r.1) }
{
    match e {
        BoundExpr::Chain(e, more) => { chain_now(alloc, known, e, more.as_slice(), left, nesting) }
        BoundExpr::Cond(condition, then, other) => {
            cond_now(alloc, known, condition, then, other, left, nesting)
        }
        BoundExpr::List(es) => elements_now(alloc, known, es.as_slice(), left, nesting),
        BoundExpr::Object(ps) => properties_now(alloc, known, ps.as_slice(), left, nesting),
        BoundExpr::Postfix(e, parts) => {
            postfix_now(alloc, known, e, parts.as_slice(), left, nesting)
        }
        _ => None,
    }
}

// What a chain gives.
#[cycle(now)]
fn chain_now(
    alloc: Global,
    known: &Known<'_>,
    e: &BoundExpr,
    more: &[BoundOperand],
    left: u64,
    nesting: u32,
) -> Option<(Value, u64)>
    ensures { IfSome result (λ r. IsAtOnce (knowledge known.now) (tree.Chain (expr_data e.now)
        (to_operands (map operand_data more.now))) left (plain_of r.0) r.1) }
{
    if nesting == 0 {
        return None;
    }
    let after = left.checked_sub(more.len() as u64)?;
    let (value, after) = value_now(alloc, known, e, after, nesting - 1)?;
    operands_now(alloc, known, more, value, after, nesting - 1)
}

// What a chain gives, from the value of its first operand on.
#[cycle(now)]
fn operands_now(
    alloc: Global,
    known: &Known<'_>,
    more: &[BoundOperand],
    value: Value,
    left: u64,
    nesting: u32,
) -> Option<(Value, u64)>
    ensures { IfSome result (λ r. GoesAtOnce (knowledge known.now)
        (to_operands (map operand_data more.now)) (plain_of value) left (plain_of r.0) r.1) }
{
    let mut answer = value;
    let mut after = left;
    let mut rest = more;
    'operands: while let Some((operand, others)) = rest.split_first() {
        match operand_now(alloc, known, operand, answer, after, nesting) {
            Some((next, later)) => {
                answer = next;
                after = later;
            }
            None => return None,
        }
        rest = others;
    }
    Some((answer, after))
}

// The value after an operand of a chain, by the value before it.
#[cycle(now)]
fn operand_now(
    alloc: Global,
    known: &Known<'_>,
    operand: &BoundOperand,
    value: Value,
    left: u64,
    nesting: u32,
) -> Option<(Value, u64)>
    ensures { IfSome result (λ r. (more : OperandRow) (y : Plain) (later : ℕ)
        → GoesAtOnce (knowledge known.now) more (plain_of r.0) r.1 y later
        → GoesAtOnce (knowledge known.now) (more_operands (operand_data operand.now) more)
        (plain_of value) left y later) }
{
    let (operator, e) = operand_parts(operand);
    if is_settled(operator, &value) {
        return Some((value, left));
    }
    match value_now(alloc, known, e, left, nesting) {
        Some((right, later)) => operated_now(alloc, operator, value, right, later),
        None => {
            drop(value);
            None
        }
    }
}

// What a condition chooses.
#[cycle(now)]
fn cond_now(
    alloc: Global,
    known: &Known<'_>,
    condition: &BoundExpr,
    then: &BoundExpr,
    other: &BoundExpr,
    left: u64,
    nesting: u32,
) -> Option<(Value, u64)>
    ensures { IfSome result (λ r. IsAtOnce (knowledge known.now) (tree.Cond
        (expr_data condition.now) (expr_data then.now) (expr_data other.now)) left (plain_of r.0) r.1) }
{
    if nesting == 0 {
        return None;
    }
    let after = left.checked_sub(1)?;
    let (choice, after) = value_now(alloc, known, condition, after, nesting - 1)?;
    let holds = is_true(&choice);
    drop(choice);
    if holds {
        value_now(alloc, known, then, after, nesting - 1)
    } else {
        value_now(alloc, known, other, after, nesting - 1)
    }
}

// What a list gives.
#[cycle(now)]
fn elements_now(
    alloc: Global,
    known: &Known<'_>,
    es: &[BoundElement],
    left: u64,
    nesting: u32,
) -> Option<(Value, u64)>
    ensures { IfSome result (λ r. IsAtOnce (knowledge known.now) (tree.Elements
        (to_elements (map element_data es.now))) left (plain_of r.0) r.1) }
{
    if nesting == 0 {
        return None;
    }
    let after = left.checked_sub(1)?;
    let (items, after) = items_now(alloc, known, es, after, nesting - 1)?;
    let value = list_now(alloc, items)?;
    Some((value, after))
}

// The items of a list.
#[cycle(now)]
fn items_now(
    alloc: Global,
    known: &Known<'_>,
    es: &[BoundElement],
    left: u64,
    nesting: u32,
) -> Option<(Vec<Value>, u64)>
    ensures { IfSome result (λ r. GoesOnAtOnce (knowledge known.now)
        (to_elements (map element_data es.now)) [] left (map plain_of r.0.items) r.1) }
{
    let mut made = room_for(alloc, es.len())?;
    let mut after = left;
    let mut rest = es;
    'elements: while let Some((element, others)) = rest.split_first() {
        let (is_spread, e) = element_parts(element);
        if is_spread {
            return None;
        }
        let (value, later) = value_now(alloc, known, e, after, nesting)?;
        if !add_item(&mut made, value) {
            return None;
        }
        after = later;
        rest = others;
    }
    Some((made, after))
}

// What an object gives.
#[cycle(now)]
fn properties_now(
    alloc: Global,
    known: &Known<'_>,
    ps: &[BoundProp],
    left: u64,
    nesting: u32,
) -> Option<(Value, u64)>
    ensures { IfSome result (λ r. IsAtOnce (knowledge known.now) (tree.Object
        (to_props (map prop_data ps.now))) left (plain_of r.0) r.1) }
{
    if nesting == 0 {
        return None;
    }
    let after = left.checked_sub(1)?;
    let (fields, after) = fields_now(alloc, known, ps, after, nesting - 1)?;
    let value = object_now(alloc, fields)?;
    Some((value, after))
}

// The fields of an object.
#[cycle(now)]
fn fields_now(
    alloc: Global,
    known: &Known<'_>,
    ps: &[BoundProp],
    left: u64,
    nesting: u32,
) -> Option<(Vec<Field>, u64)>
    ensures { IfSome result (λ r. HasFieldsAtOnce (knowledge known.now)
        (to_props (map prop_data ps.now)) left (map plain_field r.0.items) r.1) }
{
    let mut made = room_for(alloc, ps.len())?;
    let mut after = left;
    let mut rest = ps;
    'properties: while let Some((property, others)) = rest.split_first() {
        let (name, e) = named_parts(property)?;
        let (value, later) = value_now(alloc, known, e, after, nesting)?;
        if !add_field(&mut made, name, value) {
            return None;
        }
        after = later;
        rest = others;
    }
    Some((made, after))
}

// What an expression gives with the members, indices and calls after it.
#[cycle(now)]
fn postfix_now(
    alloc: Global,
    known: &Known<'_>,
    e: &BoundExpr,
    parts: &[BoundPart],
    left: u64,
    nesting: u32,
) -> Option<(Value, u64)>
    ensures { IfSome result (λ r. IsAtOnce (knowledge known.now) (tree.Postfix (expr_data e.now)
        (to_parts (map part_data parts.now))) left (plain_of r.0) r.1) }
{
    if nesting == 0 {
        return None;
    }
    let (value, after) = value_now(alloc, known, e, left, nesting - 1)?;
    parts_now(alloc, known, parts, value, after, nesting - 1)
}

// What a value gives with the members, indices and calls after it.
#[cycle(now)]
fn parts_now(
    alloc: Global,
    known: &Known<'_>,
    parts: &[BoundPart],
    value: Value,
    left: u64,
    nesting: u32,
) -> Option<(Value, u64)>
    ensures { IfSome result (λ r. FollowsAtOnce (knowledge known.now)
        (to_parts (map part_data parts.now)) (plain_of value) left (plain_of r.0) r.1) }
{
    let mut answer = value;
    let mut after = left;
    let mut rest = parts;
    'parts: while let Some((part, others)) = rest.split_first() {
        match part_now(alloc, known, part, answer, after, nesting) {
            Some((next, later)) => {
                answer = next;
                after = later;
            }
            None => return None,
        }
        rest = others;
    }
    Some((answer, after))
}

// What a value gives with a member, an index or a call.
#[cycle(now)]
#[tactic(auto, using(dscript_program::proofs::NodeViews::bound_views))]
fn part_now(
    alloc: Global,
    known: &Known<'_>,
    part: &BoundPart,
    value: Value,
    left: u64,
    nesting: u32,
) -> Option<(Value, u64)>
    ensures { IfSome result (λ r. (more : PartRow) (y : Plain) (later : ℕ)
        → FollowsAtOnce (knowledge known.now) more (plain_of r.0) r.1 y later
        → FollowsAtOnce (knowledge known.now) (more_parts (part_data part.now) more)
        (plain_of value) left y later) }
{
    match part {
        BoundPart::Member(name) => member_now(known, value, name, left),
        BoundPart::Index(e) => index_now(alloc, known, e, value, left, nesting),
        BoundPart::Call(args) => { apply_now(alloc, known, args.as_slice(), value, left, nesting) }
    }
}

// What an object has in the field with a name.
fn member_now(known: &Known<'_>, value: Value, name: &Text, left: u64) -> Option<(Value, u64)>
    ensures { IfSome result (λ r. (more : PartRow) (y : Plain) (later : ℕ)
        → FollowsAtOnce (knowledge known.now) more (plain_of r.0) r.1 y later
        → FollowsAtOnce (knowledge known.now) (more_parts (tree.Member name.now) more)
        (plain_of value) left y later) }
{
    let after = left.checked_sub(1)?;
    let found = field_in(&value, name);
    drop(value);
    match found {
        Some(found) => Some((found, after)),
        None => None,
    }
}

// What a value has at an index.
#[cycle(now)]
fn index_now(
    alloc: Global,
    known: &Known<'_>,
    e: &BoundExpr,
    value: Value,
    left: u64,
    nesting: u32,
) -> Option<(Value, u64)>
    ensures { IfSome result (λ r. (more : PartRow) (y : Plain) (later : ℕ)
        → FollowsAtOnce (knowledge known.now) more (plain_of r.0) r.1 y later
        → FollowsAtOnce (knowledge known.now) (more_parts (tree.Index (expr_data e.now)) more)
        (plain_of value) left y later) }
{
    let after = left.checked_sub(1)?;
    match value_now(alloc, known, e, after, nesting) {
        Some((at, later)) => {
            let found = indexed_now(value, at)?;
            Some((found, later))
        }
        None => {
            drop(value);
            None
        }
    }
}

// What the call of a value gives, if that is an ambient call that changes nothing.
#[cycle(now)]
fn apply_now(
    alloc: Global,
    known: &Known<'_>,
    args: &[BoundExpr],
    value: Value,
    left: u64,
    nesting: u32,
) -> Option<(Value, u64)>
    ensures { IfSome result (λ r. (more : PartRow) (y : Plain) (later : ℕ)
        → FollowsAtOnce (knowledge known.now) more (plain_of r.0) r.1 y later
        → FollowsAtOnce (knowledge known.now) (more_parts (tree.Call (to_exprs (map expr_data args.now))) more)
        (plain_of value) left y later) }
{
    let name = plain_call(&value)?;
    drop(value);
    let after = left.checked_sub(1)?;
    let (values, after) = arguments_now(alloc, known, args, after, nesting)?;
    let answer = called_now(alloc, name, values.as_slice())?;
    Some((answer, after))
}

// The arguments of a call.
#[cycle(now)]
fn arguments_now(
    alloc: Global,
    known: &Known<'_>,
    args: &[BoundExpr],
    left: u64,
    nesting: u32,
) -> Option<(Vec<Value>, u64)>
    ensures { IfSome result (λ r. HasArgumentsAtOnce (knowledge known.now) (to_exprs (map expr_data args.now))
        left (map plain_of r.0.items) r.1) }
{
    let mut made = room_for(alloc, args.len())?;
    let mut after = left;
    let mut rest = args;
    'arguments: while let Some((e, others)) = rest.split_first() {
        let (value, later) = value_now(alloc, known, e, after, nesting)?;
        if !add_item(&mut made, value) {
            return None;
        }
        after = later;
        rest = others;
    }
    Some((made, after))
}
