//! What conditions say of locals.
ghost use Rattle.std.specs.Bool.{beq};
ghost use Rattle.std.specs.Prelude.{◌≡◌, IfOk, Some, map};
ghost use Rattle.dscript_program.specs.BoundTree as tree;
ghost use Rattle.dscript_program.specs.BoundTree.{to_operands};
ghost use Rattle.dscript_program.specs.Views.{expr_data, operand_data};
ghost use Rattle.dscript_types_known.specs.Findings.{finding_map};
ghost use Rattle.dscript_types_known.specs.Views.{finding_data, found_local, locals_at};
ghost use Rattle.dscript_types_meaning.specs.Contexts.{local_at};
ghost use Rattle.dscript_types_meaning.specs.Narrowing as rules;
ghost use Rattle.dscript_types_meaning.specs.Unions as unions;
ghost use Rattle.dscript_types_notes.specs.declared.world.World.{World as AnyWorld};
ghost use Rattle.dscript_types_scenes.specs.Scenes.{GoesTo};
ghost use Rattle.dscript_types_scenes.specs.Shapes.{is_negation, is_undefined, outcome_by, shape_of};

use crate::nodes::{Shape, operand_parts, shape_of};
use crate::scene::Scene;
use bx_tree::Memory;
use dscript_ast::{BinaryOp, UnaryOp};
use dscript_program::{BoundExpr, BoundOperand, Target};
use dscript_types_data::{Type, without_undefined};
use dscript_types_known::{Finding, Hold, Local};
use dscript_types_notes::World;
use std::alloc::Global;

// The local that a name stands for.
fn local_of(target: Target) -> Option<u32>
    ensures { result ≡ rules.local_named (tree.Name target) }
{
    match target {
        Target::Local(number) => Some(number),
        Target::Declared { .. } => None,
        Target::Ambient(_) => None,
    }
}

fn local_named(expr: &BoundExpr) -> Option<u32>
    ensures { result ≡ rules.local_named (expr_data expr.now) }
{
    match shape_of(expr) {
        Shape::Name(target) => local_of(target),
        Shape::Arrow(_) => None,
        Shape::Undefined => None,
        Shape::Unary(_, _) => None,
        Shape::Chain(_, _) => None,
        Shape::Other => None,
    }
}

// A local that there may be, with an outcome.
fn with_outcome(outcome: bool, named: Option<u32>) -> Option<(u32, bool)>
    ensures { result ≡ rules.with_outcome outcome named }
{
    match named {
        Some(number) => Some((number, outcome)),
        None => None,
    }
}

// Whether these are `!` alone.
fn is_negation(operators: &[UnaryOp]) -> bool
    ensures { result ≡ is_negation operators.now }
{
    let Some((first, rest)) = operators.split_first() else {
        return false;
    };
    if !rest.is_empty() {
        return false;
    }
    match first {
        UnaryOp::Not => true,
        UnaryOp::Negate => false,
    }
}

// What operators before a local say of it.
fn told_by_prefix(operators: &[UnaryOp], operand: &BoundExpr) -> Option<(u32, bool)>
    ensures { result ≡ rules.told (tree.Unary operators.now (expr_data operand.now)) }
{
    if is_negation(operators) {
        with_outcome(false, local_named(operand))
    } else {
        None
    }
}

// What a chain says of its first operand.
fn told_by_chain(first: &BoundExpr, more: &[BoundOperand]) -> Option<(u32, bool)>
    ensures { result ≡ rules.told (tree.Chain (expr_data first.now) (to_operands (map operand_data more.now))) }
{
    let Some((operand, others)) = more.split_first() else {
        return None;
    };
    if !others.is_empty() {
        return None;
    }
    let (operator, value) = operand_parts(operand);
    told_by(operator, value, local_named(first))
}

// A local, and the outcome of the condition under which it is not undefined.
fn told(condition: &BoundExpr) -> Option<(u32, bool)>
    ensures { result ≡ rules.told (expr_data condition.now) }
{
    match shape_of(condition) {
        Shape::Name(target) => with_outcome(true, local_of(target)),
        Shape::Unary(operators, operand) => told_by_prefix(operators, operand),
        Shape::Chain(first, more) => told_by_chain(first, more),
        Shape::Arrow(_) => None,
        Shape::Undefined => None,
        Shape::Other => None,
    }
}

// Whether an operand is `undefined`.
fn is_undefined(value: &BoundExpr) -> bool
    ensures { result ≡ is_undefined (shape_of (expr_data value.now)) }
{
    match shape_of(value) {
        Shape::Undefined => true,
        Shape::Name(_) => false,
        Shape::Arrow(_) => false,
        Shape::Unary(_, _) => false,
        Shape::Chain(_, _) => false,
        Shape::Other => false,
    }
}

// What a comparison with `undefined` says of a local.
fn outcome_by(operator: BinaryOp) -> Option<bool>
    ensures { result ≡ outcome_by operator }
{
    match operator {
        BinaryOp::Equal => Some(false),
        BinaryOp::NotEqual => Some(true),
        _ => None,
    }
}

// What a comparison with an operand says of a local.
fn told_by(operator: BinaryOp, value: &BoundExpr, named: Option<u32>) -> Option<(u32, bool)>
    ensures { result ≡ rules.told_if_named operator (expr_data value.now) named }
{
    let Some(number) = named else {
        return None;
    };
    if !is_undefined(value) {
        return None;
    }
    match outcome_by(operator) {
        Some(outcome) => Some((number, outcome)),
        None => None,
    }
}

// Whether an operator is `&&`.
fn is_and(operator: BinaryOp) -> bool
    ensures { result ≡ rules.is_and operator }
{
    matches!(operator, BinaryOp::And)
}

// Whether each operator is `&&`.
fn are_and(more: &[BoundOperand]) -> bool
    ensures { result ≡ rules.each_operator rules.is_and (to_operands (map operand_data more.now)) }
{
    'operands: for operand in more {
        let (operator, _) = operand_parts(operand);
        if !is_and(operator) {
            return false;
        }
    }
    true
}

// Whether an operator is `||`.
fn is_or(operator: BinaryOp) -> bool
    ensures { result ≡ rules.is_or operator }
{
    matches!(operator, BinaryOp::Or)
}

// Whether each operator is `||`.
fn are_or(more: &[BoundOperand]) -> bool
    ensures { result ≡ rules.each_operator rules.is_or (to_operands (map operand_data more.now)) }
{
    'operands: for operand in more {
        let (operator, _) = operand_parts(operand);
        if !is_or(operator) {
            return false;
        }
    }
    true
}

/// How all operands of a chain before another have come out, where that one is evaluated.
pub fn outcome_of(more: &[BoundOperand]) -> Option<bool>
    ensures { result ≡ rules.outcome_of (to_operands (map operand_data more.now)) }
{
    if are_and(more) {
        Some(true)
    } else if are_or(more) {
        Some(false)
    } else {
        None
    }
}

// The finding of a local that is not undefined.
fn narrowed_finding(alloc: Global, finding: &Finding<Type>) -> Result<Finding<Type>, Memory>
    ensures { IfOk result (λ f. finding_data f ≡ finding_map unions.without_undefined (finding_data finding.now)) }
{
    match finding {
        Finding::Found(t, rank) => Ok(Finding::Found(without_undefined(alloc, t)?, *rank)),
        Finding::Nothing => Ok(Finding::Nothing),
        Finding::Open(pending) => Ok(Finding::Open(*pending)),
    }
}

// This place, where a local is not undefined that it sees. Only one that always holds its first value is narrowed.
fn narrowed_local<'a>(
    alloc: Global,
    number: u32,
    local: &Local,
    scene: &Scene<'a>,
) -> Result<Scene<'a>, Memory>
    requires { Some (found_local local.now) ≡ locals_at scene.now.locals number }
    ensures { IfOk result (λ new. (w : AnyWorld) → GoesTo w scene.now new
        (λ p known c. rules.narrow_local number (local_at c number) c)) }
{
    match local.hold {
        Hold::Fixed => {
            let finding = narrowed_finding(alloc, &local.finding)?;
            scene.with(
                alloc,
                number,
                Local {
                    finding,
                    hold: Hold::Fixed,
                },
            )
        }
        Hold::Variable => scene.share(),
        Hold::Captured => scene.share(),
    }
}

// Whether two outcomes are the same.
fn same_outcome(outcome: bool, other: bool) -> bool
    ensures { result ≡ beq outcome other }
{
    outcome == other
}

/// This place, where the condition has come out so.
pub fn narrowed<'a>(
    alloc: Global,
    outcome: bool,
    condition: &BoundExpr,
    scene: &Scene<'a>,
) -> Result<Scene<'a>, Memory>
    ensures { IfOk result (λ new. (w : AnyWorld) → GoesTo w scene.now new
        (λ p known c. rules.narrowed outcome (expr_data condition.now) c)) }
{
    let Some((number, when)) = told(condition) else {
        return scene.share();
    };
    if !same_outcome(outcome, when) {
        return scene.share();
    }
    match scene.locals.get(number) {
        Some(local) => narrowed_local(alloc, number, local, scene),
        None => scene.share(),
    }
}

/// The place of the operand that follows another.
pub fn following<'a>(
    world: &World<'_>,
    outcome: Option<bool>,
    left: &BoundExpr,
    scene: &Scene<'a>,
) -> Result<Scene<'a>, Memory>
    ensures { IfOk result (λ new. (w : AnyWorld) → GoesTo w scene.now new
        (λ p known c. rules.following outcome (expr_data left.now) c)) }
{
    match outcome {
        Some(outcome) => narrowed(world.alloc, outcome, left, scene),
        None => scene.share(),
    }
}
