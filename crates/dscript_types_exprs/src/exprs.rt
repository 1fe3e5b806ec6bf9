//! Expressions.
ghost use Rattle.std.specs.Prelude.{IfOk, map};
ghost use Rattle.dscript_program.specs.BoundTree as tree;
ghost use Rattle.dscript_program.specs.BoundTree.{to_operands};
ghost use Rattle.dscript_program.specs.Views.{expr_data, operand_data};
ghost use Rattle.dscript_types_exprs.specs.Parts.{operand_typed};
ghost use Rattle.dscript_types_meaning.specs.Expressions as rules;
ghost use Rattle.dscript_types_notes.specs.Means.{IsSound};
ghost use Rattle.dscript_types_scenes.specs.Scenes.{TypesAs};
ghost use Rattle.dscript_types_scenes.specs.Typings.{subject_data};

use crate::calls::after;
use crate::collections::{list, object};
use crate::literals::{literal, template};
use bx_tree::Memory;
use dscript_ast::{BinaryOp, UnaryOp};
use dscript_program::{BoundExpr, BoundOperand};
use dscript_types_data::{Type, join};
use dscript_types_meaning::Kind;
use dscript_types_notes::World;
use dscript_types_rows::{operated, prefixed};
use dscript_types_scenes::{
    Scene, Subject, Typing, following, is, named, narrowed, of_kind, only, operand_parts,
    outcome_of, whole,
};

/// What an expression comes to as a subject.
#[cycle(exprs)]
pub(crate) fn subject(
    world: &World<'_>,
    scene: &Scene<'_>,
    expr: &BoundExpr,
) -> Result<Typing<Subject>, Memory>
    requires { IsSound world.now }
    ensures { IfOk result (λ found. TypesAs subject_data world.now scene.now found
        (λ p known c. rules.subject p known c (expr_data expr.now))) }
{
    match expr {
        BoundExpr::Number(_) => of_kind(world, Kind::Number),
        BoundExpr::Str(_) => of_kind(world, Kind::String),
        BoundExpr::True => of_kind(world, Kind::Boolean),
        BoundExpr::False => of_kind(world, Kind::Boolean),
        BoundExpr::Undefined => of_kind(world, Kind::Undefined),
        BoundExpr::Template(text, holes) => template(world, scene, text, holes.as_slice()),
        BoundExpr::Path(letter, text, holes) => literal(
            world,
            scene,
            *letter,
            text,
            holes.as_slice(),
        ),
        BoundExpr::List(elements) => list(world, scene, elements.as_slice()),
        BoundExpr::Object(props) => object(world, scene, props.as_slice()),
        BoundExpr::Name(target) => named(world, scene, *target),
        BoundExpr::Arrow(_) => Ok(Typing::Nothing),
        BoundExpr::Cond(x, a, b) => choice(world, scene, x, a, b),
        BoundExpr::Chain(first, more) => chain(world, scene, first, more.as_slice()),
        BoundExpr::Unary(operators, operand) => with_prefixes(
            world,
            scene,
            operators.as_slice(),
            operand,
        ),
        BoundExpr::Postfix(first, parts) => {
            let found = subject(world, scene, first)?;
            after(world, scene, found, parts.as_slice())
        }
    }
}

/// The type of an expression as a value.
#[cycle(exprs)]
pub(crate) fn type_of(
    world: &World<'_>,
    scene: &Scene<'_>,
    expr: &BoundExpr,
) -> Result<Typing<Type>, Memory>
    requires { IsSound world.now }
    ensures { IfOk result (λ found. TypesAs (λ t. t) world.now scene.now found
        (λ p known c. rules.expr_type p known c (expr_data expr.now))) }
{
    whole(world, subject(world, scene, expr)?)
}

// The two sides of a condition, each under what it says.
#[cycle(exprs)]
fn choice(
    world: &World<'_>,
    scene: &Scene<'_>,
    condition: &BoundExpr,
    one: &BoundExpr,
    other: &BoundExpr,
) -> Result<Typing<Subject>, Memory>
    requires { IsSound world.now }
    ensures { IfOk result (λ found. TypesAs subject_data world.now scene.now found
        (λ p known c. rules.subject p known c
        (tree.Cond (expr_data condition.now) (expr_data one.now) (expr_data other.now)))) }
{
    let first = match type_of(world, scene, condition)? {
        Typing::Found(_, seen) => seen,
        Typing::Nothing => return Ok(Typing::Nothing),
        Typing::Open(pending) => return Ok(Typing::Open(pending)),
    };
    let (t, second) = match type_of(world, &narrowed(world.alloc, true, condition, scene)?, one)? {
        Typing::Found(t, seen) => (t, seen),
        Typing::Nothing => return Ok(Typing::Nothing),
        Typing::Open(pending) => return Ok(Typing::Open(pending)),
    };
    let (u, third) = match type_of(
        world,
        &narrowed(world.alloc, false, condition, scene)?,
        other,
    )? {
        Typing::Found(u, seen) => (u, seen),
        Typing::Nothing => return Ok(Typing::Nothing),
        Typing::Open(pending) => return Ok(Typing::Open(pending)),
    };
    Ok(is(
        join(world.alloc, &t, &u)?.within_limit(),
        first.and(second).and(third),
    ))
}

// An operand of a chain after one with this type, and the type of both.
#[cycle(exprs)]
fn operand_type(
    world: &World<'_>,
    scene: &Scene<'_>,
    t: &Type,
    operator: BinaryOp,
    value: &BoundExpr,
) -> Result<Typing<Type>, Memory>
    requires { IsSound world.now }
    ensures { IfOk result (λ found. TypesAs (λ t. t) world.now scene.now found
        (λ p known c. operand_typed p known c operator t.now (expr_data value.now))) }
{
    match type_of(world, scene, value)? {
        Typing::Found(u, seen) => Ok(only(operated(world.alloc, operator, t, &u)?, seen)),
        Typing::Nothing => Ok(Typing::Nothing),
        Typing::Open(pending) => Ok(Typing::Open(pending)),
    }
}

// The operands of a chain, from left to right. Where each is evaluated only if all before it come out so, it stands
// under what they say.
#[cycle(exprs)]
fn chain(
    world: &World<'_>,
    scene: &Scene<'_>,
    first: &BoundExpr,
    more: &[BoundOperand],
) -> Result<Typing<Subject>, Memory>
    requires { IsSound world.now }
    ensures { IfOk result (λ found. TypesAs subject_data world.now scene.now found
        (λ p known c. rules.subject p known c
        (tree.Chain (expr_data first.now) (to_operands (map operand_data more.now))))) }
{
    let (mut t, mut seen) = match type_of(world, scene, first)? {
        Typing::Found(t, seen) => (t, seen),
        Typing::Nothing => return Ok(Typing::Nothing),
        Typing::Open(pending) => return Ok(Typing::Open(pending)),
    };
    let outcome = outcome_of(more);
    let mut here = scene.share()?;
    let mut left = first;
    'operands: for operand in more {
        let (operator, value) = operand_parts(operand);
        here = following(world, outcome, left, &here)?;
        match operand_type(world, &here, &t, operator, value)? {
            Typing::Found(answer, further) => {
                t = answer;
                seen = seen.and(further);
            }
            Typing::Nothing => return Ok(Typing::Nothing),
            Typing::Open(pending) => return Ok(Typing::Open(pending)),
        }
        left = value;
    }
    Ok(is(Some(t), seen))
}

// Operators before an operand.
#[cycle(exprs)]
fn with_prefixes(
    world: &World<'_>,
    scene: &Scene<'_>,
    operators: &[UnaryOp],
    operand: &BoundExpr,
) -> Result<Typing<Subject>, Memory>
    requires { IsSound world.now }
    ensures { IfOk result (λ found. TypesAs subject_data world.now scene.now found
        (λ p known c. rules.subject p known c (tree.Unary operators.now (expr_data operand.now)))) }
{
    match type_of(world, scene, operand)? {
        Typing::Found(t, seen) => Ok(is(prefixed(world.alloc, operators, t)?, seen)),
        Typing::Nothing => Ok(Typing::Nothing),
        Typing::Open(pending) => Ok(Typing::Open(pending)),
    }
}
