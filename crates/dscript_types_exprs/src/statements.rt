//! Statements.
ghost use Rattle.std.specs.Option.{option_copied, option_map};
ghost use Rattle.std.specs.Prelude.{IfOk, map};
ghost use Rattle.dscript_program.specs.BoundTree as tree;
ghost use Rattle.dscript_program.specs.BoundTree.{to_stmts};
ghost use Rattle.dscript_program.specs.Views.{expr_data, stmt_data};
ghost use Rattle.dscript_types_exprs.specs.Statements.{GoesToWith, type_of_variable, use_of, value_uses};
ghost use Rattle.dscript_types_exprs.specs.Walks.{Walks};
ghost use Rattle.dscript_types_known.specs.Views.{finding_data};
ghost use Rattle.dscript_types_meaning.specs.Bodies as rules;
ghost use Rattle.dscript_types_notes.specs.Means.{IsSound};
ghost use Rattle.dscript_types_scenes.specs.Scenes.{FindsAs};
ghost use Rattle.dscript_types_scenes.specs.Statements.{maybe_of, note_of};

use crate::exprs::type_of;
use bx_tree::Memory;
use dscript_ast::{LoopKind, TypeNode};
use dscript_program::{BoundExpr, BoundStmt};
use dscript_types_data::Type;
use dscript_types_known::{Finding, Hold, Local};
use dscript_types_notes::{World, meaning};
use dscript_types_scenes::{
    Added, Rule, Scene, Walk, fit_of, fits_note, fits_variable, loop_hold, loop_items, loop_rule,
    narrowed, note_of, other_of, with_added, without_value,
};

/// Statements, one after another, each with the locals that those before it declare.
#[cycle(exprs)]
pub(crate) fn stmts(
    world: &World<'_>,
    scene: &Scene<'_>,
    note: Option<&TypeNode>,
    stmts: &[BoundStmt],
    walk: &mut Walk,
) -> Result<(), Memory>
    requires { IsSound world.now }
    ensures { IfOk result (λ _. Walks world.now scene.now walk.old walk.new
        (λ p known c. rules.stmts_uses p known (note_of (option_copied note.entry)) c (to_stmts (map stmt_data stmts.now)))) }
{
    let mut here = scene.share()?;
    'stmts: for each in stmts {
        let added = stmt(world, &here, note, each, walk)?;
        here = with_added(world.alloc, here, added)?;
    }
    Ok(())
}

// A statement, and the local that it declares.
#[cycle(exprs)]
fn stmt(
    world: &World<'_>,
    scene: &Scene<'_>,
    note: Option<&TypeNode>,
    stmt: &BoundStmt,
    walk: &mut Walk,
) -> Result<Added, Memory>
    requires { IsSound world.now }
    ensures uses { IfOk result (λ _. Walks world.now scene.now walk.old walk.new
        (λ p known c. rules.stmt_uses p known (note_of (option_copied note.entry)) c (stmt_data stmt.now))) }
    ensures after { IfOk result (λ added. GoesToWith world.now scene.now added
        (λ p known c. rules.after_stmt p known c (stmt_data stmt.now))) }
{
    match stmt {
        BoundStmt::Const(number, annotation, value) => {
            let finding = declared(world, scene, note_of(annotation), value, walk)?;
            Ok(Some((
                *number,
                Local {
                    finding,
                    hold: Hold::Fixed,
                },
            )))
        }
        BoundStmt::Let(number, annotation, value) => {
            let finding = variable(world, scene, note_of(annotation), value, walk)?;
            Ok(Some((
                *number,
                Local {
                    finding,
                    hold: Hold::Variable,
                },
            )))
        }
        BoundStmt::Assign(number, value) => {
            assigned(world, scene, *number, value, walk)?;
            Ok(None)
        }
        BoundStmt::If(condition, one, other) => {
            choice(world, scene, note, condition, one, other_of(other), walk)?;
            Ok(None)
        }
        BoundStmt::For(kind, number, list, body) => {
            each_of(world, scene, note, *kind, *number, list, body, walk)?;
            Ok(None)
        }
        BoundStmt::Return(value) => {
            returned_if(world, scene, note, value, walk)?;
            Ok(None)
        }
        BoundStmt::Value(value) => {
            alone(world, scene, value, walk)?;
            Ok(None)
        }
        BoundStmt::Block(block) => {
            stmts(world, scene, note, block.as_slice(), walk)?;
            Ok(None)
        }
        BoundStmt::Empty => Ok(None),
    }
}

// A statement whose local no other sees.
#[cycle(exprs)]
fn nested(
    world: &World<'_>,
    scene: &Scene<'_>,
    note: Option<&TypeNode>,
    each: &BoundStmt,
    walk: &mut Walk,
) -> Result<(), Memory>
    requires { IsSound world.now }
    ensures { IfOk result (λ _. Walks world.now scene.now walk.old walk.new
        (λ p known c. rules.stmt_uses p known (note_of (option_copied note.entry)) c (stmt_data each.now))) }
{
    let _ = stmt(world, scene, note, each, walk)?;
    Ok(())
}

// A condition, and the sides under what it says.
#[cycle(exprs)]
fn choice(
    world: &World<'_>,
    scene: &Scene<'_>,
    note: Option<&TypeNode>,
    condition: &BoundExpr,
    one: &BoundStmt,
    other: Option<&BoundStmt>,
    walk: &mut Walk,
) -> Result<(), Memory>
    requires { IsSound world.now }
    ensures { IfOk result (λ _. Walks world.now scene.now walk.old walk.new
        (λ p known c. rules.stmt_uses p known (note_of (option_copied note.entry)) c
        (tree.If (expr_data condition.now) (stmt_data one.now) (maybe_of (option_copied other.entry))))) }
{
    alone(world, scene, condition, walk)?;
    let inner = narrowed(world.alloc, true, condition, scene)?;
    nested(world, &inner, note, one, walk)?;
    let Some(behind) = other else {
        return Ok(());
    };
    let outer = narrowed(world.alloc, false, condition, scene)?;
    nested(world, &outer, note, behind, walk)
}

// A loop over a list.
#[cycle(exprs)]
fn each_of(
    world: &World<'_>,
    scene: &Scene<'_>,
    note: Option<&TypeNode>,
    kind: LoopKind,
    number: u32,
    list: &BoundExpr,
    body: &BoundStmt,
    walk: &mut Walk,
) -> Result<(), Memory>
    requires { IsSound world.now }
    ensures { IfOk result (λ _. Walks world.now scene.now walk.old walk.new
        (λ p known c. rules.stmt_uses p known (note_of (option_copied note.entry)) c
        (tree.For kind number (expr_data list.now) (stmt_data body.now)))) }
{
    let finding = looped(world, scene, list, walk)?;
    let hold = loop_hold(kind);
    let inner = scene.with(world.alloc, number, Local { finding, hold })?;
    nested(world, &inner, note, body, walk)
}

// An expression by itself, or as a condition.
#[cycle(exprs)]
fn alone(
    world: &World<'_>,
    scene: &Scene<'_>,
    value: &BoundExpr,
    walk: &mut Walk,
) -> Result<(), Memory>
    requires { IsSound world.now }
    ensures { IfOk result (λ _. Walks world.now scene.now walk.old walk.new
        (λ p known c. use_of c rules.Alone (expr_data value.now))) }
{
    let found = type_of(world, scene, value)?;
    walk.judge(&found, Rule::Met(0));
    Ok(())
}

/// A returned expression, which must fit the annotation of the function.
#[cycle(exprs)]
pub(crate) fn returned(
    world: &World<'_>,
    scene: &Scene<'_>,
    note: Option<&TypeNode>,
    value: &BoundExpr,
    walk: &mut Walk,
) -> Result<(), Memory>
    requires { IsSound world.now }
    ensures { IfOk result (λ _. Walks world.now scene.now walk.old walk.new
        (λ p known c. use_of c (rules.Returned (note_of (option_copied note.entry))) (expr_data value.now))) }
{
    let found = type_of(world, scene, value)?;
    let rule = fits_note(world, scene, &found, note)?;
    walk.judge(&found, rule);
    walk.add(found)
}

// A return, with its value if it has one.
#[cycle(exprs)]
fn returned_if(
    world: &World<'_>,
    scene: &Scene<'_>,
    note: Option<&TypeNode>,
    value: &Option<BoundExpr>,
    walk: &mut Walk,
) -> Result<(), Memory>
    requires { IsSound world.now }
    ensures { IfOk result (λ _. Walks world.now scene.now walk.old walk.new
        (λ p known c. value_uses c (rules.Returned (note_of (option_copied note.entry))) (option_map expr_data value.now))) }
{
    match value {
        Some(value) => returned(world, scene, note, value, walk),
        None => Ok(()),
    }
}

/// The value of a constant or a variable: what is found of the local, by its annotation or its value.
#[cycle(exprs)]
pub(crate) fn declared(
    world: &World<'_>,
    scene: &Scene<'_>,
    note: Option<&TypeNode>,
    value: &BoundExpr,
    walk: &mut Walk,
) -> Result<Finding<Type>, Memory>
    requires { IsSound world.now }
    ensures uses { IfOk result (λ _. Walks world.now scene.now walk.old walk.new
        (λ p known c. use_of c (rules.Declared (note_of (option_copied note.entry))) (expr_data value.now))) }
    ensures local { IfOk result (λ f. FindsAs world.now scene.now (finding_data f)
        (λ p known c. rules.type_of_value p known c (expr_data value.now) (note_of (option_copied note.entry)))) }
{
    let found = type_of(world, scene, value)?;
    match note {
        Some(node) => {
            let meant = meaning(world, &scene.place, node)?;
            walk.judge(&found, fit_of(&found, &meant));
            Ok(meant)
        }
        None => {
            walk.judge(&found, Rule::Met(0));
            Ok(found.finding())
        }
    }
}

// A variable, with its value if it has one: what is found of the local.
#[cycle(exprs)]
fn variable(
    world: &World<'_>,
    scene: &Scene<'_>,
    note: Option<&TypeNode>,
    value: &Option<BoundExpr>,
    walk: &mut Walk,
) -> Result<Finding<Type>, Memory>
    requires { IsSound world.now }
    ensures uses { IfOk result (λ _. Walks world.now scene.now walk.old walk.new
        (λ p known c. value_uses c (rules.Declared (note_of (option_copied note.entry))) (option_map expr_data value.now))) }
    ensures local { IfOk result (λ f. FindsAs world.now scene.now (finding_data f)
        (λ p known c. type_of_variable p known c (note_of (option_copied note.entry)) (option_map expr_data value.now))) }
{
    match value {
        Some(value) => declared(world, scene, note, value, walk),
        None => without_value(world, scene, note),
    }
}

// What is assigned must fit its variable.
#[cycle(exprs)]
fn assigned(
    world: &World<'_>,
    scene: &Scene<'_>,
    number: u32,
    value: &BoundExpr,
    walk: &mut Walk,
) -> Result<(), Memory>
    requires { IsSound world.now }
    ensures { IfOk result (λ _. Walks world.now scene.now walk.old walk.new
        (λ p known c. use_of c (rules.Assigned number) (expr_data value.now))) }
{
    let found = type_of(world, scene, value)?;
    let rule = fits_variable(scene, number, &found);
    walk.judge(&found, rule);
    Ok(())
}

// The list of a loop: what is found of its items.
#[cycle(exprs)]
fn looped(
    world: &World<'_>,
    scene: &Scene<'_>,
    list: &BoundExpr,
    walk: &mut Walk,
) -> Result<Finding<Type>, Memory>
    requires { IsSound world.now }
    ensures uses { IfOk result (λ _. Walks world.now scene.now walk.old walk.new
        (λ p known c. use_of c rules.Looped (expr_data list.now))) }
    ensures items { IfOk result (λ f. FindsAs world.now scene.now (finding_data f)
        (λ p known c. rules.type_in_loop p known c (expr_data list.now))) }
{
    let found = type_of(world, scene, list)?;
    let rule = loop_rule(&found);
    walk.judge(&found, rule);
    loop_items(world.alloc, found)
}
