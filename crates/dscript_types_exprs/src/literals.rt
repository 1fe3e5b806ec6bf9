//! Templates and literals with a letter.
ghost use Rattle.std.specs.Prelude.{IfOk, map};
ghost use Rattle.dscript_program.specs.BoundTree as tree;
ghost use Rattle.dscript_program.specs.BoundTree.{to_holes};
ghost use Rattle.dscript_program.specs.Views.{expr_data, hole_data};
ghost use Rattle.dscript_types_exprs.specs.Parts.{hole_fit, nothing};
ghost use Rattle.dscript_types_meaning.specs.Expressions as rules;
ghost use Rattle.dscript_types_notes.specs.Means.{IsSound};
ghost use Rattle.dscript_types_scenes.specs.Holes.{hole_type};
ghost use Rattle.dscript_types_scenes.specs.Scenes.{TypesAs};
ghost use Rattle.dscript_types_scenes.specs.Typings.{subject_data};

use crate::exprs::type_of;
use bx_tree::{Memory, Text};
use dscript_ast::PathKind;
use dscript_program::{BoundExpr, BoundHole};
use dscript_types_meaning::Kind;
use dscript_types_notes::World;
use dscript_types_scenes::{
    Allowed, Scene, Seen, Subject, Typing, after_holes, first_hole, hole_parts, letter_kind,
    may_hold,
};

/// A template, whose holes take all that has a text.
#[cycle(exprs)]
pub(crate) fn template(
    world: &World<'_>,
    scene: &Scene<'_>,
    _text: &Text,
    holes: &[BoundHole],
) -> Result<Typing<Subject>, Memory>
    requires { IsSound world.now }
    ensures { IfOk result (λ found. TypesAs subject_data world.now scene.now found
        (λ p known c. rules.subject p known c (tree.Template _text.now (to_holes (map hole_data holes.now))))) }
{
    let found = holes_fit(world, scene, Allowed::InTemplate, holes)?;
    after_holes(world, found, Kind::String)
}

/// A literal with a letter.
#[cycle(exprs)]
pub(crate) fn literal(
    world: &World<'_>,
    scene: &Scene<'_>,
    letter: PathKind,
    text: &Text,
    holes: &[BoundHole],
) -> Result<Typing<Subject>, Memory>
    requires { IsSound world.now }
    ensures { IfOk result (λ found. TypesAs subject_data world.now scene.now found
        (λ p known c. rules.subject p known c (tree.Path letter text.now (to_holes (map hole_data holes.now))))) }
{
    let found = literal_fits(world, scene, first_hole(letter, text), holes)?;
    after_holes(world, found, letter_kind(letter))
}

// The holes of a literal, of which the first may hold this.
#[cycle(exprs)]
fn literal_fits(
    world: &World<'_>,
    scene: &Scene<'_>,
    allowed: Allowed,
    holes: &[BoundHole],
) -> Result<Typing<()>, Memory>
    requires { IsSound world.now }
    ensures { IfOk result (λ found. TypesAs nothing world.now scene.now found
        (λ p known c. rules.literal_fits p known c (hole_type allowed) (to_holes (map hole_data holes.now)))) }
{
    let Some((first, more)) = holes.split_first() else {
        return Ok(Typing::Found((), Seen::from_rank(0)));
    };
    let (value, _) = hole_parts(first);
    let seen = match hole_fits(world, scene, allowed, value)? {
        Typing::Found((), seen) => seen,
        Typing::Nothing => return Ok(Typing::Nothing),
        Typing::Open(pending) => return Ok(Typing::Open(pending)),
    };
    match holes_fit(world, scene, Allowed::InLiteral, more)? {
        Typing::Found((), further) => Ok(Typing::Found((), seen.and(further))),
        Typing::Nothing => Ok(Typing::Nothing),
        Typing::Open(pending) => Ok(Typing::Open(pending)),
    }
}

// A hole that may hold this.
#[cycle(exprs)]
fn hole_fits(
    world: &World<'_>,
    scene: &Scene<'_>,
    allowed: Allowed,
    value: &BoundExpr,
) -> Result<Typing<()>, Memory>
    requires { IsSound world.now }
    ensures { IfOk result (λ found. TypesAs nothing world.now scene.now found
        (λ p known c. hole_fit p known c allowed (expr_data value.now))) }
{
    match type_of(world, scene, value)? {
        Typing::Found(t, seen) => {
            if may_hold(allowed, &t) {
                Ok(Typing::Found((), seen))
            } else {
                Ok(Typing::Nothing)
            }
        }
        Typing::Nothing => Ok(Typing::Nothing),
        Typing::Open(pending) => Ok(Typing::Open(pending)),
    }
}

// Holes that may each hold this.
#[cycle(exprs)]
fn holes_fit(
    world: &World<'_>,
    scene: &Scene<'_>,
    allowed: Allowed,
    holes: &[BoundHole],
) -> Result<Typing<()>, Memory>
    requires { IsSound world.now }
    ensures { IfOk result (λ found. TypesAs nothing world.now scene.now found
        (λ p known c. rules.holes_fit p known c (hole_type allowed) (to_holes (map hole_data holes.now)))) }
{
    let mut seen = Seen::from_rank(0);
    'holes: for hole in holes {
        let (value, _) = hole_parts(hole);
        match hole_fits(world, scene, allowed, value)? {
            Typing::Found((), further) => seen = seen.and(further),
            Typing::Nothing => return Ok(Typing::Nothing),
            Typing::Open(pending) => return Ok(Typing::Open(pending)),
        }
    }
    Ok(Typing::Found((), seen))
}
