//! Members, indices and calls.
ghost use Rattle.std.specs.Prelude.{IfOk, map};
ghost use Rattle.dscript_program.specs.BoundTree as tree;
ghost use Rattle.dscript_program.specs.BoundTree.{to_exprs, to_parts};
ghost use Rattle.dscript_program.specs.Views.{expr_data, part_data};
ghost use Rattle.dscript_types_exprs.specs.Calls.{GoesOn, SeesOn, ambient_subject, call_subject, function_subject};
ghost use Rattle.dscript_types_exprs.specs.Calls.{index_subject, method_subject};
ghost use Rattle.dscript_types_exprs.specs.Parts.{items_now};
ghost use Rattle.dscript_types_meaning.specs.Expressions as rules;
ghost use Rattle.dscript_types_notes.specs.Means.{IsSound};
ghost use Rattle.dscript_types_scenes.specs.Scenes.{TypesAs};
ghost use Rattle.dscript_types_scenes.specs.Typings.{subject_data};

use crate::callbacks::with_callback;
use crate::exprs::type_of;
use bx_tree::{Memory, Text};
use dscript_program::{Ambient, BoundExpr, BoundPart};
use dscript_types_data::Type;
use dscript_types_known::Finding;
use dscript_types_notes::World;
use dscript_types_rows::{ambient_type, indexed, method_type};
use dscript_types_scenes::{
    Scene, Seen, Subject, Typing, callback_member, function_type, is, member_of, whole,
};

/// The members, indices and calls after a subject.
#[cycle(exprs)]
pub(crate) fn after(
    world: &World<'_>,
    scene: &Scene<'_>,
    found: Typing<Subject>,
    parts: &[BoundPart],
) -> Result<Typing<Subject>, Memory>
    requires { IsSound world.now }
    ensures { IfOk result (λ end. GoesOn subject_data world.now scene.now found end
        (λ p known c s. rules.after p known c (to_parts (map part_data parts.now)) s)) }
{
    let mut found = found;
    'parts: for part in parts {
        found = after_one(world, scene, found, part)?;
    }
    Ok(found)
}

// One member, index or call after a subject.
#[cycle(exprs)]
fn after_one(
    world: &World<'_>,
    scene: &Scene<'_>,
    found: Typing<Subject>,
    part: &BoundPart,
) -> Result<Typing<Subject>, Memory>
    requires { IsSound world.now }
    ensures { IfOk result (λ end. GoesOn subject_data world.now scene.now found end
        (λ p known c s. rules.after p known c (tree.more_parts (part_data part.now) tree.no_parts) s)) }
{
    match part {
        BoundPart::Member(name) => member_of(whole(world, found)?, name),
        BoundPart::Index(index) => at_index(world, scene, whole(world, found)?, index),
        BoundPart::Call(arguments) => called(world, scene, found, arguments.as_slice()),
    }
}

// A value with an index.
#[cycle(exprs)]
fn at_index(
    world: &World<'_>,
    scene: &Scene<'_>,
    found: Typing<Type>,
    index: &BoundExpr,
) -> Result<Typing<Subject>, Memory>
    requires { IsSound world.now }
    ensures { IfOk result (λ end. GoesOn (λ t. t) world.now scene.now found end
        (λ p known c t. index_subject p known c (expr_data index.now) t)) }
{
    let (t, seen) = match found {
        Typing::Found(t, seen) => (t, seen),
        Typing::Nothing => return Ok(Typing::Nothing),
        Typing::Open(pending) => return Ok(Typing::Open(pending)),
    };
    match type_of(world, scene, index)? {
        Typing::Found(u, further) => Ok(is(indexed(world.alloc, &t, &u)?, seen.and(further))),
        Typing::Nothing => Ok(Typing::Nothing),
        Typing::Open(pending) => Ok(Typing::Open(pending)),
    }
}

// The call of a subject.
#[cycle(exprs)]
fn called(
    world: &World<'_>,
    scene: &Scene<'_>,
    found: Typing<Subject>,
    arguments: &[BoundExpr],
) -> Result<Typing<Subject>, Memory>
    requires { IsSound world.now }
    ensures { IfOk result (λ end. GoesOn subject_data world.now scene.now found end
        (λ p known c s. call_subject p known c (to_exprs (map expr_data arguments.now)) s)) }
{
    match found {
        Typing::Found(subject, seen) => subject_call(world, scene, subject, seen, arguments),
        Typing::Nothing => Ok(Typing::Nothing),
        Typing::Open(pending) => Ok(Typing::Open(pending)),
    }
}

// The call of a subject that was found.
#[cycle(exprs)]
fn subject_call(
    world: &World<'_>,
    scene: &Scene<'_>,
    subject: Subject,
    seen: Seen,
    arguments: &[BoundExpr],
) -> Result<Typing<Subject>, Memory>
    requires { IsSound world.now }
    ensures { IfOk result (λ end. SeesOn world.now scene.now seen end
        (λ p known c. call_subject p known c (to_exprs (map expr_data arguments.now)) (subject_data subject))) }
{
    match subject {
        Subject::Named(t, name) => match callback_member(name.bytes()) {
            Some(member) => with_callback(world, scene, member, t, seen, arguments),
            None => method_call(world, scene, &t, &name, seen, arguments),
        },
        Subject::Function { file, decl } => function_call(
            world, scene, file, decl, seen, arguments,
        ),
        Subject::Ambient(call) => ambient_call(world, scene, call, seen, arguments),
        Subject::Whole(_) => Ok(Typing::Nothing),
    }
}

// The call of a member function that calls no functions.
#[cycle(exprs)]
fn method_call(
    world: &World<'_>,
    scene: &Scene<'_>,
    t: &Type,
    name: &Text,
    seen: Seen,
    arguments: &[BoundExpr],
) -> Result<Typing<Subject>, Memory>
    requires { IsSound world.now }
    ensures { IfOk result (λ end. SeesOn world.now scene.now seen end
        (λ p known c. method_subject p known c t.now name.now (to_exprs (map expr_data arguments.now)))) }
{
    match types_of(world, scene, arguments)? {
        Typing::Found(given, further) => {
            Ok(is(
                method_type(world.alloc, t, name.bytes(), given.as_slice())?,
                seen.and(further),
            ))
        }
        Typing::Nothing => Ok(Typing::Nothing),
        Typing::Open(pending) => Ok(Typing::Open(pending)),
    }
}

// The call of a declared function.
#[cycle(exprs)]
fn function_call(
    world: &World<'_>,
    scene: &Scene<'_>,
    file: u32,
    decl: u32,
    seen: Seen,
    arguments: &[BoundExpr],
) -> Result<Typing<Subject>, Memory>
    requires { IsSound world.now }
    ensures { IfOk result (λ end. SeesOn world.now scene.now seen end
        (λ p known c. function_subject p known c file decl (to_exprs (map expr_data arguments.now)))) }
{
    match types_of(world, scene, arguments)? {
        Typing::Found(given, further) => match function_type(world, file, decl, given.as_slice())? {
            Finding::Found(t, rank) => Ok(is(
                Some(t),
                seen.and(further).and(Seen::from_rank(rank)),
            )),
            Finding::Nothing => Ok(Typing::Nothing),
            Finding::Open(pending) => Ok(Typing::Open(pending)),
        },
        Typing::Nothing => Ok(Typing::Nothing),
        Typing::Open(pending) => Ok(Typing::Open(pending)),
    }
}

// An ambient call.
#[cycle(exprs)]
fn ambient_call(
    world: &World<'_>,
    scene: &Scene<'_>,
    call: Ambient,
    seen: Seen,
    arguments: &[BoundExpr],
) -> Result<Typing<Subject>, Memory>
    requires { IsSound world.now }
    ensures { IfOk result (λ end. SeesOn world.now scene.now seen end
        (λ p known c. ambient_subject p known c call (to_exprs (map expr_data arguments.now)))) }
{
    match types_of(world, scene, arguments)? {
        Typing::Found(given, further) => Ok(is(
            ambient_type(world.alloc, call, given)?,
            seen.and(further),
        )),
        Typing::Nothing => Ok(Typing::Nothing),
        Typing::Open(pending) => Ok(Typing::Open(pending)),
    }
}

/// The types of arguments.
#[cycle(exprs)]
pub(crate) fn types_of(
    world: &World<'_>,
    scene: &Scene<'_>,
    exprs: &[BoundExpr],
) -> Result<Typing<Vec<Type>>, Memory>
    requires { IsSound world.now }
    ensures { IfOk result (λ found. TypesAs items_now world.now scene.now found
        (λ p known c. rules.arguments p known c (to_exprs (map expr_data exprs.now)))) }
{
    let mut types = Vec::new(world.alloc);
    let mut seen = Seen::from_rank(0);
    'exprs: for expr in exprs {
        match type_of(world, scene, expr)? {
            Typing::Found(t, further) => {
                types.push(t)?;
                seen = seen.and(further);
            }
            Typing::Nothing => return Ok(Typing::Nothing),
            Typing::Open(pending) => return Ok(Typing::Open(pending)),
        }
    }
    Ok(Typing::Found(types, seen))
}
