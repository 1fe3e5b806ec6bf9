//! Callbacks: functions that members of lists call.
ghost use Rattle.std.specs.Prelude.{◌≡◌, IfOk, Some, map};
ghost use Rattle.dscript_program.specs.BoundTree.{to_exprs};
ghost use Rattle.dscript_program.specs.Views.{expr_data, function_data};
ghost use Rattle.dscript_types_exprs.specs.Calls.{SeesOn, callback_subject};
ghost use Rattle.dscript_types_meaning.specs.Functions as rules;
ghost use Rattle.dscript_types_meaning.specs.Lookups.{function_at};
ghost use Rattle.dscript_types_notes.specs.Means.{IsSound, program_of};
ghost use Rattle.dscript_types_scenes.specs.Scenes.{TypesAs};

use crate::bodies::body;
use crate::calls::types_of;
use bx_tree::Memory;
use dscript_program::{BoundExpr, Function};
use dscript_sdk_members::Member;
use dscript_types_data::{Type, is_list_type, items_of};
use dscript_types_known::Finding;
use dscript_types_notes::World;
use dscript_types_scenes::{
    Scene, Seen, Shape, Subject, Typing, above_body, below, callback_scene, declared_answer,
    given_to, is, member_answer, shape_of,
};

/// The call of a member of a type, all of whose values are lists, that calls its first argument.
#[cycle(exprs)]
pub(crate) fn with_callback(
    world: &World<'_>,
    scene: &Scene<'_>,
    member: Member,
    t: Type,
    seen: Seen,
    arguments: &[BoundExpr],
) -> Result<Typing<Subject>, Memory>
    requires { IsSound world.now }
    ensures { IfOk result (λ end. SeesOn world.now scene.now seen end
        (λ p known c. callback_subject p known c member t (to_exprs (map expr_data arguments.now)))) }
{
    let Some((callback, further)) = arguments.split_first() else {
        return Ok(Typing::Nothing);
    };
    let (further, second) = match types_of(world, scene, further)? {
        Typing::Found(types, second) => (types, second),
        Typing::Nothing => return Ok(Typing::Nothing),
        Typing::Open(pending) => return Ok(Typing::Open(pending)),
    };
    if !is_list_type(&t) {
        return Ok(Typing::Nothing);
    }
    let item = items_of(world.alloc, &t)?;
    let Some(given) = given_to(world.alloc, member, &item, further.as_slice())? else {
        return Ok(Typing::Nothing);
    };
    match callback_answer(world, scene, callback, given.as_slice())? {
        Typing::Found(answer, third) => {
            let found = member_answer(world.alloc, member, t, item, further, answer)?;
            Ok(is(found, seen.and(second).and(third)))
        }
        Typing::Nothing => Ok(Typing::Nothing),
        Typing::Open(pending) => Ok(Typing::Open(pending)),
    }
}

// What a callback answers that gets this: a function that is no declaration, or a declared function.
#[cycle(exprs)]
fn callback_answer(
    world: &World<'_>,
    scene: &Scene<'_>,
    callback: &BoundExpr,
    given: &[Type],
) -> Result<Typing<Type>, Memory>
    requires { IsSound world.now }
    ensures { IfOk result (λ found. TypesAs (λ t. t) world.now scene.now found
        (λ p known c. rules.callback_answer p known c (Some (expr_data callback.now)) given.now)) }
{
    match shape_of(callback) {
        Shape::Arrow(number) => match world.program.functions().get(number as usize) {
            Some(function) => arrow_answer(world, scene, number, function, given),
            None => Ok(Typing::Nothing),
        },
        Shape::Name(target) => declared_answer(world, target, given),
        Shape::Undefined => Ok(Typing::Nothing),
        Shape::Unary(_, _) => Ok(Typing::Nothing),
        Shape::Chain(_, _) => Ok(Typing::Nothing),
        Shape::Other => Ok(Typing::Nothing),
    }
}

// What a function answers that stands as a callback, and what was seen in its body.
#[cycle(exprs)]
fn arrow_answer(
    world: &World<'_>,
    scene: &Scene<'_>,
    number: u32,
    function: &Function,
    given: &[Type],
) -> Result<Typing<Type>, Memory>
    requires sound { IsSound world.now }
    requires there { function_at (program_of world.now) number ≡ Some (function_data function.now) }
    ensures { IfOk result (λ found. TypesAs (λ t. t) world.now scene.now found
        (λ p known c. rules.arrow_answer p known number c given.now (Some (function_data function.now)))) }
{
    let (inner, first) = match callback_scene(world, scene, function, given)? {
        Finding::Found(inner, rank) => (inner, rank),
        Finding::Nothing => return Ok(Typing::Nothing),
        Finding::Open(pending) => return Ok(Typing::Open(pending)),
    };
    // More callbacks stand in one another than may be looked into.
    let Some(below) = below(world) else {
        return Ok(Typing::Nothing);
    };
    let inside = body(&below, &inner, &function.body)?;
    above_body(first, inside)
}
