//! The locals that functions, callbacks and statements declare.
ghost use Rattle.std.specs.Option.{option_copied, option_map};
ghost use Rattle.std.specs.Prelude.{◌≡◌, IfOk, map};
ghost use Rattle.dscript_ast.specs.Views.{param_tree};
ghost use Rattle.dscript_program.specs.Views.{function_data};
ghost use Rattle.dscript_types_known.specs.Views.{finding_data, hold_data};
ghost use Rattle.dscript_types_meaning.specs.Bodies as rules;
ghost use Rattle.dscript_types_meaning.specs.Functions as functions;
ghost use Rattle.dscript_types_notes.specs.Means.{IsSound};
ghost use Rattle.dscript_types_scenes.specs.Declarations.{FindsLocals};
ghost use Rattle.dscript_types_scenes.specs.Functions.{FindsScene, HasCaptured, IsCaptured};
ghost use Rattle.dscript_types_scenes.specs.Scenes.{FindsAs};
ghost use Rattle.dscript_types_scenes.specs.Statements.{IsSceneAfter, loop_items, note_of};

use crate::found::{Typing, larger};
use crate::given::{declared_parameter, next_parameter, rest_of};
use crate::scene::{Scene, next_number};
use bx_tree::Memory;
use dscript_ast::{LoopKind, TypeNode};
use dscript_program::Function;
use dscript_types_data::{Type, is_list_type, items_of, undefined_type};
use dscript_types_known::{Finding, Hold, Local, Locals};
use dscript_types_notes::{Place, World, noted};
use std::alloc::Global;

/// The parameters of a declared function as locals.
pub fn function_locals(
    world: &World<'_>,
    place: &Place<'_>,
    function: &Function,
) -> Result<Locals, Memory>
    requires { IsSound world.now }
    ensures { IfOk result (λ locals. FindsLocals world.now place.now locals
        (λ p known c. functions.declared_locals p known c function.now.first_local
        (map param_tree function.now.params.items))) }
{
    let mut locals = Locals::new();
    let mut number = function.first_local;
    'params: for param in &function.params {
        let finding = declared_parameter(world, place, param)?;
        locals = locals.with(
            world.alloc,
            number,
            Local {
                finding,
                hold: Hold::Fixed,
            },
        )?;
        number = next_number(number)?;
    }
    Ok(locals)
}

/// Where the body of a callback stands: its parameters, and the locals that it captures.
pub fn callback_scene<'a>(
    world: &World<'_>,
    scene: &Scene<'a>,
    function: &Function,
    given: &[Type],
) -> Result<Finding<Scene<'a>>, Memory>
    requires { IsSound world.now }
    ensures { IfOk result (λ found. FindsScene world.now scene.now found
        (λ p known c. option_map (functions.callback_context c (function_data function.now))
        (functions.given_locals p known c function.now.first_local (map param_tree function.now.params.items) given.now))) }
{
    let mut locals = captured(world.alloc, scene, function.captured.as_slice())?;
    let mut rank = 0;
    let mut left = given;
    let mut number = function.first_local;
    'params: for param in &function.params {
        let (t, from) = match next_parameter(world, scene, param, left)? {
            Finding::Found(t, from) => (t, from),
            Finding::Nothing => return Ok(Finding::Nothing),
            Finding::Open(pending) => return Ok(Finding::Open(pending)),
        };
        locals = locals.with(
            world.alloc,
            number,
            Local {
                finding: Finding::Found(t, 0),
                hold: Hold::Fixed,
            },
        )?;
        rank = larger(rank, from);
        number = next_number(number)?;
        left = rest_of(left);
    }
    Ok(Finding::Found(
        Scene {
            place: scene.place,
            locals,
        },
        rank,
    ))
}

// The locals that a function captures, as they are in it.
fn captured(alloc: Global, scene: &Scene<'_>, numbers: &[u32]) -> Result<Locals, Memory>
    ensures { IfOk result (λ locals. IsCaptured scene.now numbers.now locals) }
{
    let mut locals = Locals::new();
    'captured: for number in numbers {
        locals = with_captured(alloc, scene, locals, *number)?;
    }
    Ok(locals)
}

// The locals with one that a function captures, as it is in it, if it is seen.
fn with_captured(
    alloc: Global,
    scene: &Scene<'_>,
    locals: Locals,
    number: u32,
) -> Result<Locals, Memory>
    ensures { IfOk result (λ new. HasCaptured scene.now number locals new) }
{
    match scene.locals.get(number) {
        Some(local) => locals.with(alloc, number, local.inside()?),
        None => Ok(locals),
    }
}

/// A local that a statement declares, by its number.
pub type Added = Option<(u32, Local)>;

/// The scene with a local that was declared, if one was.
pub fn with_added<'a>(alloc: Global, scene: Scene<'a>, added: Added) -> Result<Scene<'a>, Memory>
    ensures { IfOk result (λ new. IsSceneAfter scene.entry added new) }
{
    match added {
        Some((number, local)) => scene.with(alloc, number, local),
        None => Ok(scene),
    }
}

/// A variable without a value holds undefined too.
pub fn without_value(
    world: &World<'_>,
    scene: &Scene<'_>,
    note: Option<&TypeNode>,
) -> Result<Finding<Type>, Memory>
    requires { IsSound world.now }
    ensures { IfOk result (λ f. FindsAs world.now scene.now (finding_data f)
        (λ p known c. rules.type_without_value p known c (note_of (option_copied note.entry)))) }
{
    match note {
        Some(node) => noted(world, &scene.place, true, node),
        None => Ok(Finding::Found(undefined_type(world.alloc)?, 0)),
    }
}

/// How the variable of a loop holds an item.
pub fn loop_hold(kind: LoopKind) -> Hold
    ensures { hold_data result ≡ rules.hold_in_loop kind }
{
    match kind {
        LoopKind::Const => Hold::Fixed,
        LoopKind::Let => Hold::Variable,
    }
}

/// What is found of the items that a loop goes over.
pub fn loop_items(alloc: Global, found: Typing<Type>) -> Result<Finding<Type>, Memory>
    ensures { IfOk result (λ f. finding_data f ≡ loop_items found) }
{
    match found {
        Typing::Found(t, seen) => {
            if is_list_type(&t) {
                Ok(Finding::Found(items_of(alloc, &t)?, seen.rank))
            } else {
                Ok(Finding::Nothing)
            }
        }
        Typing::Nothing => Ok(Finding::Nothing),
        Typing::Open(pending) => Ok(Finding::Open(pending)),
    }
}
