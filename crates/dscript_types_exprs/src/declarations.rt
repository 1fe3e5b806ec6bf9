//! What declarations come to.
ghost use Rattle.std.specs.Option.{option_copied};
ghost use Rattle.std.specs.Prelude.{◌≡◌, ℕ, [], IfOk, Some};
ghost use Rattle.dscript_program.specs.Views.{body_data, decl_data, expr_data, function_data};
ghost use Rattle.dscript_types_exprs.specs.Bodies.{DeclIsRight, IsRightIn, in_function};
ghost use Rattle.dscript_types_exprs.specs.Statements.{use_of};
ghost use Rattle.dscript_types_known.specs.Tables.{ask_of};
ghost use Rattle.dscript_types_known.specs.Views.{finding_data};
ghost use Rattle.dscript_types_meaning.specs.Bodies as rules;
ghost use Rattle.dscript_types_meaning.specs.Lookups.{decl_at};
ghost use Rattle.dscript_types_meaning.specs.Typed.{found};
ghost use Rattle.dscript_types_notes.specs.Means.{IsSound, Says, program_of};
ghost use Rattle.dscript_types_scenes.specs.Scenes.{FindsAnywhere};
ghost use Rattle.dscript_types_scenes.specs.Statements.{note_of};

use crate::bodies::{body, walked};
use crate::exprs::type_of;
use crate::statements::declared;
use bx_tree::Memory;
use dscript_ast::TypeNode;
use dscript_program::{BoundDecl, BoundExpr, DeclKind, Function};
use dscript_types_data::Type;
use dscript_types_known::{Finding, Locals};
use dscript_types_notes::{Place, World, declared_type, meaning, names_around};
use dscript_types_scenes::{Scene, Walk, annotated, function_locals, note_of, place_of};

// The type of a constant, from its annotation or its value.
fn constant_type(
    world: &World<'_>,
    place: Place<'_>,
    note: Option<&TypeNode>,
    value: &BoundExpr,
) -> Result<Finding<Type>, Memory>
    requires { IsSound world.now }
    ensures { IfOk result (λ f. Says world.now place.entry (finding_data f)
        (λ p known c. rules.type_of_value p known (record c { locals = [] }) (expr_data value.now)
        (note_of (option_copied note.entry)))) }
{
    let scene = Scene {
        place,
        locals: Locals::new(),
    };
    match note {
        Some(node) => meaning(world, &scene.place, node),
        None => Ok(type_of(world, &scene, value)?.finding()),
    }
}

// What a declared function answers.
fn answer_type(
    world: &World<'_>,
    place: Place<'_>,
    note: Option<&TypeNode>,
    function: &Function,
) -> Result<Finding<Type>, Memory>
    requires { IsSound world.now }
    ensures { IfOk result (λ f. Says world.now place.entry (finding_data f)
        (λ p known c. rules.answered p known (in_function p known c (function_data function.now))
        (body_data function.now.body) (note_of (option_copied note.entry)))) }
{
    let Some(node) = note else {
        let locals = function_locals(world, &place, function)?;
        let scene = Scene { place, locals };
        let inside = body(world, &scene, &function.body)?;
        return Ok(inside.answer);
    };
    match meaning(world, &place, node)? {
        Finding::Found(t, rank) => annotated(world.alloc, &function.body, t, rank),
        Finding::Nothing => Ok(Finding::Nothing),
        Finding::Open(pending) => Ok(Finding::Open(pending)),
    }
}

/// What is found of a declaration where what is in the table is known.
pub fn look(world: &World<'_>, file: u32, decl: &BoundDecl) -> Result<Finding<Type>, Memory>
    requires { IsSound world.now }
    ensures { IfOk result (λ f. (number : ℕ)
        → decl_at (program_of world.now) file number ≡ Some (decl_data decl.now)
        → FindsAnywhere world.now (finding_data f)
        (λ p known. found p known (ask_of file number (decl_data decl.now).kind))) }
{
    let around = names_around(world.alloc, decl)?;
    let place = place_of(file, around.as_slice(), &decl.kind);
    match &decl.kind {
        DeclKind::Const(note, value) => constant_type(world, place, note_of(note), value),
        DeclKind::Function(_, note, number) => match world
            .program
            .functions()
            .get(*number as usize)
        {
            Some(function) => answer_type(world, place, note_of(note), function),
            None => Ok(Finding::Nothing),
        },
        DeclKind::Interface(_, _, _) => declared_type(world, &place, &decl.kind),
        DeclKind::TypeAlias(_, _) => declared_type(world, &place, &decl.kind),
    }
}

// From which number on the value of a constant has a type that fits its annotation.
fn constant_is_right(
    world: &World<'_>,
    place: Place<'_>,
    note: Option<&TypeNode>,
    value: &BoundExpr,
) -> Result<Option<u64>, Memory>
    requires { IsSound world.now }
    ensures { IfOk result (λ right. IsRightIn world.now place.entry right
        (λ p known c. use_of c (rules.Declared (note_of (option_copied note.entry))) (expr_data value.now))) }
{
    let scene = Scene {
        place,
        locals: Locals::new(),
    };
    let mut walk = Walk::new(world.alloc);
    let _ = declared(world, &scene, note, value, &mut walk)?;
    Ok(walk.right)
}

/// From which number on each expression of a declaration has a type where so many declarations may be looked into, if each
/// has one at all.
pub fn is_right(world: &World<'_>, file: u32, decl: &BoundDecl) -> Result<Option<u64>, Memory>
    requires { IsSound world.now }
    ensures { IfOk result (λ right. DeclIsRight world.now file (decl_data decl.now) right) }
{
    let around = names_around(world.alloc, decl)?;
    let place = place_of(file, around.as_slice(), &decl.kind);
    match &decl.kind {
        DeclKind::Const(note, value) => constant_is_right(world, place, note_of(note), value),
        DeclKind::Function(_, note, number) => match world
            .program
            .functions()
            .get(*number as usize)
        {
            Some(function) => {
                let locals = function_locals(world, &place, function)?;
                let scene = Scene { place, locals };
                Ok(walked(world, &scene, note_of(note), &function.body)?.right)
            }
            None => Ok(Some(0)),
        },
        DeclKind::Interface(_, _, _) => Ok(Some(0)),
        DeclKind::TypeAlias(_, _) => Ok(Some(0)),
    }
}
