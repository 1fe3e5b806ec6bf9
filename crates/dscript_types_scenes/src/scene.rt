//! Where expressions stand.
ghost use Rattle.std.specs.Prelude.{◌+◌, ◌≡◌, IfOk};
ghost use Rattle.dscript_program.specs.Views.{kind_data};
ghost use Rattle.dscript_types_known.specs.Views.{found_local};
ghost use Rattle.dscript_types_scenes.specs.Declarations.{IsPlaceOf, parameters_of};
ghost use Rattle.dscript_types_scenes.specs.Scenes.{IsBelow, IsSameScene, IsSceneWith};

use bx_tree::{Memory, Text};
use dscript_program::DeclKind;
use dscript_types_known::{Local, Locals};
use dscript_types_notes::{Place, World};
use std::alloc::{AllocError, Global};

/// Where an expression stands, with the locals that it sees.
#[derive(Drop)]
pub struct Scene<'a> {
    pub place: Place<'a>,
    pub locals: Locals,
}

impl<'a> Scene<'a> {
    /// The same, shared.
    pub fn share(&self) -> Result<Scene<'a>, Memory>
        ensures { IfOk result (λ scene. IsSameScene self.now scene) }
    {
        Ok(Scene {
            place: self.place,
            locals: self.locals.share()?,
        })
    }

    /// With another local, which takes the place of one of its number.
    pub fn with(&self, alloc: Global, number: u32, local: Local) -> Result<Scene<'a>, Memory>
        ensures { IfOk result (λ scene. IsSceneWith self.now number (found_local local) scene) }
    {
        Ok(Scene {
            place: self.place,
            locals: self.locals.with(alloc, number, local)?,
        })
    }
}

/// For the body of a callback, if there may be one.
pub fn below<'a>(world: &World<'a>) -> Option<World<'a>>
    ensures { IsBelow world.now result }
{
    if world.left == 0 {
        return None;
    }
    Some(World {
        alloc: world.alloc,
        program: world.program,
        names: world.names,
        table: world.table,
        left: world.left - 1,
    })
}

/// The number of the next local. More than can be counted are out of memory long before.
pub(crate) fn next_number(number: u32) -> Result<u32, Memory>
    ensures { IfOk result (λ next. next ≡ number + 1) }
{
    match number.checked_add(1) {
        Some(next) => Ok(next),
        None => Err(AllocError),
    }
}

/// Where what belongs to a declaration stands. Only the type parameters of functions hide names.
pub fn place_of<'a>(file: u32, around: &'a [Text], kind: &'a DeclKind) -> Place<'a>
    ensures { IsPlaceOf result file around.now (kind_data kind.now) }
{
    Place {
        file,
        around,
        parameters: parameters_of(kind),
    }
}

// The type parameters of a declaration that hide names.
fn parameters_of(kind: &DeclKind) -> &[Text]
    ensures { result.now ≡ parameters_of (kind_data kind.now) }
{
    match kind {
        DeclKind::Function(parameters, _, _) => parameters.as_slice(),
        DeclKind::Const(_, _) => &[],
        DeclKind::Interface(_, _, _) => &[],
        DeclKind::TypeAlias(_, _) => &[],
    }
}
