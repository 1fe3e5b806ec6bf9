//! What names come to.
ghost use Rattle.std.specs.Prelude.{IfOk};
ghost use Rattle.dscript_program.specs.declared.target.Target.TheVariants as targets;
ghost use Rattle.dscript_types_meaning.specs.Expressions as rules;
ghost use Rattle.dscript_types_notes.specs.Means.{IsSound};
ghost use Rattle.dscript_types_notes.specs.declared.world.World.{World as AnyWorld};
ghost use Rattle.dscript_types_scenes.specs.Scenes.{TypesAs};
ghost use Rattle.dscript_types_scenes.specs.Typings.{subject_data};
ghost use Rattle.dscript_types_scenes.specs.declared.scene.Scene.{Scene as AnyScene};

use crate::found::{Seen, Subject, Typing};
use crate::scene::Scene;
use crate::subjects::as_subject;
use bx_tree::Memory;
use dscript_program::{DeclKind, Target};
use dscript_types_notes::World;

/// What a name comes to.
pub fn named(
    world: &World<'_>,
    scene: &Scene<'_>,
    target: Target,
) -> Result<Typing<Subject>, Memory>
    requires { IsSound world.now }
    ensures { IfOk result (λ found. TypesAs subject_data world.now scene.now found
        (λ p known c. rules.named p known c target)) }
{
    match target {
        Target::Local(number) => local(scene, number),
        Target::Declared { file, decl } => declared(world, file, decl),
        Target::Ambient(call) => Ok(Typing::Found(Subject::Ambient(call), Seen::from_rank(0))),
    }
}

fn local(scene: &Scene<'_>, number: u32) -> Result<Typing<Subject>, Memory>
    ensures { IfOk result (λ found. (w : AnyWorld) → TypesAs subject_data w scene.now found
        (λ p known c. rules.named p known c (targets.Local number))) }
{
    match scene.locals.get(number) {
        Some(local) => Ok(as_subject(local.finding.share()?)),
        None => Ok(Typing::Nothing),
    }
}

// A constant has the type that is known of it, and a declared type is no value.
fn declared(world: &World<'_>, file: u32, decl: u32) -> Result<Typing<Subject>, Memory>
    requires { IsSound world.now }
    ensures { IfOk result (λ found. (scene : AnyScene) → TypesAs subject_data world.now scene found
        (λ p known c. rules.named p known c (targets.Declared file decl))) }
{
    let Some(declaration) = world.decl(file, decl) else {
        return Ok(Typing::Nothing);
    };
    match &declaration.kind {
        DeclKind::Const(_, _) => Ok(as_subject(world.table.get(file, decl)?)),
        DeclKind::Function(_, _, _) => Ok(Typing::Found(
            Subject::Function { file, decl },
            Seen::from_rank(0),
        )),
        DeclKind::Interface(_, _, _) => Ok(Typing::Nothing),
        DeclKind::TypeAlias(_, _) => Ok(Typing::Nothing),
    }
}
