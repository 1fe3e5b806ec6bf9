//! The bodies of functions.
ghost use Rattle.std.specs.Option.{option_copied};
ghost use Rattle.std.specs.Prelude.{IfOk, None};
ghost use Rattle.dscript_program.specs.Views.{body_data};
ghost use Rattle.dscript_types_exprs.specs.Bodies.{IsRightAs, WalkedAs};
ghost use Rattle.dscript_types_known.specs.Views.{finding_data};
ghost use Rattle.dscript_types_meaning.specs.Bodies as rules;
ghost use Rattle.dscript_types_notes.specs.Means.{IsSound};
ghost use Rattle.dscript_types_scenes.specs.Scenes.{FindsAs};
ghost use Rattle.dscript_types_scenes.specs.Statements.{note_of};

use crate::statements::{returned, stmts};
use bx_tree::Memory;
use dscript_ast::TypeNode;
use dscript_program::Body;
use dscript_types_notes::World;
use dscript_types_scenes::{Inside, Scene, Walk, inferred, may_end};

/// A walk over a body. The annotation is that of the function, which what is returned must fit.
#[cycle(exprs)]
pub(crate) fn walked(
    world: &World<'_>,
    scene: &Scene<'_>,
    note: Option<&TypeNode>,
    body: &Body,
) -> Result<Walk, Memory>
    requires { IsSound world.now }
    ensures { IfOk result (λ walk. WalkedAs world.now scene.now walk
        (λ p known c. rules.body_uses p known (note_of (option_copied note.entry)) c (body_data body.now))) }
{
    let mut walk = Walk::new(world.alloc);
    match body {
        Body::Expr(expr) => {
            returned(world, scene, note, expr, &mut walk)?;
            Ok(walk)
        }
        Body::Block(block) => {
            stmts(world, scene, note, block.as_slice(), &mut walk)?;
            Ok(walk)
        }
    }
}

/// What the body of a function without an annotation comes to.
#[cycle(exprs)]
pub(crate) fn body(world: &World<'_>, scene: &Scene<'_>, body: &Body) -> Result<Inside, Memory>
    requires { IsSound world.now }
    ensures answer { IfOk result (λ inside. FindsAs world.now scene.now (finding_data inside.answer)
        (λ p known c. rules.inferred p known c (body_data body.now))) }
    ensures right { IfOk result (λ inside. IsRightAs world.now scene.now inside.right
        (λ p known c. rules.body_uses p known None c (body_data body.now))) }
{
    let walk = walked(world, scene, None, body)?;
    Ok(Inside {
        answer: inferred(world.alloc, may_end(body), walk.returns)?,
        right: walk.right,
    })
}
