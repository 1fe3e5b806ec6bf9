//! A walk through a tree.

ghost use Rattle.std.specs.Prelude.{◌≡◌, ◌∷◌, IfOk, drop, map};
ghost use Rattle.std.specs.Option.{option_to_list};
ghost use Rattle.dscript_ast.specs.ExprTree.{no_parts, to_parts};
ghost use Rattle.dscript_ast.specs.Views.{part_tree};
ghost use Rattle.dscript_names_scopes.specs.Spaces.{site_data};
ghost use Rattle.dscript_names_binding.specs.Binding.{assigns, bind_name, local_named};
ghost use Rattle.dscript_names_binding.specs.Walk.{declare, next_local};
ghost use Rattle.dscript_names_binding.specs.Walked.{Walked, Walks};

use crate::scene::Scene;
use bx_tree::{Memory, Text};
use dscript_ast::PostfixPart;
use dscript_names_scopes::{Block, Found, Local, Scopes, Stop, found_at};
use dscript_program::{Function, Target};

/// Where a walk is, and what it has gathered.
#[derive(Drop)]
pub struct Walker {
    /// The blocks around.
    pub scopes: Scopes,
    /// How many locals of the declaration come before.
    pub locals: u32,
    /// The functions so far.
    pub functions: Vec<Function>,
    /// The locals that were named so far, each as often as it was named.
    pub names: Vec<u32>,
}

/// The local that is named, if it is one.
fn local_named(target: Target) -> Option<u32>
    ensures { option_to_list result ≡ local_named target }
{
    match target {
        Target::Local(number) => Some(number),
        _ => None,
    }
}

impl Walker {
    /// The next number of a local.
    pub(crate) fn next_local(&mut self) -> Result<u32, Stop>
        ensures { Walks (λ n. n) next_local self.old self.new result }
    {
        let number = self.locals;
        let Some(next) = number.checked_add(1) else {
            return Err(Stop::Memory);
        };
        self.locals = next;
        Ok(number)
    }

    /// Gives the local of the innermost block with this name its number.
    pub(crate) fn declare(&mut self, name: &Text, number: u32)
        ensures { Walked (λ n. n) (declare name.now number) self.old self.new number }
    {
        self.scopes.declare(name, number);
    }

    /// Enters a block that declares these locals.
    pub(crate) fn enter(&mut self, locals: Vec<Local>, is_body: bool) -> Result<(), Memory>
        ensures { IfOk result (λ _. self.new
            ≡ record self.old {
              scopes =
                  record { locals = locals.items; is_body = is_body } ∷ self.old.scopes;
            }) }
    {
        self.scopes.enter(Block { locals, is_body })
    }

    /// Leaves the innermost block.
    pub(crate) fn leave(&mut self)
        ensures { self.new ≡ record self.old { scopes = drop 1 self.old.scopes } }
    {
        self.scopes.leave();
    }

    /// The target of a name, with the parts after it.
    pub(crate) fn named(
        &mut self,
        scene: &Scene<'_>,
        name: &Text,
        parts: &[PostfixPart],
    ) -> Result<Found, Stop>
        ensures { Walks (λ f. f)
            (bind_name scene.now.world.now (site_data scene.now.site)
            name.now (to_parts (map part_tree parts.now)))
            self.old self.new result }
    {
        let found = found_at(
            scene.alloc,
            scene.world,
            &scene.site,
            &self.scopes,
            name,
            parts,
        )?;
        if let Some(number) = local_named(found.target) {
            self.names.push(number)?;
        }
        Ok(found)
    }

    /// The target of a name by itself.
    pub(crate) fn alone(&mut self, scene: &Scene<'_>, name: &Text) -> Result<Found, Stop>
        ensures { Walks (λ f. f)
            (bind_name scene.now.world.now (site_data scene.now.site) name.now no_parts)
            self.old self.new result }
    {
        self.named(scene, name, &[])
    }

    /// The number of the variable that an assignment is to.
    pub(crate) fn assigned(&self, name: &Text) -> Result<u32, Stop>
        ensures { Walks (λ n. n) (assigns name.now) self.now self.now result }
    {
        match self.scopes.assigned(name) {
            Ok(number) => Ok(number),
            Err(kind) => Err(Stop::Fault(kind)),
        }
    }
}
