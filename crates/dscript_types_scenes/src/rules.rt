//! Whether expressions meet the rules of their places.
ghost use Rattle.std.specs.Option.{option_copied};
ghost use Rattle.std.specs.Prelude.{◌≡◌, IfOk, Some};
ghost use Rattle.dscript_ast.specs.Views.{type_tree};
ghost use Rattle.dscript_types_known.specs.Views.{finding_data, found_local, locals_at};
ghost use Rattle.dscript_types_meaning.specs.Bodies as rules;
ghost use Rattle.dscript_types_notes.specs.Means.{IsSound};
ghost use Rattle.dscript_types_scenes.specs.Statements.{MeetsAs, fitting, fitting_held, found_fitting, loop_rule, note_of};
ghost use Rattle.dscript_types_scenes.specs.Statements.{variable_rule};
ghost use Rattle.dscript_types_scenes.specs.Walks.{RulesAs};

use crate::found::Typing;
use crate::scene::Scene;
use crate::walk::Rule;
use bx_tree::Memory;
use dscript_ast::TypeNode;
use dscript_types_data::{Type, fits, is_list_type};
use dscript_types_known::{Finding, Hold, Local};
use dscript_types_notes::{World, meaning};

/// A value fits its annotation, if there is one.
pub fn fits_note(
    world: &World<'_>,
    scene: &Scene<'_>,
    found: &Typing<Type>,
    note: Option<&TypeNode>,
) -> Result<Rule, Memory>
    requires { IsSound world.now }
    ensures { IfOk result (λ rule. RulesAs world.now scene.now found.now rule
        (λ p known c t. rules.fits_note p known c t (note_of (option_copied note.entry)))) }
{
    match found {
        Typing::Found(t, _) => match note {
            Some(node) => note_rule(world, scene, t, node),
            None => Ok(Rule::Met(0)),
        },
        Typing::Nothing => Ok(Rule::Met(0)),
        Typing::Open(_) => Ok(Rule::Met(0)),
    }
}

// Whether a type fits an annotation.
fn note_rule(
    world: &World<'_>,
    scene: &Scene<'_>,
    t: &Type,
    node: &TypeNode,
) -> Result<Rule, Memory>
    requires { IsSound world.now }
    ensures { IfOk result (λ rule. MeetsAs world.now scene.now rule
        (λ p known c. rules.fits_note p known c t.now (Some (type_tree node.now)))) }
{
    let meant = meaning(world, &scene.place, node)?;
    Ok(meaning_fit(t, &meant))
}

/// Whether a value fits the meaning of its annotation.
pub fn fit_of(found: &Typing<Type>, meant: &Finding<Type>) -> Rule
    ensures { result ≡ found_fitting found.now (finding_data meant.now) }
{
    match found {
        Typing::Found(t, _) => meaning_fit(t, meant),
        Typing::Nothing => Rule::Met(0),
        Typing::Open(_) => Rule::Met(0),
    }
}

// Whether a type fits the meaning of an annotation.
fn meaning_fit(t: &Type, meant: &Finding<Type>) -> Rule
    ensures { result ≡ fitting (finding_data meant.now) t.now }
{
    match meant {
        Finding::Found(u, rank) => {
            if fits(t, u) {
                Rule::Met(*rank)
            } else {
                Rule::NotMet
            }
        }
        Finding::Nothing => Rule::NotMet,
        Finding::Open(_) => Rule::NotMet,
    }
}

/// Whether a value fits the variable of a number.
pub fn fits_variable(scene: &Scene<'_>, number: u32, found: &Typing<Type>) -> Rule
    ensures { result ≡ variable_rule (locals_at scene.now.locals number) found.now }
{
    match scene.locals.get(number) {
        None => Rule::NotMet,
        Some(local) => match found {
            Typing::Found(t, _) => variable_rule(local, t),
            Typing::Nothing => Rule::NotMet,
            Typing::Open(_) => Rule::NotMet,
        },
    }
}

// Whether a type fits the variable of a local.
fn variable_rule(local: &Local, t: &Type) -> Rule
    ensures { result ≡ fitting_held (found_local local.now).hold (found_local local.now).type_data t.now }
{
    match local.hold {
        Hold::Fixed => Rule::NotMet,
        Hold::Captured => Rule::NotMet,
        Hold::Variable => match &local.finding {
            Finding::Found(u, rank) => {
                if fits(t, u) {
                    Rule::Met(*rank)
                } else {
                    Rule::NotMet
                }
            }
            Finding::Nothing => Rule::NotMet,
            Finding::Open(_) => Rule::NotMet,
        },
    }
}

/// Whether what a loop goes over is a list.
pub fn loop_rule(found: &Typing<Type>) -> Rule
    ensures { result ≡ loop_rule found.now }
{
    match found {
        Typing::Found(t, _) => {
            if is_list_type(t) {
                Rule::Met(0)
            } else {
                Rule::NotMet
            }
        }
        Typing::Nothing => Rule::NotMet,
        Typing::Open(_) => Rule::NotMet,
    }
}
