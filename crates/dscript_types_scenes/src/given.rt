//! What functions are given, and what their parameters take.
ghost use Rattle.std.specs.Prelude.{◌∷◌, ◌≡◌, [], IfOk, map};
ghost use Rattle.dscript_ast.specs.Views.{note_tree, param_tree};
ghost use Rattle.dscript_sdk_members.specs.declared.member.Member.TheVariants as members;
ghost use Rattle.dscript_types_known.specs.Views.{finding_data};
ghost use Rattle.dscript_types_meaning.specs.Fits.{fits};
ghost use Rattle.dscript_types_meaning.specs.Functions as rules;
ghost use Rattle.dscript_types_meaning.specs.Operators.{number_type};
ghost use Rattle.dscript_types_meaning.specs.Sizes.{within_limit};
ghost use Rattle.dscript_types_meaning.specs.Unions.{if_optional, undefined_type};
ghost use Rattle.dscript_types_notes.specs.Means.{IsSound, Says, found_if};
ghost use Rattle.dscript_types_scenes.specs.Functions.{taken, types_in};
ghost use Rattle.dscript_types_scenes.specs.Scenes.{FindsAs};
ghost use Rattle.dscript_types_scenes.specs.Walks.{finding_types};

use crate::found::larger;
use crate::nodes::note_of;
use crate::scene::Scene;
use bx_tree::Memory;
use dscript_ast::Param;
use dscript_sdk_members::Member;
use dscript_types_data::{Type, fits, if_optional, undefined_type};
use dscript_types_known::Finding;
use dscript_types_meaning::Kind;
use dscript_types_notes::{Place, World, noted};
use std::alloc::Global;

// An item and its number.
fn item_and_number(alloc: Global, item: &Type) -> Result<Vec<Type>, Memory>
    ensures { IfOk result (λ given. given.items ≡ item.now ∷ number_type ∷ []) }
{
    Ok(vec![in alloc; item.share()?, Type::of_kind(alloc, Kind::Number)?]?)
}

// What the callback of a reduction gets: what has come so far, an item and its number.
fn reduction_gets(alloc: Global, item: &Type, further: &[Type]) -> Result<Option<Vec<Type>>, Memory>
    ensures { IfOk result (λ given. types_in given ≡ rules.given_to members.Reduce item.now further.now) }
{
    let Some((start, _)) = further.split_first() else {
        return Ok(None);
    };
    Ok(Some(vec![in alloc;
        start.share()?,
        item.share()?,
        Type::of_kind(alloc, Kind::Number)?,
    ]?))
}

/// What a callback gets: an item and its number, after what has come so far in a reduction.
pub fn given_to(
    alloc: Global,
    member: Member,
    item: &Type,
    further: &[Type],
) -> Result<Option<Vec<Type>>, Memory>
    ensures { IfOk result (λ given. types_in given ≡ rules.given_to member item.now further.now) }
{
    match member {
        Member::Reduce => reduction_gets(alloc, item, further),
        _ => Ok(Some(item_and_number(alloc, item)?)),
    }
}

/// What is given after the first.
pub(crate) fn rest_of(given: &[Type]) -> &[Type]
    ensures { result.now ≡ rules.rest_of given.now }
{
    match given.split_first() {
        Some((_, rest)) => rest,
        None => given,
    }
}

// Whether the first of what is given fits a type, or undefined where nothing is given.
fn first_fits(undefined: &Type, given: &[Type], t: &Type) -> bool
    requires { undefined.now ≡ undefined_type }
    ensures { result ≡ fits (rules.first_or_undefined given.now) t.now }
{
    match given.split_first() {
        Some((g, _)) => fits(g, t),
        None => fits(undefined, t),
    }
}

/// Each parameter gets what is given, or undefined where nothing is.
pub(crate) fn parameters_fit(alloc: Global, types: &[Type], given: &[Type]) -> Result<bool, Memory>
    ensures { IfOk result (λ fit. fit ≡ rules.parameters_fit types.now given.now) }
{
    let undefined = undefined_type(alloc)?;
    let mut left = types;
    let mut right = given;
    'parameters: while let Some((t, more)) = left.split_first() {
        if !first_fits(&undefined, right, t) {
            return Ok(false);
        }
        left = more;
        right = rest_of(right);
    }
    Ok(true)
}

/// The type of a parameter of a declared function: without an annotation it has none.
pub(crate) fn declared_parameter(
    world: &World<'_>,
    place: &Place<'_>,
    param: &Param,
) -> Result<Finding<Type>, Memory>
    requires { IsSound world.now }
    ensures { IfOk result (λ f. Says world.now place.now (finding_data f)
        (λ p known c. rules.declared_parameter p known c (param_tree param.now))) }
{
    match note_of(&param.type_node) {
        Some(node) => noted(world, place, param.optional, node),
        None => Ok(Finding::Nothing),
    }
}

/// The types of all parameters of a declared function, if each has one.
pub(crate) fn parameter_types(
    world: &World<'_>,
    place: &Place<'_>,
    params: &[Param],
) -> Result<Finding<Vec<Type>>, Memory>
    requires { IsSound world.now }
    ensures { IfOk result (λ f. Says world.now place.now (finding_types f)
        (λ p known c. rules.all_parameters p known c (map param_tree params.now))) }
{
    let mut types = Vec::with_capacity(world.alloc, params.len())?;
    let mut rank = 0;
    'params: for param in params {
        match declared_parameter(world, place, param)? {
            Finding::Found(t, from) => {
                types.push(t)?;
                rank = larger(rank, from);
            }
            Finding::Nothing => return Ok(Finding::Nothing),
            Finding::Open(pending) => return Ok(Finding::Open(pending)),
        }
    }
    Ok(Finding::Found(types, rank))
}

/// A parameter of a callback, which gets the first of what is given, or undefined.
pub(crate) fn next_parameter(
    world: &World<'_>,
    scene: &Scene<'_>,
    param: &Param,
    given: &[Type],
) -> Result<Finding<Type>, Memory>
    requires { IsSound world.now }
    ensures { IfOk result (λ f. FindsAs world.now scene.now (finding_data f)
        (λ p known c. rules.given_parameter p known c (param_tree param.now) (rules.first_or_undefined given.now)
        (note_tree param.now.type_node))) }
{
    let first = first_given(world.alloc, given)?;
    given_parameter(world, scene, param, &first)
}

// The first of what is given, or undefined.
fn first_given(alloc: Global, given: &[Type]) -> Result<Type, Memory>
    ensures { IfOk result (λ t. t ≡ rules.first_or_undefined given.now) }
{
    match given.split_first() {
        Some((g, _)) => g.share(),
        None => undefined_type(alloc),
    }
}

// A parameter without an annotation has the type of what it gets; one with an annotation must take it.
fn given_parameter(
    world: &World<'_>,
    scene: &Scene<'_>,
    param: &Param,
    given: &Type,
) -> Result<Finding<Type>, Memory>
    requires { IsSound world.now }
    ensures { IfOk result (λ f. FindsAs world.now scene.now (finding_data f)
        (λ p known c. rules.given_parameter p known c (param_tree param.now) given.now (note_tree param.now.type_node))) }
{
    match note_of(&param.type_node) {
        None => plain_parameter(world.alloc, param.optional, given),
        Some(node) => taken(given, noted(world, &scene.place, param.optional, node)?),
    }
}

// The type of what a parameter gets, with undefined where it is optional.
fn plain_parameter(alloc: Global, optional: bool, given: &Type) -> Result<Finding<Type>, Memory>
    ensures { IfOk result (λ f. finding_data f ≡ found_if (within_limit (if_optional optional given.now)) 0) }
{
    match if_optional(alloc, optional, given)?.within_limit() {
        Some(t) => Ok(Finding::Found(t, 0)),
        None => Ok(Finding::Nothing),
    }
}

// What is found of an annotation, where what is given fits it.
fn taken(given: &Type, found: Finding<Type>) -> Result<Finding<Type>, Memory>
    ensures { IfOk result (λ f. finding_data f ≡ taken given.now (finding_data found)) }
{
    match found {
        Finding::Found(t, rank) => {
            if fits(given, &t) {
                Ok(Finding::Found(t, rank))
            } else {
                Ok(Finding::Nothing)
            }
        }
        Finding::Nothing => Ok(Finding::Nothing),
        Finding::Open(pending) => Ok(Finding::Open(pending)),
    }
}
