//! Lists and objects.
ghost use Rattle.std.specs.Prelude.{◌≡◌, IfOk, map};
ghost use Rattle.dscript_program.specs.BoundTree as tree;
ghost use Rattle.dscript_program.specs.BoundTree.{more_props, no_props, to_elements, to_props};
ghost use Rattle.dscript_program.specs.Views.{element_data, expr_data, prop_data};
ghost use Rattle.dscript_types_data.specs.Views.{fields_now};
ghost use Rattle.dscript_types_exprs.specs.Parts.{item_type, items_now, property_fields, with_property};
ghost use Rattle.dscript_types_meaning.specs.Expressions as rules;
ghost use Rattle.dscript_types_notes.specs.Means.{IsSound};
ghost use Rattle.dscript_types_scenes.specs.Scenes.{TypesAs};
ghost use Rattle.dscript_types_scenes.specs.Typings.{subject_data};

use crate::exprs::type_of;
use bx_tree::{Memory, Text};
use dscript_program::{BoundElement, BoundExpr, BoundProp};
use dscript_types_data::{
    Field, Type, is_list_type, items_of, join_all, put_field, spread_fields, write_fields,
};
use dscript_types_meaning::MAX_TYPE_NODES;
use dscript_types_notes::World;
use dscript_types_scenes::{Scene, Seen, Subject, Typing, element_parts, is, named, only, whole};

/// A list: its items have the union of the types of all.
#[cycle(exprs)]
pub(crate) fn list(
    world: &World<'_>,
    scene: &Scene<'_>,
    elements: &[BoundElement],
) -> Result<Typing<Subject>, Memory>
    requires { IsSound world.now }
    ensures { IfOk result (λ found. TypesAs subject_data world.now scene.now found
        (λ p known c. rules.subject p known c (tree.Elements (to_elements (map element_data elements.now))))) }
{
    match items(world, scene, elements)? {
        Typing::Found(types, seen) => {
            let item = join_all(world.alloc, types.as_slice())?;
            Ok(is(Type::list_of(world.alloc, item)?.within_limit(), seen))
        }
        Typing::Nothing => Ok(Typing::Nothing),
        Typing::Open(pending) => Ok(Typing::Open(pending)),
    }
}

// An item of a list, or the items of a list that is spread.
#[cycle(exprs)]
fn item(
    world: &World<'_>,
    scene: &Scene<'_>,
    spread: bool,
    value: &BoundExpr,
) -> Result<Typing<Type>, Memory>
    requires { IsSound world.now }
    ensures { IfOk result (λ found. TypesAs (λ t. t) world.now scene.now found
        (λ p known c. item_type p known c spread (expr_data value.now))) }
{
    match type_of(world, scene, value)? {
        Typing::Found(t, seen) => {
            if !spread {
                return Ok(Typing::Found(t, seen));
            }
            if !is_list_type(&t) {
                return Ok(Typing::Nothing);
            }
            Ok(Typing::Found(items_of(world.alloc, &t)?, seen))
        }
        Typing::Nothing => Ok(Typing::Nothing),
        Typing::Open(pending) => Ok(Typing::Open(pending)),
    }
}

// The types of items.
#[cycle(exprs)]
fn items(
    world: &World<'_>,
    scene: &Scene<'_>,
    elements: &[BoundElement],
) -> Result<Typing<Vec<Type>>, Memory>
    requires { IsSound world.now }
    ensures { IfOk result (λ found. TypesAs items_now world.now scene.now found
        (λ p known c. rules.items p known c (to_elements (map element_data elements.now)))) }
{
    let mut types = Vec::new(world.alloc);
    let mut seen = Seen::from_rank(0);
    'elements: for element in elements {
        let (spread, value) = element_parts(element);
        match item(world, scene, spread, value)? {
            Typing::Found(t, further) => {
                types.push(t)?;
                seen = seen.and(further);
            }
            Typing::Nothing => return Ok(Typing::Nothing),
            Typing::Open(pending) => return Ok(Typing::Open(pending)),
        }
    }
    Ok(Typing::Found(types, seen))
}

/// An object, by its fields one after another. With more fields than nodes are allowed it is too large in any case.
#[cycle(exprs)]
pub(crate) fn object(
    world: &World<'_>,
    scene: &Scene<'_>,
    props: &[BoundProp],
) -> Result<Typing<Subject>, Memory>
    requires { IsSound world.now }
    ensures { IfOk result (λ found. TypesAs subject_data world.now scene.now found
        (λ p known c. rules.subject p known c (tree.Object (to_props (map prop_data props.now))))) }
{
    let mut done = Vec::new(world.alloc);
    let mut seen = Seen::from_rank(0);
    'props: for prop in props {
        match property(world, scene, done, prop)? {
            Typing::Found(fields, further) => {
                done = fields;
                seen = seen.and(further);
            }
            Typing::Nothing => return Ok(Typing::Nothing),
            Typing::Open(pending) => return Ok(Typing::Open(pending)),
        }
        if done.len() > MAX_TYPE_NODES as usize {
            return Ok(Typing::Nothing);
        }
    }
    Ok(is(Type::object_of(world.alloc, done)?.within_limit(), seen))
}

// The fields after a property.
#[cycle(exprs)]
fn property(
    world: &World<'_>,
    scene: &Scene<'_>,
    done: Vec<Field>,
    prop: &BoundProp,
) -> Result<Typing<Vec<Field>>, Memory>
    requires { IsSound world.now }
    ensures { IfOk result (λ found. TypesAs fields_now world.now scene.now found
        (λ p known c. rules.fields p known c (more_props (prop_data prop.now) no_props) (fields_now done))) }
{
    match prop {
        BoundProp::Named(name, value) => holding(done, name, type_of(world, scene, value)?),
        BoundProp::Quoted(name, value) => holding(done, name, type_of(world, scene, value)?),
        BoundProp::Short(name, target) => holding(
            done,
            name,
            whole(world, named(world, scene, *target)?)?,
        ),
        BoundProp::Spread(value) => match type_of(world, scene, value)? {
            Typing::Found(t, seen) => match spread_fields(world.alloc, &t)? {
                Some(fields) => Ok(only(write_fields(world.alloc, done, fields)?, seen)),
                None => Ok(Typing::Nothing),
            },
            Typing::Nothing => Ok(Typing::Nothing),
            Typing::Open(pending) => Ok(Typing::Open(pending)),
        },
    }
}

// The fields and one that holds a value.
fn holding(done: Vec<Field>, name: &Text, found: Typing<Type>) -> Result<Typing<Vec<Field>>, Memory>
    ensures { IfOk result (λ fields. property_fields fields ≡ with_property (fields_now done) name.now found) }
{
    match found {
        Typing::Found(t, seen) => {
            let mut done = done;
            put_field(
                &mut done,
                Field {
                    name: name.share()?,
                    optional: false,
                    type_data: t,
                },
            )?;
            Ok(Typing::Found(done, seen))
        }
        Typing::Nothing => Ok(Typing::Nothing),
        Typing::Open(pending) => Ok(Typing::Open(pending)),
    }
}
