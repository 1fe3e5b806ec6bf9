//! Making objects: each name once, a later value in the earlier place.
ghost use Rattle.std.specs.Prelude.{◌≡◌, ◌<◌, [], Some, None, length, map, slice_set};
ghost use Rattle.std.specs.Prelude.{MatchOption, MatchResult, IfOk, OnOk};
ghost use Rattle.std.specs.Option.{option_map};
ghost use Rattle.std.specs.Rc.{rc_value};
ghost use Rattle.dscript_value.specs.Depths.{field_at, fields_value, greatest_depth, object_value};
ghost use Rattle.dscript_value.specs.Depths.{put_field, put_fields, values_of};
ghost use Rattle.dscript_value.specs.Places.{KeepPlaces, KeepsToo, MayKeepPlaces, first_place};
ghost use Rattle.dscript_value.specs.Plain.{Object, plain_field, plain_of};
ghost use Rattle.bx_tree.specs.TextTables.{at_text};

use crate::makers::{DepthFault, MAX_DEPTH, larger};
use crate::value::{Field, Fields, Value, field_name, has_name, value_of};
use std::alloc::{AllocError, Global};
use std::collections::BTreeMap;
use std::rc::Rc;

/// The place of each name.
pub(crate) type Places = BTreeMap<Vec<u8>, usize>;

/// An object that is written with more fields than this keeps the place of each name.
const MAX_FEW: usize = 8;

fn deepest_field(fields: &[Field]) -> u32
    ensures { result ≡ greatest_depth (values_of (map plain_field fields.now)) }
{
    let mut depth = 0;
    'fields: for field in fields {
        depth = larger(depth, value_of(field).depth());
    }
    depth
}

fn copy_name(alloc: Global, field: &Field) -> Result<Vec<u8>, AllocError>
    ensures { IfOk result (λ name. name.items ≡ (plain_field field.now).0) }
{
    field_name(field).to_vec(alloc)
}

fn place_of(places: &Places, name: &[u8]) -> Option<usize>
    ensures { result ≡ at_text places.now name.now }
{
    places.get(name).copied()
}

fn keep(places: &mut Places, name: Vec<u8>, place: usize) -> Result<(), AllocError>
    ensures { OnOk result (KeepsToo places.old places.new name.items place) }
{
    places.insert(name, place)?;
    Ok(())
}

fn put_at(fields: &mut Vec<Field>, place: usize, field: Field)
    requires { place < length fields.old.items }
    ensures { fields.new.items ≡ slice_set fields.old.items place field }
{
    fields[place] = field;
}

// Puts a field in the place of the one with its name, or last.
fn put(
    alloc: Global,
    fields: &mut Vec<Field>,
    places: &mut Places,
    field: Field,
) -> Result<(), AllocError>
    requires { KeepPlaces places.old (map plain_field fields.old.items) }
    ensures fields { IfOk result (λ _. map plain_field fields.new.items
        ≡ put_field (map plain_field fields.old.items) (plain_field field)) }
    ensures places { IfOk result (λ _. KeepPlaces places.new (map plain_field fields.new.items)) }
{
    match place_of(places, field_name(&field)) {
        Some(place) => put_at(fields, place, field),
        None => {
            keep(places, copy_name(alloc, &field)?, fields.len())?;
            fields.push(field)?;
        }
    }
    Ok(())
}

fn place_in(fields: &[Field], name: &[u8]) -> Option<usize>
    ensures { result ≡ first_place (map plain_field fields.now) name.now }
{
    'fields: for (place, field) in fields.iter().enumerate() {
        if has_name(field, name) {
            return Some(place);
        }
    }
    None
}

// Puts a field in the place of the one with its name, or last. Few fields are gone through.
fn put_in_few(fields: &mut Vec<Field>, field: Field) -> Result<(), AllocError>
    ensures { IfOk result (λ _. map plain_field fields.new.items
        ≡ put_field (map plain_field fields.old.items) (plain_field field)) }
{
    match place_in(fields.as_slice(), field_name(&field)) {
        Some(place) => put_at(fields, place, field),
        None => fields.push(field)?,
    }
    Ok(())
}

// An object of few fields, each name once.
fn few_fields(alloc: Global, fields: Vec<Field>) -> Result<Fields, DepthFault>
    ensures { MatchResult result
        (λ made. object_value (map plain_field fields.items) ≡ Some (Object made.depth made.members))
        (λ fault. fault ≡ DepthFault.TooDeep → object_value (map plain_field fields.items) ≡ None) }
{
    let mut done = Vec::new(alloc);
    'fields: for field in fields {
        put_in_few(&mut done, field)?;
    }
    with_depth(alloc, done, None)
}

// An object of many fields, each name once, which keeps the place of each name.
fn many_fields(alloc: Global, fields: Vec<Field>) -> Result<Fields, DepthFault>
    ensures { MatchResult result
        (λ made. object_value (map plain_field fields.items) ≡ Some (Object made.depth made.members))
        (λ fault. fault ≡ DepthFault.TooDeep → object_value (map plain_field fields.items) ≡ None) }
{
    let mut done = Vec::new(alloc);
    let mut places = BTreeMap::new(alloc);
    'fields: for field in fields {
        put(alloc, &mut done, &mut places, field)?;
    }
    with_depth(alloc, done, Some(Rc::new(alloc, places)?))
}

// The fields of an object with its depth. Each name is there once.
fn with_depth(
    alloc: Global,
    fields: Vec<Field>,
    places: Option<Rc<Places>>,
) -> Result<Fields, DepthFault>
    requires { MayKeepPlaces (option_map rc_value places) (map plain_field fields.items) }
    ensures { MatchResult result
        (λ made. fields_value (map plain_field fields.items) ≡ Some (Object made.depth made.members))
        (λ fault. fault ≡ DepthFault.TooDeep → fields_value (map plain_field fields.items) ≡ None) }
{
    let depth = deepest_field(fields.as_slice());
    if depth >= MAX_DEPTH {
        return Err(DepthFault::TooDeep);
    }
    Ok(Fields::new(alloc, depth + 1, fields, places)?)
}

/// The object of these fields, in the order in which they are written. A later field of one name takes
/// the place of the earlier.
pub fn object_of(alloc: Global, fields: Vec<Field>) -> Result<Value, DepthFault>
    ensures { MatchResult result
        (λ value. object_value (map plain_field fields.items) ≡ Some (plain_of value))
        (λ fault. fault ≡ DepthFault.TooDeep → object_value (map plain_field fields.items) ≡ None) }
{
    if fields.len() <= MAX_FEW {
        return Ok(Value::Object(few_fields(alloc, fields)?));
    }
    Ok(Value::Object(many_fields(alloc, fields)?))
}

// The field with a name, by its place.
pub(crate) fn find_placed<'a>(
    fields: &'a [Field],
    places: &Places,
    name: &[u8],
) -> Option<&'a Value>
    requires { KeepPlaces places.now (map plain_field fields.now) }
    ensures { MatchOption result
        (field_at (map plain_field fields.now) name.now ≡ None)
        (λ value. field_at (map plain_field fields.now) name.now ≡ Some (plain_of value.now)) }
{
    match place_of(places, name) {
        Some(place) => Some(value_of(&fields[place])),
        None => None,
    }
}

// The places, shared.
pub(crate) fn share_places(places: &Option<Rc<Places>>) -> Result<Option<Rc<Places>>, AllocError>
    ensures { IfOk result (λ copy. option_map rc_value copy ≡ option_map rc_value places.now) }
{
    match places {
        Some(places) => Ok(Some(places.clone()?)),
        None => Ok(None),
    }
}
