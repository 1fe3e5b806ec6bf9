//! The fields of object types.
ghost use Rattle.std.specs.Prelude.{◌≡◌, ◌++◌, IfOk, MatchOption, MatchResult, Some, None, filter_map, map};
ghost use Rattle.std.specs.List.{list_all};
ghost use Rattle.std.specs.Option.{option_map};
ghost use Rattle.dscript_types_data.specs.Places.{IsNewAt, ReplacesAt, option_when};
ghost use Rattle.dscript_types_data.specs.Views.{field_data, fields_now, member_data};
ghost use Rattle.dscript_types_meaning.specs.Fits as rules;
ghost use Rattle.dscript_types_meaning.specs.Objects as objects;
ghost use Rattle.dscript_types_meaning.specs.Types.{FieldData};

use crate::fitting::requires_field;
use crate::members::{is_object, is_undefined};
use crate::types::{Field, Member, Type};
use crate::unions::{join, join_all};
use bx_tree::{Memory, Text};
use std::alloc::Global;
use std::cmp::Ordering;

/// The field with a name.
pub fn field_named<'a>(fields: &'a [Field], name: &[u8]) -> Option<&'a Field>
    ensures { MatchOption result
        (rules.field_named (map field_data fields.now) name.now ≡ None)
        (λ field. rules.field_named (map field_data fields.now) name.now ≡ Some (field_data field.now)) }
{
    'fields: for field in fields {
        if field.name.bytes() == name {
            return Some(field);
        }
    }
    None
}

// The place of the field with the name of another, or the one before which the other belongs.
fn place_of(fields: &[Field], field: &Field) -> Result<usize, usize>
    ensures { MatchResult result
        (λ place. ReplacesAt (map field_data fields.now) (field_data field.now) place)
        (λ place. IsNewAt (map field_data fields.now) (field_data field.now) place) }
{
    'fields: for (place, other) in fields.iter().enumerate() {
        match field.name.bytes().cmp(other.name.bytes()) {
            Ordering::Less => return Err(place),
            Ordering::Equal => return Ok(place),
            Ordering::Greater => {}
        }
    }
    Err(fields.len())
}

/// Puts a field in the place of one with its name, or where its name belongs.
pub fn put_field(fields: &mut Vec<Field>, field: Field) -> Result<(), Memory>
    ensures { IfOk result (λ _. map field_data fields.new.items
        ≡ objects.put_field (map field_data fields.old.items) (field_data field)) }
{
    match place_of(fields.as_slice(), &field) {
        Ok(place) => fields[place] = field,
        Err(place) => fields.insert(place, field)?,
    }
    Ok(())
}

/// Puts fields among those before them, one after another.
pub fn put_fields(done: &mut Vec<Field>, fields: Vec<Field>) -> Result<(), Memory>
    ensures { IfOk result (λ _. map field_data done.new.items
        ≡ objects.put_fields (map field_data done.old.items) (map field_data fields.items)) }
{
    'fields: for field in fields {
        put_field(done, field)?;
    }
    Ok(())
}

// What two fields of one name come to, of which the second is written later and may be missing: none where the type of
// both is too large.
fn joined(alloc: Global, earlier: &Field, later: Field) -> Result<Option<Field>, Memory>
    ensures { IfOk result (λ f. option_map field_data f ≡ objects.joined (field_data earlier.now) (field_data later)) }
{
    let Some(t) = join(alloc, &earlier.type_data, &later.type_data)?.within_limit() else {
        return Ok(None);
    };
    Ok(Some(Field {
        name: later.name,
        optional: earlier.optional,
        type_data: t,
    }))
}

// What a field comes to that is written after these.
fn after_earlier(alloc: Global, done: &[Field], later: Field) -> Result<Option<Field>, Memory>
    ensures { IfOk result (λ f. option_map field_data f ≡ objects.after_earlier
        (rules.field_named (map field_data done.now) later.name) (field_data later)) }
{
    match field_named(done, later.name.bytes()) {
        Some(earlier) if later.optional => joined(alloc, earlier, later),
        _ => Ok(Some(later)),
    }
}

// Writes a field after those that are done. Whether it could be written.
fn write_field(alloc: Global, done: &mut Vec<Field>, field: Field) -> Result<bool, Memory>
    ensures { IfOk result (λ written. option_when written (map field_data done.new.items)
        ≡ objects.write_field (map field_data done.old.items) (field_data field)) }
{
    match after_earlier(alloc, done.as_slice(), field)? {
        Some(field) => {
            put_field(done, field)?;
            Ok(true)
        }
        None => Ok(false),
    }
}

/// Writes fields after those that are done: none where a type becomes too large.
pub fn write_fields(
    alloc: Global,
    done: Vec<Field>,
    fields: Vec<Field>,
) -> Result<Option<Vec<Field>>, Memory>
    ensures { IfOk result (λ all. option_map fields_now all
        ≡ objects.write_fields (map field_data done.items) (map field_data fields.items)) }
{
    let mut done = done;
    'fields: for field in fields {
        if !write_field(alloc, &mut done, field)? {
            return Ok(None);
        }
    }
    Ok(Some(done))
}

// The fields of a member.
fn fields_of(member: &Member) -> &[Field]
    ensures { map field_data result.now ≡ objects.fields_in (member_data member.now) }
{
    match member {
        Member::Objects(fields) => fields.items(),
        _ => &[],
    }
}

// Whether each of these members has the field and requires it.
fn all_require(members: &[Member], name: &[u8]) -> bool
    ensures { result ≡ list_all (λ m. rules.requires (objects.fields_in m) name.now) (map member_data members.now) }
{
    'members: for member in members {
        if !requires_field(fields_of(member), name) {
            return false;
        }
    }
    true
}

// The types of a field of the members that have it.
fn types_of_field(alloc: Global, members: &[Member], name: &[u8]) -> Result<Vec<Type>, Memory>
    ensures { IfOk result (λ types. types.items
        ≡ filter_map (objects.type_of_field name.now) (map member_data members.now)) }
{
    let mut types = Vec::new(alloc);
    'members: for member in members {
        if let Some(field) = field_named(fields_of(member), name) {
            types.push(field.type_data.share()?)?;
        }
    }
    Ok(types)
}

// The field of this name of a spread.
fn spread_field(alloc: Global, members: &[Member], name: &Text) -> Result<Field, Memory>
    ensures { IfOk result (λ f. field_data f ≡ objects.spread_field (map member_data members.now) name.now) }
{
    let types = types_of_field(alloc, members, name.bytes())?;
    Ok(Field {
        name: name.share()?,
        optional: !all_require(members, name.bytes()),
        type_data: join_all(alloc, types.as_slice())?,
    })
}

// Adds the fields of a spread that a member of it names.
fn add_spread(
    alloc: Global,
    members: &[Member],
    named: &[Field],
    added: &mut Vec<Field>,
) -> Result<(), Memory>
    ensures { IfOk result (λ _. map field_data added.new.items ≡ map field_data added.old.items
        ++ map (objects.spread_field (map member_data members.now)) (map (λ (f : FieldData). f.name) (map field_data named.now))) }
{
    'fields: for field in named {
        added.push(spread_field(alloc, members, &field.name)?)?;
    }
    Ok(())
}

// Whether each member may be spread: objects and undefined.
fn may_be_spread(members: &[Member]) -> bool
    ensures { result ≡ list_all objects.may_be_spread (map member_data members.now) }
{
    'members: for member in members {
        if !is_object(member) && !is_undefined(member) {
            return false;
        }
    }
    true
}

/// The fields that a value of the type adds where it is spread; none where it may be something else than an object or
/// undefined.
#[tactic(auto, unfolding(dscript_types_meaning::specs::Objects::spread_fields))]
pub fn spread_fields(alloc: Global, t: &Type) -> Result<Option<Vec<Field>>, Memory>
    ensures { IfOk result (λ fields. option_map fields_now fields ≡ objects.spread_fields t.now) }
{
    if !may_be_spread(t.members()) {
        return Ok(None);
    }
    let mut fields = Vec::new(alloc);
    'members: for member in t.members() {
        add_spread(alloc, t.members(), fields_of(member), &mut fields)?;
    }
    Ok(Some(fields))
}
