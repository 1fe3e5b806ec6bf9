//! Members that are no functions, and indices.
ghost use Rattle.std.specs.Prelude.{◌≡◌, IfOk, filter, map, not};
ghost use Rattle.std.specs.Option.{option_copied, option_map};
ghost use Rattle.dscript_types_data.specs.Views.{field_data, member_data};
ghost use Rattle.dscript_types_meaning.specs.Access as rules;
ghost use Rattle.dscript_types_meaning.specs.Types.{FieldData, kind_type, members_of};
ghost use Rattle.dscript_types_meaning.specs.declared.kind.Kind.TheVariants as kinds;
ghost use Rattle.dscript_types_meaning.specs.Unions as unions;
ghost use Rattle.dscript_types_rows.specs.Rows.{row_of};

use crate::operators::{is_number, is_text, of_kind_if};
use bx_tree::Memory;
use dscript_sdk_members::Member as ValueMember;
use dscript_types_data::{
    Field, Member, Type, can_be_list, field_named, if_optional, is_list, items_of, join, join_all,
    undefined_type, with_undefined,
};
use dscript_types_meaning::Kind;
use std::alloc::Global;

// The members of a type that are no lists.
fn without_lists(alloc: Global, t: &Type) -> Result<Vec<Member>, Memory>
    ensures { IfOk result (λ members. map member_data members.items
        ≡ filter (λ m. not (unions.is_list m)) (members_of t.now)) }
{
    let mut members = Vec::new(alloc);
    'members: for member in t.members() {
        if !is_list(member) {
            members.push(member.share()?)?;
        }
    }
    Ok(members)
}

/// The members of a type at which a member of values is taken. Its lists count as one list of all their items.
pub(crate) fn accessed(alloc: Global, t: &Type) -> Result<Vec<Member>, Memory>
    ensures { IfOk result (λ members. map member_data members.items ≡ rules.accessed t.now) }
{
    let mut members = without_lists(alloc, t)?;
    if !can_be_list(t) {
        return Ok(members);
    }
    members.push(Member::Lists(items_of(alloc, t)?))?;
    Ok(members)
}

fn property_of_kind(kind: Kind, member: ValueMember) -> Option<Kind>
    ensures { option_map kind_type result ≡ rules.property_of_kind kind member }
{
    match kind {
        Kind::String => length_of(member),
        Kind::File => property_of_file(member),
        Kind::Path | Kind::Directory => property_of_path(member),
        Kind::Seal | Kind::Opaque => root_of(member),
        _ => None,
    }
}

fn length_of(member: ValueMember) -> Option<Kind>
    ensures { option_map kind_type result ≡ rules.property_of_list member }
{
    match member {
        ValueMember::Length => Some(Kind::Number),
        _ => None,
    }
}

fn property_of_path(member: ValueMember) -> Option<Kind>
    ensures { option_map kind_type result ≡ rules.property_of_kind kinds.Path member }
{
    match member {
        ValueMember::Name => Some(Kind::PathAtom),
        ValueMember::Parent => Some(Kind::Directory),
        _ => None,
    }
}

fn property_of_file(member: ValueMember) -> Option<Kind>
    ensures { option_map kind_type result ≡ rules.property_of_kind kinds.File member }
{
    match member {
        ValueMember::Path => Some(Kind::Path),
        _ => property_of_path(member),
    }
}

fn root_of(member: ValueMember) -> Option<Kind>
    ensures { option_map kind_type result ≡ rules.property_of_kind kinds.Seal member }
{
    match member {
        ValueMember::Root => Some(Kind::Directory),
        _ => None,
    }
}

// What a field holds, with undefined where it may be missing; undefined where there is none.
fn held_by(alloc: Global, field: Option<&Field>) -> Result<Type, Memory>
    ensures { IfOk result (λ t. t ≡ rules.held_by (option_map field_data (option_copied field.entry))) }
{
    match field {
        Some(field) => if_optional(alloc, field.optional, &field.type_data),
        None => undefined_type(alloc),
    }
}

// What a name gives after a member of a type, where it is not called.
fn property_of(alloc: Global, name: &[u8], member: &Member) -> Result<Option<Type>, Memory>
    ensures { IfOk result (λ t. t ≡ rules.property_of name.now (member_data member.now)) }
{
    match member {
        Member::Values(kind) => match ValueMember::named(name) {
            Some(called) => of_kind_if(alloc, property_of_kind(*kind, called)),
            None => Ok(None),
        },
        Member::Lists(_) => match ValueMember::named(name) {
            Some(called) => of_kind_if(alloc, length_of(called)),
            None => Ok(None),
        },
        Member::Objects(fields) => Ok(Some(held_by(alloc, field_named(fields.items(), name))?)),
    }
}

/// The type of a name after a value of a type: each member of the type must have it, and not as a function.
#[tactic(auto, unfolding(dscript_types_meaning::specs::Access::member_type))]
pub fn member_type(alloc: Global, t: &Type, name: &[u8]) -> Result<Option<Type>, Memory>
    ensures { IfOk result (λ u. u ≡ rules.member_type t.now name.now) }
{
    let members = accessed(alloc, t)?;
    let mut answer = Type::never(alloc)?;
    let mut left = members.as_slice();
    'members: while let Some((member, before)) = left.split_last() {
        let Some(held) = property_of(alloc, name, member)? else {
            return Ok(None);
        };
        answer = join(alloc, &held, &answer)?;
        left = before;
    }
    Ok(answer.within_limit())
}

// The types of fields.
fn types_of(alloc: Global, fields: &[Field]) -> Result<Vec<Type>, Memory>
    ensures { IfOk result (λ types. types.items ≡ map (λ (f : FieldData). f.type_data) (map field_data fields.now)) }
{
    let mut types = Vec::new(alloc);
    'fields: for field in fields {
        types.push(field.type_data.share()?)?;
    }
    Ok(types)
}

// All that the fields hold, and undefined.
fn any_field(alloc: Global, fields: &[Field]) -> Result<Type, Memory>
    ensures { IfOk result (λ t. t ≡ rules.any_field (row_of fields.now)) }
{
    let types = types_of(alloc, fields)?;
    let all = join_all(alloc, types.as_slice())?;
    with_undefined(alloc, &all)
}

// What a member of a type gives at an index: a list at a number, an object at a text.
fn at_index(alloc: Global, index: &Type, member: &Member) -> Result<Option<Type>, Memory>
    ensures { IfOk result (λ t. t ≡ rules.at_index index.now (member_data member.now)) }
{
    match member {
        Member::Values(_) => Ok(None),
        Member::Lists(item) => {
            if is_number(index) {
                Ok(Some(item.share()?))
            } else {
                Ok(None)
            }
        }
        Member::Objects(fields) => {
            if is_text(index) {
                Ok(Some(any_field(alloc, fields.items())?))
            } else {
                Ok(None)
            }
        }
    }
}

/// The type of a value of a type with an index: each member of the type must allow it.
#[tactic(auto, unfolding(dscript_types_meaning::specs::Access::indexed))]
pub fn indexed(alloc: Global, t: &Type, index: &Type) -> Result<Option<Type>, Memory>
    ensures { IfOk result (λ u. u ≡ rules.indexed t.now index.now) }
{
    let mut answer = Type::never(alloc)?;
    let mut left = t.members();
    'members: while let Some((member, before)) = left.split_last() {
        let Some(held) = at_index(alloc, index, member)? else {
            return Ok(None);
        };
        answer = join(alloc, &held, &answer)?;
        left = before;
    }
    Ok(answer.within_limit())
}
