//! When a type fits another.
ghost use Rattle.std.specs.Prelude.{◌≡◌, map};
ghost use Rattle.std.specs.List.{list_any};
ghost use Rattle.dscript_types_data.specs.Views.{field_data, member_data};
ghost use Rattle.dscript_types_meaning.specs.Fits as rules;
ghost use Rattle.dscript_types_meaning.specs.Types.{Union, Values, to_fields, to_members};

use crate::objects::field_named;
use crate::order::kind_number;
use crate::types::{Field, Member, Type};
use dscript_types_meaning::Kind;

/// Whether each value of the one type is a value of the other.
#[cycle(fitting)]
#[tactic(auto, unfolding(dscript_types_meaning::specs::Fits::fits))]
pub fn fits(t: &Type, other: &Type) -> bool
    ensures { result ≡ rules.fits t.now other.now }
{
    'members: for member in t.members() {
        if !fits_one(member, other.members()) {
            return false;
        }
    }
    true
}

/// Whether each value of the type is of one of these kinds.
#[tactic(auto, unfolding(dscript_types_meaning::specs::Fits::fits))]
pub fn is_of_kinds(t: &Type, kinds: &[Kind]) -> bool
    ensures { result ≡ rules.fits t.now (Union (to_members (map Values kinds.now))) }
{
    'members: for member in t.members() {
        if !is_of_one(member, kinds) {
            return false;
        }
    }
    true
}

// Whether a member is one of these kinds.
#[tactic(auto, unfolding(dscript_types_meaning::specs::Fits::fits))]
fn is_of_one(member: &Member, kinds: &[Kind]) -> bool
    ensures { result ≡ list_any (λ o. rules.member_fits (member_data member.now) o) (map Values kinds.now) }
{
    match member {
        Member::Values(own) => {
            'kinds: for kind in kinds {
                if kind_number(*own) == kind_number(*kind) {
                    return true;
                }
            }
            false
        }
        Member::Lists(_) => false,
        Member::Objects(_) => false,
    }
}

// Whether a member fits one of these.
#[cycle(fitting)]
fn fits_one(member: &Member, others: &[Member]) -> bool
    ensures { result ≡ list_any (λ o. rules.member_fits (member_data member.now) o) (map member_data others.now) }
{
    'others: for other in others {
        if member_fits(member, other) {
            return true;
        }
    }
    false
}

#[cycle(fitting)]
#[tactic(auto, unfolding(dscript_types_meaning::specs::Fits::fits))]
fn member_fits(member: &Member, other: &Member) -> bool
    ensures { result ≡ rules.member_fits (member_data member.now) (member_data other.now) }
{
    match (member, other) {
        (Member::Values(kind), Member::Values(other)) => kind_number(*kind) == kind_number(*other),
        (Member::Lists(item), Member::Lists(other)) => fits(item, other),
        (Member::Objects(fields), Member::Objects(others)) => {
            fields_fit(fields.items(), others.items())
                && are_required(others.items(), fields.items())
        }
        _ => false,
    }
}

// Whether each field is one of the others and fits it.
#[cycle(fitting)]
#[tactic(auto, unfolding(dscript_types_meaning::specs::Fits::fits))]
fn fields_fit(fields: &[Field], others: &[Field]) -> bool
    ensures { result ≡ rules.fields_fit (to_fields (map field_data fields.now)) (map field_data others.now) }
{
    'fields: for field in fields {
        let Some(other) = field_named(others, field.name.bytes()) else {
            return false;
        };
        if !fits(&field.type_data, &other.type_data) {
            return false;
        }
    }
    true
}

// Whether each of these fields that is required is a required one of the others.
fn are_required(fields: &[Field], others: &[Field]) -> bool
    ensures { result ≡ rules.are_required (map field_data fields.now) (map field_data others.now) }
{
    'fields: for field in fields {
        if !field.optional && !requires_field(others, field.name.bytes()) {
            return false;
        }
    }
    true
}

/// Whether a field of this name is there and required.
pub(crate) fn requires_field(fields: &[Field], name: &[u8]) -> bool
    ensures { result ≡ rules.requires (map field_data fields.now) name.now }
{
    match field_named(fields, name) {
        Some(field) => !field.optional,
        None => false,
    }
}
