//! The order of members in a union, and of fields in an object type.
ghost use Rattle.std.specs.Prelude.{◌≡◌, map};
ghost use Rattle.std.specs.Cmp.Lexicographic.{slice_cmp};
ghost use Rattle.std.specs.Ordering.{as_partial_cmp, eq_by_cmp};
ghost use Rattle.std.proofs.Common.{rules};
ghost use Rattle.dscript_types_data.specs.Orders.{field_order, label_order, name_order, types_order};
ghost use Rattle.dscript_types_data.specs.Orders.{same_members_equiv, same_members_partial, shared_cmp, shared_matches};
ghost use Rattle.dscript_types_data.specs.Orders.{shared_partial, shared_total};
ghost use Rattle.dscript_types_data.specs.Views.{field_data, member_data};
ghost use Rattle.dscript_types_meaning.specs.Codes as codes;
ghost use Rattle.dscript_types_meaning.specs.Codes.{member_cmp};

use crate::types::{Field, Member, Type};
use dscript_types_meaning::Kind;
use std::cmp::Ordering;

/// The place of a kind among all kinds.
pub(crate) fn kind_number(kind: Kind) -> u32
    ensures { result ≡ codes.kind_number kind }
{
    match kind {
        Kind::Undefined => 0,
        Kind::Boolean => 1,
        Kind::Number => 2,
        Kind::String => 3,
        Kind::Path => 4,
        Kind::File => 5,
        Kind::Directory => 6,
        Kind::RelativePath => 7,
        Kind::PathAtom => 8,
        Kind::Seal => 9,
        Kind::Opaque => 10,
        Kind::Process => 11,
        Kind::Artifact => 12,
        Kind::Argument => 13,
    }
}

/// The order of two members, as that of their codes: kinds are before lists, and lists before objects.
#[cycle(order)]
#[tactic(auto, unfolding(dscript_types_meaning::specs::Codes::member_cmp))]
pub(crate) fn compare_members(a: &Member, b: &Member) -> Ordering
    ensures { result ≡ member_cmp (member_data a.now) (member_data b.now) }
{
    match (a, b) {
        (Member::Values(kind), Member::Values(other)) => kind_number(*kind).cmp(&kind_number(
            *other,
        )),
        (Member::Lists(item), Member::Lists(other)) => compare_types(item, other),
        (Member::Objects(fields), Member::Objects(others)) => compare_fields(
            fields.items(),
            others.items(),
        ),
        (Member::Values(_), Member::Lists(_)) => Ordering::Less,
        (Member::Values(_), Member::Objects(_)) => Ordering::Less,
        (Member::Lists(_), Member::Objects(_)) => Ordering::Less,
        (Member::Lists(_), Member::Values(_)) => Ordering::Greater,
        (Member::Objects(_), Member::Values(_)) => Ordering::Greater,
        (Member::Objects(_), Member::Lists(_)) => Ordering::Greater,
    }
}

/// The order of two types: member by member, and a type that ends is before one that goes on.
#[cycle(order)]
fn compare_types(a: &Type, b: &Type) -> Ordering
    ensures { result ≡ types_order a.now b.now }
{
    let mut left = a.members();
    let mut right = b.members();
    'members: while let Some((member, more)) = left.split_first() {
        let Some((other, rest)) = right.split_first() else {
            return Ordering::Greater;
        };
        match compare_members(member, other) {
            Ordering::Equal => {}
            unequal => return unequal,
        }
        left = more;
        right = rest;
    }
    if right.is_empty() {
        Ordering::Equal
    } else {
        Ordering::Less
    }
}

#[cycle(order)]
fn compare_fields(fields: &[Field], others: &[Field]) -> Ordering
    ensures { result ≡ slice_cmp field_order (map field_data fields.now) (map field_data others.now) }
{
    let mut left = fields;
    let mut right = others;
    'fields: while let Some((field, more)) = left.split_first() {
        let Some((other, rest)) = right.split_first() else {
            return Ordering::Greater;
        };
        match compare_field(field, other) {
            Ordering::Equal => {}
            unequal => return unequal,
        }
        left = more;
        right = rest;
    }
    if right.is_empty() {
        Ordering::Equal
    } else {
        Ordering::Less
    }
}

#[cycle(order)]
fn compare_field(field: &Field, other: &Field) -> Ordering
    ensures { result ≡ field_order (field_data field.now) (field_data other.now) }
{
    match compare_labels(field, other) {
        Ordering::Equal => compare_types(&field.type_data, &other.type_data),
        unequal => unequal,
    }
}

// Names, and then whether the field may be missing.
fn compare_labels(field: &Field, other: &Field) -> Ordering
    ensures { result ≡ label_order (field_data field.now) (field_data other.now) }
{
    match compare_by_length(field.name.bytes(), other.name.bytes()) {
        Ordering::Equal => field.optional.cmp(&other.optional),
        unequal => unequal,
    }
}

// A shorter name is before a longer one.
fn compare_by_length(name: &[u8], other: &[u8]) -> Ordering
    ensures { result ≡ name_order name.now other.now }
{
    match name.len().cmp(&other.len()) {
        Ordering::Equal => name.cmp(other),
        unequal => unequal,
    }
}

impl PartialEq for Member {
    ghost eq = { eq_by_cmp shared_cmp };

    ghost laws = { same_members_partial };

    fn eq(&self, other: &Member) -> bool {
        compare_members(self, other).is_eq()
    }
}

impl Eq for Member {
    ghost laws = { same_members_equiv };
}

impl Ord for Member {
    ghost cmp = { shared_cmp };

    ghost total = { shared_total };

    ghost matches_partial_cmp = { Prim.search rules };

    ghost matches_eq = { shared_matches };

    fn cmp(&self, other: &Member) -> Ordering {
        compare_members(self, other)
    }
}

impl PartialOrd for Member {
    ghost partial_cmp = { as_partial_cmp shared_cmp };

    ghost laws = { shared_partial };

    fn partial_cmp(&self, other: &Member) -> Option<Ordering> {
        Some(self.cmp(other))
    }
}
