//! Unions.
ghost use Rattle.std.specs.Prelude.{◌≡◌, ◌++◌, IfOk, IfSome, map};
ghost use Rattle.dscript_types_data.specs.Views.{IsFew, member_data};
ghost use Rattle.dscript_types_meaning.specs.Types.{members_of};
ghost use Rattle.dscript_types_meaning.specs.Unions as unions;

use crate::members::is_undefined;
use crate::order::compare_members;
use crate::types::{Member, Type};
use bx_tree::Memory;
use dscript_types_meaning::Kind;
use std::alloc::Global;
use std::collections::BTreeSet;

// Members as a set, in which each is once.
fn set_of(alloc: Global, members: Vec<Member>) -> Result<BTreeSet<Member>, Memory>
    ensures { IfOk result (λ set. map member_data set.keys ≡ unions.set_of (map member_data members.items)) }
{
    let mut members = members;
    let mut set = BTreeSet::new(alloc);
    'members: while let Some(member) = members.pop() {
        set.insert(member)?;
    }
    Ok(set)
}

// The members of a set, in their order.
fn listed(alloc: Global, set: BTreeSet<Member>) -> Result<Vec<Member>, Memory>
    ensures { IfOk result (λ members. members.items ≡ set.keys) }
{
    let mut members = Vec::new(alloc);
    'members: for member in set {
        members.push(member)?;
    }
    Ok(members)
}

/// The union of members in any order, in which one may be there more than once.
#[tactic(auto, unfolding(dscript_types_meaning::specs::Unions::union_of))]
pub fn union_of(alloc: Global, members: Vec<Member>) -> Result<Type, Memory>
    ensures { IfOk result (λ t. t ≡ unions.union_of (map member_data members.items)) }
{
    if members.len() < 2 {
        return Type::of_members(alloc, members);
    }
    let set = set_of(alloc, members)?;
    Type::of_members(alloc, listed(alloc, set)?)
}

// Adds the members of a type.
fn add_members(members: &mut Vec<Member>, t: &Type) -> Result<(), Memory>
    ensures { IfOk result (λ _. map member_data members.new.items
        ≡ map member_data members.old.items ++ members_of t.now) }
{
    'members: for member in t.members() {
        members.push(member.share()?)?;
    }
    Ok(())
}

// The one of two types that is the union of both, where each has one member at most.
fn joined<'a>(a: &'a Type, b: &'a Type) -> Option<&'a Type>
    ensures { IfSome result (λ t. IsFew t.now × (t.now ≡ unions.join a.now b.now)) }
{
    let left = a.members();
    let right = b.members();
    if left.len() > 1 {
        return None;
    }
    if right.len() > 1 {
        return None;
    }
    let Some((one, _)) = left.split_first() else {
        return Some(b);
    };
    let Some((other, _)) = right.split_first() else {
        return Some(a);
    };
    if compare_members(one, other).is_eq() {
        Some(b)
    } else {
        None
    }
}

/// The union of two types.
pub fn join(alloc: Global, a: &Type, b: &Type) -> Result<Type, Memory>
    ensures { IfOk result (λ t. t ≡ unions.join a.now b.now) }
{
    match joined(a, b) {
        Some(t) => t.share(),
        None => join_members(alloc, a, b),
    }
}

// The union of two types, by their members.
fn join_members(alloc: Global, a: &Type, b: &Type) -> Result<Type, Memory>
    ensures { IfOk result (λ t. t ≡ unions.join a.now b.now) }
{
    let mut members = Vec::new(alloc);
    add_members(&mut members, a)?;
    add_members(&mut members, b)?;
    union_of(alloc, members)
}

// The one of these types that is the union of all, where each has one member at most.
fn joined_all(types: &[Type]) -> Option<&Type>
    ensures { IfSome result (λ t. t.now ≡ unions.join_all types.now) }
{
    let Some((last, others)) = types.split_last() else {
        return None;
    };
    if last.members().len() > 1 {
        return None;
    }
    let mut answer = last;
    let mut left = others;
    'types: while let Some((t, before)) = left.split_last() {
        match joined(t, answer) {
            Some(u) => answer = u,
            None => return None,
        }
        left = before;
    }
    Some(answer)
}

/// The union of types.
pub fn join_all(alloc: Global, types: &[Type]) -> Result<Type, Memory>
    ensures { IfOk result (λ t. t ≡ unions.join_all types.now) }
{
    match joined_all(types) {
        Some(t) => t.share(),
        None => join_all_members(alloc, types),
    }
}

// The union of types, by their members.
fn join_all_members(alloc: Global, types: &[Type]) -> Result<Type, Memory>
    ensures { IfOk result (λ t. t ≡ unions.join_all types.now) }
{
    let mut members = Vec::new(alloc);
    'types: for t in types {
        add_members(&mut members, t)?;
    }
    union_of(alloc, members)
}

/// The type of undefined.
pub fn undefined_type(alloc: Global) -> Result<Type, Memory>
    ensures { IfOk result (λ t. t ≡ unions.undefined_type) }
{
    Type::of_kind(alloc, Kind::Undefined)
}

/// A type and undefined.
pub fn with_undefined(alloc: Global, t: &Type) -> Result<Type, Memory>
    ensures { IfOk result (λ u. u ≡ unions.with_undefined t.now) }
{
    join(alloc, t, &undefined_type(alloc)?)
}

/// A type, with undefined where it is optional.
pub fn if_optional(alloc: Global, optional: bool, t: &Type) -> Result<Type, Memory>
    ensures { IfOk result (λ u. u ≡ unions.if_optional optional t.now) }
{
    if optional {
        with_undefined(alloc, t)
    } else {
        t.share()
    }
}

/// A type without undefined.
pub fn without_undefined(alloc: Global, t: &Type) -> Result<Type, Memory>
    ensures { IfOk result (λ u. u ≡ unions.without_undefined t.now) }
{
    let mut members = Vec::new(alloc);
    'members: for member in t.members() {
        if !is_undefined(member) {
            members.push(member.share()?)?;
        }
    }
    union_of(alloc, members)
}

// The items of a type that is one list type, where they have one member at most.
fn only_items(t: &Type) -> Option<&Type>
    ensures { IfSome result (λ item. item.now ≡ unions.items_of t.now) }
{
    let Some((member, others)) = t.members().split_first() else {
        return None;
    };
    if !others.is_empty() {
        return None;
    }
    match member {
        Member::Lists(item) => {
            if item.members().len() > 1 {
                return None;
            }
            Some(item)
        }
        Member::Values(_) => None,
        Member::Objects(_) => None,
    }
}

/// The items of the lists of a type.
pub fn items_of(alloc: Global, t: &Type) -> Result<Type, Memory>
    ensures { IfOk result (λ u. u ≡ unions.items_of t.now) }
{
    match only_items(t) {
        Some(item) => item.share(),
        None => all_items(alloc, t),
    }
}

// The items of the lists of a type, by their members.
fn all_items(alloc: Global, t: &Type) -> Result<Type, Memory>
    ensures { IfOk result (λ u. u ≡ unions.items_of t.now) }
{
    let mut members = Vec::new(alloc);
    'members: for member in t.members() {
        if let Member::Lists(item) = member {
            add_members(&mut members, item)?;
        }
    }
    union_of(alloc, members)
}
