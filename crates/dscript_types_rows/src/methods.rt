//! Member functions that call no functions.
ghost use Rattle.std.specs.Prelude.{◌≡◌, ◌∷◌, [], IfOk};
ghost use Rattle.dscript_types_data.specs.Views.{member_data};
ghost use Rattle.dscript_types_meaning.specs.Access as rules;
ghost use Rattle.dscript_types_meaning.specs.Operators.{text_type};

use crate::access::accessed;
use crate::operators::is_text;
use crate::signatures::{answer_of, method_of_kind};
use bx_tree::Memory;
use dscript_sdk_members::Member as ValueMember;
use dscript_types_data::{Member, Type, is_list_type, items_of, join, may_be_alike};
use dscript_types_meaning::Kind;
use std::alloc::Global;

// A list and the items of another, which may be missing.
fn concatenated(alloc: Global, item: &Type, given: &[Type]) -> Result<Option<Type>, Memory>
    ensures { IfOk result (λ t. t ≡ rules.concatenated item.now given.now) }
{
    match given.first() {
        None => Ok(Some(Type::list_of(alloc, item.share()?)?)),
        Some(list) => {
            if !is_list_type(list) {
                return Ok(None);
            }
            let items = join(alloc, item, &items_of(alloc, list)?)?;
            Ok(Some(Type::list_of(alloc, items)?))
        }
    }
}

// An item must not be a list where the argument can be one, and likewise of objects.
fn contained(alloc: Global, item: &Type, given: &[Type]) -> Result<Option<Type>, Memory>
    ensures { IfOk result (λ t. t ≡ rules.contained item.now given.now) }
{
    match given.first() {
        None => Ok(Some(Type::of_kind(alloc, Kind::Boolean)?)),
        Some(t) => {
            if may_be_alike(item, t) {
                Ok(None)
            } else {
                Ok(Some(Type::of_kind(alloc, Kind::Boolean)?))
            }
        }
    }
}

// Whether the text between texts is one, which may be missing.
fn may_join(given: &[Type]) -> bool
    ensures { result ≡ rules.arguments_fit (text_type ∷ []) given.now }
{
    match given.first() {
        Some(t) => is_text(t),
        None => true,
    }
}

// Texts are joined with a text between them.
fn joined_texts(alloc: Global, item: &Type, given: &[Type]) -> Result<Option<Type>, Memory>
    ensures { IfOk result (λ t. t ≡ rules.joined_texts item.now given.now) }
{
    if !is_text(item) {
        return Ok(None);
    }
    if !may_join(given) {
        return Ok(None);
    }
    Ok(Some(Type::of_kind(alloc, Kind::String)?))
}

fn method_of_list(
    alloc: Global,
    called: ValueMember,
    item: &Type,
    given: &[Type],
) -> Result<Option<Type>, Memory>
    ensures { IfOk result (λ t. t ≡ rules.method_of_list called item.now given.now) }
{
    match called {
        ValueMember::Concat => concatenated(alloc, item, given),
        ValueMember::Contains => contained(alloc, item, given),
        ValueMember::Join => joined_texts(alloc, item, given),
        _ => Ok(None),
    }
}

fn method_of(
    alloc: Global,
    called: ValueMember,
    given: &[Type],
    on: &Member,
) -> Result<Option<Type>, Memory>
    ensures { IfOk result (λ t. t ≡ rules.method_of called given.now (member_data on.now)) }
{
    match on {
        Member::Values(kind) => match method_of_kind(alloc, *kind, called)? {
            Some(signature) => Ok(answer_of(given, signature)),
            None => Ok(None),
        },
        Member::Lists(item) => method_of_list(alloc, called, item, given),
        Member::Objects(_) => Ok(None),
    }
}

fn method_named(
    alloc: Global,
    called: Option<ValueMember>,
    given: &[Type],
    on: &Member,
) -> Result<Option<Type>, Memory>
    ensures { IfOk result (λ t. t ≡ rules.method_named called given.now (member_data on.now)) }
{
    match called {
        Some(called) => method_of(alloc, called, given, on),
        None => Ok(None),
    }
}

/// The type of a call of a member function of a type that calls no functions: each member of the type must have it.
#[tactic(auto, unfolding(dscript_types_meaning::specs::Access::method_type))]
pub fn method_type(
    alloc: Global,
    t: &Type,
    name: &[u8],
    given: &[Type],
) -> Result<Option<Type>, Memory>
    ensures { IfOk result (λ u. u ≡ rules.method_type t.now name.now given.now) }
{
    let members = accessed(alloc, t)?;
    let called = ValueMember::named(name);
    let mut answer = Type::never(alloc)?;
    let mut left = members.as_slice();
    'members: while let Some((member, before)) = left.split_last() {
        let Some(held) = method_named(alloc, called, given, member)? else {
            return Ok(None);
        };
        answer = join(alloc, &held, &answer)?;
        left = before;
    }
    Ok(answer.within_limit())
}
