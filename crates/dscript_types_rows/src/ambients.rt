//! The types of ambient calls.
ghost use Rattle.std.specs.Prelude.{◌≡◌, IfOk, filter, map, not};
ghost use Rattle.dscript_types_data.specs.Views.{field_data, member_data};
ghost use Rattle.dscript_program.specs.declared.ambient.Ambient.TheVariants as ambients;
ghost use Rattle.dscript_types_meaning.specs.Ambients as rules;
ghost use Rattle.dscript_types_meaning.specs.Types.{members_of};
ghost use Rattle.dscript_types_meaning.specs.Unions.{union_of};

use crate::signatures::{ambient_signature, answer_of};
use bx_tree::Memory;
use dscript_program::Ambient;
use dscript_types_data::{Field, Fields, Member, Type, union_of};
use std::alloc::Global;

// Whether the field of `Transformer.execute` may hold anything.
fn is_free_field(field: &Field) -> bool
    ensures { result ≡ rules.is_free_field (field_data field.now) }
{
    let name = field.name.bytes();
    name == b"description".as_slice() || name == b"tags".as_slice()
}

// The fields that are not free.
fn looked_fields(alloc: Global, fields: &[Field]) -> Result<Vec<Field>, Memory>
    ensures { IfOk result (λ kept. map field_data kept.items
        ≡ filter (λ f. not (rules.is_free_field f)) (map field_data fields.now)) }
{
    let mut kept = Vec::new(alloc);
    'fields: for field in fields {
        if !is_free_field(field) {
            kept.push(field.share()?)?;
        }
    }
    Ok(kept)
}

fn without_free(alloc: Global, member: &Member) -> Result<Member, Memory>
    ensures { IfOk result (λ m. member_data m ≡ rules.without_free (member_data member.now)) }
{
    match member {
        Member::Objects(fields) => {
            let kept = looked_fields(alloc, fields.items())?;
            Ok(Member::Objects(Fields::new(alloc, kept)?))
        }
        Member::Values(kind) => Ok(Member::Values(*kind)),
        Member::Lists(item) => Ok(Member::Lists(item.share()?)),
    }
}

// The type of the object of `Transformer.execute`, without what the call does not look at.
fn looked_type(alloc: Global, t: &Type) -> Result<Type, Memory>
    ensures { IfOk result (λ u. u ≡ union_of (map rules.without_free (members_of t.now))) }
{
    let mut members = Vec::new(alloc);
    'members: for member in t.members() {
        members.push(without_free(alloc, member)?)?;
    }
    union_of(alloc, members)
}

// The types of given arguments, of which the first is of the object of `Transformer.execute`.
fn looked_first(alloc: Global, given: Vec<Type>) -> Result<Vec<Type>, Memory>
    ensures { IfOk result (λ looked. looked.items ≡ rules.looked_at ambients.Execute given.items) }
{
    let mut given = given;
    let Some((first, _)) = given.as_slice().split_first() else {
        return Ok(given);
    };
    let looked = looked_type(alloc, first)?;
    given[0] = looked;
    Ok(given)
}

// The types of given arguments, without what the call does not look at.
fn looked_at(alloc: Global, call: Ambient, given: Vec<Type>) -> Result<Vec<Type>, Memory>
    ensures { IfOk result (λ looked. looked.items ≡ rules.looked_at call given.items) }
{
    match call {
        Ambient::Execute => looked_first(alloc, given),
        _ => Ok(given),
    }
}

/// What an ambient call answers at arguments of these types.
#[tactic(auto, unfolding(dscript_types_meaning::specs::Ambients::ambient_type))]
pub fn ambient_type(alloc: Global, call: Ambient, given: Vec<Type>) -> Result<Option<Type>, Memory>
    ensures { IfOk result (λ t. t ≡ rules.ambient_type call given.items) }
{
    let given = looked_at(alloc, call, given)?;
    let signature = ambient_signature(alloc, call)?;
    Ok(answer_of(given.as_slice(), signature))
}
