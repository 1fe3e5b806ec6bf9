//! The types of operators.
ghost use Rattle.std.specs.Prelude.{◌≡◌, IfOk, map};
ghost use Rattle.std.specs.Option.{option_map};
ghost use Rattle.dscript_types_data.specs.Views.{member_data};
ghost use Rattle.dscript_types_meaning.specs.Fits.{fits};
ghost use Rattle.dscript_types_meaning.specs.Operators as rules;
ghost use Rattle.dscript_types_meaning.specs.Types.{Values, kind_type};

use bx_tree::Memory;
use dscript_ast::{BinaryOp, UnaryOp};
use dscript_types_data::{Member, Type, is_of_kinds, join, may_be_alike, without_undefined};
use dscript_types_meaning::Kind;
use std::alloc::Global;

/// Whether each value of the type is a number.
pub(crate) fn is_number(t: &Type) -> bool
    ensures { result ≡ fits t.now rules.number_type }
{
    is_of_kinds(t, &[Kind::Number])
}

/// Whether each value of the type is a text.
pub(crate) fn is_text(t: &Type) -> bool
    ensures { result ≡ fits t.now rules.text_type }
{
    is_of_kinds(t, &[Kind::String])
}

// The type of a kind, if there is one.
pub(crate) fn of_kind_if(alloc: Global, kind: Option<Kind>) -> Result<Option<Type>, Memory>
    ensures { IfOk result (λ t. t ≡ option_map kind_type kind) }
{
    match kind {
        Some(kind) => Ok(Some(Type::of_kind(alloc, kind)?)),
        None => Ok(None),
    }
}

// This kind, where both are numbers.
fn of_numbers(alloc: Global, answer: Kind, t: &Type, u: &Type) -> Result<Option<Type>, Memory>
    ensures { IfOk result (λ o. o ≡ rules.of_numbers (kind_type answer) t.now u.now) }
{
    if is_number(t) && is_number(u) {
        Ok(Some(Type::of_kind(alloc, answer)?))
    } else {
        Ok(None)
    }
}

fn compared(alloc: Global, t: &Type, u: &Type) -> Result<Option<Type>, Memory>
    ensures { IfOk result (λ o. o ≡ rules.compared t.now u.now) }
{
    if may_be_alike(t, u) {
        Ok(None)
    } else {
        Ok(Some(Type::of_kind(alloc, Kind::Boolean)?))
    }
}

// The kind of the sum of values of two kinds.
fn sum_of_kinds(a: Kind, b: Kind) -> Option<Kind>
    ensures { option_map kind_type result ≡ rules.sum_of (Values a) (Values b) }
{
    match a {
        Kind::Number => match b {
            Kind::Number => Some(Kind::Number),
            Kind::String => Some(Kind::String),
            _ => None,
        },
        Kind::String => match b {
            Kind::Number | Kind::String => Some(Kind::String),
            _ => None,
        },
        _ => None,
    }
}

// The kind of the sum of two members.
fn sum_kind(a: &Member, b: &Member) -> Option<Kind>
    ensures { option_map kind_type result ≡ rules.sum_of (member_data a.now) (member_data b.now) }
{
    match a {
        Member::Values(kind) => match b {
            Member::Values(other) => sum_of_kinds(*kind, *other),
            Member::Lists(_) => None,
            Member::Objects(_) => None,
        },
        Member::Lists(_) => None,
        Member::Objects(_) => None,
    }
}

// The union of the sums of a member and each of these.
fn sums_of(alloc: Global, a: &Member, members: &[Member]) -> Result<Option<Type>, Memory>
    ensures { IfOk result (λ o. o ≡ rules.at_each (rules.sum_of (member_data a.now)) (map member_data members.now)) }
{
    let mut answer = Type::never(alloc)?;
    let mut left = members;
    'members: while let Some((b, before)) = left.split_last() {
        let Some(t) = of_kind_if(alloc, sum_kind(a, b))? else {
            return Ok(None);
        };
        answer = join(alloc, &t, &answer)?;
        left = before;
    }
    Ok(Some(answer))
}

// The union of the sums of each pair of members.
fn sums(alloc: Global, t: &Type, u: &Type) -> Result<Option<Type>, Memory>
    ensures { IfOk result (λ o. o ≡ rules.at_pairs rules.sum_of t.now u.now) }
{
    let mut answer = Type::never(alloc)?;
    let mut left = t.members();
    'members: while let Some((a, before)) = left.split_last() {
        let Some(held) = sums_of(alloc, a, u.members())? else {
            return Ok(None);
        };
        answer = join(alloc, &held, &answer)?;
        left = before;
    }
    Ok(Some(answer))
}

/// The type of an operator at the types of its two operands.
#[tactic(auto, unfolding(dscript_types_meaning::specs::Operators::operated))]
pub fn operated(
    alloc: Global,
    operator: BinaryOp,
    t: &Type,
    u: &Type,
) -> Result<Option<Type>, Memory>
    ensures { IfOk result (λ o. o ≡ rules.operated operator t.now u.now) }
{
    match operator {
        BinaryOp::Or => Ok(join(alloc, &without_undefined(alloc, t)?, u)?.within_limit()),
        BinaryOp::And => Ok(join(alloc, t, u)?.within_limit()),
        BinaryOp::Equal | BinaryOp::NotEqual => compared(alloc, t, u),
        BinaryOp::Less | BinaryOp::LessOrEqual | BinaryOp::Greater | BinaryOp::GreaterOrEqual => {
            of_numbers(alloc, Kind::Boolean, t, u)
        }
        BinaryOp::Add => sums(alloc, t, u),
        BinaryOp::Subtract | BinaryOp::Multiply => of_numbers(alloc, Kind::Number, t, u),
    }
}

fn prefixed_by(alloc: Global, operator: UnaryOp, t: &Type) -> Result<Option<Type>, Memory>
    ensures { IfOk result (λ o. o ≡ rules.prefixed_by operator t.now) }
{
    match operator {
        UnaryOp::Not => Ok(Some(Type::of_kind(alloc, Kind::Boolean)?)),
        UnaryOp::Negate => of_numbers(alloc, Kind::Number, t, t),
    }
}

/// The type of an operand with operators before it, of which the nearest is the first to act.
#[tactic(auto, unfolding(dscript_types_meaning::specs::Operators::prefixed))]
pub fn prefixed(alloc: Global, operators: &[UnaryOp], t: Type) -> Result<Option<Type>, Memory>
    ensures { IfOk result (λ o. o ≡ rules.prefixed operators.now t) }
{
    let mut answer = t;
    let mut left = operators;
    'operators: while let Some((nearest, others)) = left.split_last() {
        match prefixed_by(alloc, *nearest, &answer)? {
            Some(t) => answer = t,
            None => return Ok(None),
        }
        left = others;
    }
    Ok(Some(answer))
}
