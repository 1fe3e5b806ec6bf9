//! What subjects are as values, and values as subjects.
ghost use Rattle.std.specs.Prelude.{◌≡◌, IfOk, Some};
ghost use Rattle.dscript_types_meaning.specs.Types.{kind_type};
ghost use Rattle.dscript_types_scenes.specs.Subjects.{in_finding, is_whole, named_typing, only_found, whole_of};
ghost use Rattle.dscript_types_scenes.specs.declared.found.Typing.TheVariants as typings;

use crate::found::{Seen, Subject, Typing};
use bx_tree::{Memory, Text};
use dscript_types_data::Type;
use dscript_types_known::Finding;
use dscript_types_meaning::Kind;
use dscript_types_notes::World;
use dscript_types_rows::member_type;

/// The type of a subject as a value.
pub fn whole(world: &World<'_>, found: Typing<Subject>) -> Result<Typing<Type>, Memory>
    ensures { IfOk result (λ typing. typing ≡ whole_of found) }
{
    match found {
        Typing::Found(subject, seen) => subject_type(world, subject, seen),
        Typing::Nothing => Ok(Typing::Nothing),
        Typing::Open(pending) => Ok(Typing::Open(pending)),
    }
}

// The type of a subject that was found.
fn subject_type(world: &World<'_>, subject: Subject, seen: Seen) -> Result<Typing<Type>, Memory>
    ensures { IfOk result (λ typing. typing ≡ whole_of (typings.Found subject seen)) }
{
    match subject {
        Subject::Whole(t) => Ok(Typing::Found(t, seen)),
        Subject::Named(t, name) => Ok(only(member_type(world.alloc, &t, name.bytes())?, seen)),
        Subject::Function { .. } => Ok(Typing::Nothing),
        Subject::Ambient(_) => Ok(Typing::Nothing),
    }
}

/// What there may not be, after this was seen.
pub fn only<X: Drop>(found: Option<X>, seen: Seen) -> Typing<X>
    ensures { result ≡ only_found found seen }
{
    match found {
        Some(x) => Typing::Found(x, seen),
        None => Typing::Nothing,
    }
}

/// A value of a type, if there is one.
pub fn is(found: Option<Type>, seen: Seen) -> Typing<Subject>
    ensures { result ≡ is_whole (only_found found seen) }
{
    match found {
        Some(t) => Typing::Found(Subject::Whole(t), seen),
        None => Typing::Nothing,
    }
}

/// A value of the type that is found.
pub(crate) fn as_subject(finding: Finding<Type>) -> Typing<Subject>
    ensures { result ≡ is_whole (in_finding finding) }
{
    match finding {
        Finding::Found(t, rank) => is(Some(t), Seen::from_rank(rank)),
        Finding::Nothing => Typing::Nothing,
        Finding::Open(pending) => Typing::Open(pending),
    }
}

/// A value of a kind.
pub fn of_kind(world: &World<'_>, kind: Kind) -> Result<Typing<Subject>, Memory>
    ensures { IfOk result (λ found. found ≡ is_whole (only_found (Some (kind_type kind)) (record { rank = 0; right = Some 0 }))) }
{
    Ok(is(
        Some(world.names.kind(world.alloc, kind)?),
        Seen::from_rank(0),
    ))
}

/// A member of a value.
pub fn member_of(found: Typing<Type>, name: &Text) -> Result<Typing<Subject>, Memory>
    ensures { IfOk result (λ typing. typing ≡ named_typing found name.now) }
{
    match found {
        Typing::Found(t, seen) => Ok(Typing::Found(Subject::Named(t, name.share()?), seen)),
        Typing::Nothing => Ok(Typing::Nothing),
        Typing::Open(pending) => Ok(Typing::Open(pending)),
    }
}
