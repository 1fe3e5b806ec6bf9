//! What the holes of templates and of literals with a letter may hold.
ghost use Rattle.std.specs.Prelude.{◌≡◌, IfOk};
ghost use Rattle.dscript_types_meaning.specs.Expressions as rules;
ghost use Rattle.dscript_types_meaning.specs.Fits.{fits};
ghost use Rattle.dscript_types_meaning.specs.Types.{kind_type};
ghost use Rattle.dscript_types_scenes.specs.Holes.{after_typing, hole_type, leading_if};

use crate::found::{Subject, Typing};
use crate::subjects::is;
use bx_tree::{Memory, Text};
use dscript_ast::PathKind;
use dscript_types_data::Type;
use dscript_types_meaning::Kind;
use dscript_types_notes::World;
use dscript_types_rows::{may_be_in_literal, may_be_in_template, may_lead_literal};

/// What a hole may hold: what has a text in a template, what stands in a literal, or a base with which one begins.
#[derive(Clone, Copy)]
pub enum Allowed {
    InTemplate,
    InLiteral,
    LeadingLiteral,
}

/// Whether a hole may hold each value of the type.
pub fn may_hold(allowed: Allowed, t: &Type) -> bool
    ensures { result ≡ fits t.now (hole_type allowed) }
{
    match allowed {
        Allowed::InTemplate => may_be_in_template(t),
        Allowed::InLiteral => may_be_in_literal(t),
        Allowed::LeadingLiteral => may_lead_literal(t),
    }
}

/// What the first hole of a literal may hold, after a text: a base only at the very start of a path, a file or a directory.
pub fn first_hole(letter: PathKind, text: &Text) -> Allowed
    ensures { hole_type result ≡ rules.first_hole letter text.now }
{
    match letter {
        PathKind::Path => leading_if(text.bytes().is_empty()),
        PathKind::File => leading_if(text.bytes().is_empty()),
        PathKind::Directory => leading_if(text.bytes().is_empty()),
        PathKind::Relative => Allowed::InLiteral,
        PathKind::Atom => Allowed::InLiteral,
    }
}

fn leading_if(begins: bool) -> Allowed
    ensures { result ≡ leading_if begins }
{
    if begins {
        Allowed::LeadingLiteral
    } else {
        Allowed::InLiteral
    }
}

pub fn letter_kind(letter: PathKind) -> Kind
    ensures { kind_type result ≡ rules.letter_type letter }
{
    match letter {
        PathKind::Path => Kind::Path,
        PathKind::File => Kind::File,
        PathKind::Directory => Kind::Directory,
        PathKind::Relative => Kind::RelativePath,
        PathKind::Atom => Kind::PathAtom,
    }
}

/// A value of a kind, after holes.
pub fn after_holes(
    world: &World<'_>,
    found: Typing<()>,
    kind: Kind,
) -> Result<Typing<Subject>, Memory>
    ensures { IfOk result (λ typing. typing ≡ after_typing found (kind_type kind)) }
{
    match found {
        Typing::Found((), seen) => Ok(is(Some(world.names.kind(world.alloc, kind)?), seen)),
        Typing::Nothing => Ok(Typing::Nothing),
        Typing::Open(pending) => Ok(Typing::Open(pending)),
    }
}
