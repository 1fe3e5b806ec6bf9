//! What holes of templates and literals may hold.
ghost use Rattle.std.specs.Prelude.{◌≡◌};
ghost use Rattle.dscript_types_meaning.specs.Fits.{fits};
ghost use Rattle.dscript_types_meaning.specs.Operators.{leading_hole, literal_hole, template_hole};

use dscript_types_data::{Type, is_of_kinds};
use dscript_types_meaning::Kind;

/// The kinds that each hole of a literal may hold, in their order.
const LITERAL: [Kind; 4] = [
    Kind::Number,
    Kind::String,
    Kind::RelativePath,
    Kind::PathAtom,
];

/// The kinds that the hole may hold with which a path, file or directory literal begins.
const LEADING: [Kind; 7] = [
    Kind::Number,
    Kind::String,
    Kind::Path,
    Kind::File,
    Kind::Directory,
    Kind::RelativePath,
    Kind::PathAtom,
];

/// The kinds that a hole of a template may hold.
const TEMPLATE: [Kind; 8] = [
    Kind::Boolean,
    Kind::Number,
    Kind::String,
    Kind::Path,
    Kind::File,
    Kind::Directory,
    Kind::RelativePath,
    Kind::PathAtom,
];

/// Whether a hole of a literal may hold each value of the type.
pub fn may_be_in_literal(t: &Type) -> bool
    ensures { result ≡ fits t.now literal_hole }
{
    is_of_kinds(t, &LITERAL)
}

/// Whether the hole may hold each value of the type with which a path, file or directory literal begins.
pub fn may_lead_literal(t: &Type) -> bool
    ensures { result ≡ fits t.now leading_hole }
{
    is_of_kinds(t, &LEADING)
}

/// Whether a hole of a template may hold each value of the type.
pub fn may_be_in_template(t: &Type) -> bool
    ensures { result ≡ fits t.now template_hole }
{
    is_of_kinds(t, &TEMPLATE)
}
