//! The types of kinds that are met most often, made once.
ghost use Rattle.std.specs.Prelude.{◌≡◌, IfOk};
ghost use Rattle.dscript_types_meaning.specs.Types.{kind_type};
ghost use Rattle.dscript_types_meaning.specs.declared.kind.Kind.TheVariants as kinds;

use bx_tree::Memory;
use dscript_types_data::Type;
use dscript_types_meaning::Kind;
use std::alloc::Global;

/// The types of some kinds.
#[derive(Drop)]
pub(crate) struct KindTypes {
    undefined: Type,
    boolean: Type,
    number: Type,
    string: Type,
    ghost undefined_made: { undefined ≡ kind_type kinds.Undefined },
    ghost boolean_made: { boolean ≡ kind_type kinds.Boolean },
    ghost number_made: { number ≡ kind_type kinds.Number },
    ghost string_made: { string ≡ kind_type kinds.String },
}

impl KindTypes {
    /// All of them.
    pub(crate) fn new(alloc: Global) -> Result<KindTypes, Memory> {
        Ok(KindTypes {
            undefined: Type::of_kind(alloc, Kind::Undefined)?,
            boolean: Type::of_kind(alloc, Kind::Boolean)?,
            number: Type::of_kind(alloc, Kind::Number)?,
            string: Type::of_kind(alloc, Kind::String)?,
        })
    }

    /// The type of a kind, shared where it was made.
    pub(crate) fn share(&self, alloc: Global, kind: Kind) -> Result<Type, Memory>
        ensures { IfOk result (λ t. t ≡ kind_type kind) }
    {
        match kind {
            Kind::Undefined => self.undefined.share(),
            Kind::Boolean => self.boolean.share(),
            Kind::Number => self.number.share(),
            Kind::String => self.string.share(),
            _ => Type::of_kind(alloc, kind),
        }
    }
}
