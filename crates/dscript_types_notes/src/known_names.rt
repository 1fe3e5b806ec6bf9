//! Names of types that need no declaration.
ghost use Rattle.std.specs.Prelude.{◌≡◌, ◌∷◌, [], IfOk, find};
ghost use Rattle.std.specs.Str.{bytes_eq};
ghost use Rattle.dscript_types_meaning.specs.Annotations as rules;
ghost use Rattle.dscript_types_notes.specs.KnownNames.{type_named, written_name};

use crate::names::TypeNames;
use bx_tree::{Memory, Text};
use dscript_types_data::Type;
use dscript_types_meaning::Kind;
use std::alloc::Global;

/// A name that needs no declaration.
#[derive(Clone, Copy)]
pub(crate) enum KnownName {
    Boolean,
    Number,
    String,
    Path,
    File,
    Directory,
    RelativePath,
    PathAtom,
    Seal,
    Opaque,
    StaticDirectory,
    Process,
    TransformerExecuteResult,
    Artifact,
    Argument,
    Void,
    Never,
}

/// All such names.
const KNOWN_NAMES: [KnownName; 17] = [
    KnownName::Boolean,
    KnownName::Number,
    KnownName::String,
    KnownName::Path,
    KnownName::File,
    KnownName::Directory,
    KnownName::RelativePath,
    KnownName::PathAtom,
    KnownName::Seal,
    KnownName::Opaque,
    KnownName::StaticDirectory,
    KnownName::Process,
    KnownName::TransformerExecuteResult,
    KnownName::Artifact,
    KnownName::Argument,
    KnownName::Void,
    KnownName::Never,
];

impl KnownName {
    // The name as it is written.
    #[tactic(auto, unfolding(crate::specs::KnownNames::written_name))]
    fn name(self) -> &'static str
        ensures { result.now ≡ written_name self }
    {
        match self {
            KnownName::Boolean => "boolean",
            KnownName::Number => "number",
            KnownName::String => "string",
            KnownName::Path => "Path",
            KnownName::File => "File",
            KnownName::Directory => "Directory",
            KnownName::RelativePath => "RelativePath",
            KnownName::PathAtom => "PathAtom",
            KnownName::Seal => "Seal",
            KnownName::Opaque => "Opaque",
            KnownName::StaticDirectory => "StaticDirectory",
            KnownName::Process => "Process",
            KnownName::TransformerExecuteResult => "TransformerExecuteResult",
            KnownName::Artifact => "Artifact",
            KnownName::Argument => "Argument",
            KnownName::Void => "void",
            KnownName::Never => "never",
        }
    }

    // What the name means.
    fn type_of(self, types: &TypeNames, alloc: Global) -> Result<Type, Memory>
        ensures { IfOk result (λ t. t ≡ type_named self) }
    {
        match self {
            KnownName::Boolean => types.kind(alloc, Kind::Boolean),
            KnownName::Number => types.kind(alloc, Kind::Number),
            KnownName::String => types.kind(alloc, Kind::String),
            KnownName::Path => types.kind(alloc, Kind::Path),
            KnownName::File => types.kind(alloc, Kind::File),
            KnownName::Directory => types.kind(alloc, Kind::Directory),
            KnownName::RelativePath => types.kind(alloc, Kind::RelativePath),
            KnownName::PathAtom => types.kind(alloc, Kind::PathAtom),
            KnownName::Seal => types.kind(alloc, Kind::Seal),
            KnownName::Opaque => types.kind(alloc, Kind::Opaque),
            KnownName::StaticDirectory => Type::of_kinds(alloc, &[Kind::Seal, Kind::Opaque]),
            KnownName::Process | KnownName::TransformerExecuteResult => {
                types.kind(alloc, Kind::Process)
            }
            KnownName::Artifact => types.kind(alloc, Kind::Artifact),
            KnownName::Argument => types.kind(alloc, Kind::Argument),
            KnownName::Void => types.kind(alloc, Kind::Undefined),
            KnownName::Never => Type::never(alloc),
        }
    }
}

// The first of these with a name.
fn find_name(names: &[KnownName], name: &[u8]) -> Option<KnownName>
    ensures { result ≡ find (λ known. bytes_eq (written_name known) name.now) names.now }
{
    'names: for known in names {
        if known.name().as_bytes() == name {
            return Some(*known);
        }
    }
    None
}

// What a name means without type arguments.
fn plain_name(types: &TypeNames, alloc: Global, name: &[u8]) -> Result<Option<Type>, Memory>
    ensures { IfOk result (λ t. t ≡ rules.known_name name.now []) }
{
    match find_name(&KNOWN_NAMES, name) {
        Some(known) => Ok(Some(known.type_of(types, alloc)?)),
        None => Ok(None),
    }
}

// What a name means with one type argument or more: `Array` takes one.
fn array_name(
    alloc: Global,
    name: &[u8],
    item: &Type,
    others: &[Type],
) -> Result<Option<Type>, Memory>
    ensures { IfOk result (λ t. t ≡ rules.known_name name.now (item.now ∷ others.now)) }
{
    if !others.is_empty() {
        return Ok(None);
    }
    if name == b"Array".as_slice() {
        Ok(Some(Type::list_of(alloc, item.share()?)?))
    } else {
        Ok(None)
    }
}

// What a name means with these type arguments.
fn known_name(
    types: &TypeNames,
    alloc: Global,
    name: &[u8],
    arguments: &[Type],
) -> Result<Option<Type>, Memory>
    ensures { IfOk result (λ t. t ≡ rules.known_name name.now arguments.now) }
{
    match arguments.split_first() {
        None => plain_name(types, alloc, name),
        Some((item, others)) => array_name(alloc, name, item, others),
    }
}

/// What a dotted name means that no declaration has, with these type arguments.
pub(crate) fn undeclared(
    types: &TypeNames,
    alloc: Global,
    names: &[Text],
    arguments: &[Type],
) -> Result<Option<Type>, Memory>
    ensures { IfOk result (λ t. t ≡ rules.undeclared names.now arguments.now) }
{
    match names.split_first() {
        None => Ok(None),
        Some((name, rest)) => {
            if !rest.is_empty() {
                return Ok(None);
            }
            known_name(types, alloc, name.bytes(), arguments)
        }
    }
}
