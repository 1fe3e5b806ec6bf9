//! What calls take and answer.
ghost use Rattle.std.specs.Prelude.{◌≡◌, ◌∷◌, [], IfOk, map};
ghost use Rattle.std.specs.Option.{option_map};
ghost use Rattle.dscript_types_data.specs.Views.{field_data};
ghost use Rattle.dscript_types_meaning.specs.Access as rules;
ghost use Rattle.dscript_types_meaning.specs.Ambients as calls;
ghost use Rattle.dscript_types_meaning.specs.Objects as objects;
ghost use Rattle.dscript_types_meaning.specs.Annotations.{static_type};
ghost use Rattle.dscript_types_meaning.specs.Operators.{boolean_type, text_type};
ghost use Rattle.dscript_types_meaning.specs.Types.{kind_type, list_type};
ghost use Rattle.dscript_types_meaning.specs.Unions as unions;
ghost use Rattle.dscript_types_meaning.specs.declared.kind.Kind.TheVariants as kinds;
ghost use Rattle.dscript_types_rows.specs.Signatures.{file_fields, further_fields, process_fields, signature_data};

use bx_tree::{Memory, Text};
use dscript_program::Ambient;
use dscript_sdk_members::Member as ValueMember;
use dscript_types_data::{Field, Type, fits, join, put_fields};
use dscript_types_meaning::Kind;
use std::alloc::Global;

/// The types of arguments, and what is answered.
#[derive(Drop)]
pub(crate) struct Signature {
    pub takes: Vec<Type>,
    pub answers: Type,
}

// One argument of a kind.
fn takes_one(alloc: Global, argument: Kind, answers: Type) -> Result<Signature, Memory>
    ensures { IfOk result (λ s. signature_data s ≡ calls.takes (kind_type argument ∷ []) answers) }
{
    Ok(Signature {
        takes: vec![in alloc; Type::of_kind(alloc, argument)?]?,
        answers,
    })
}

// Two arguments.
fn takes_two(alloc: Global, first: Type, second: Type, answers: Kind) -> Result<Signature, Memory>
    ensures { IfOk result (λ s. signature_data s ≡ calls.takes (first ∷ second ∷ []) (kind_type answers)) }
{
    Ok(Signature {
        takes: vec![in alloc; first, second]?,
        answers: Type::of_kind(alloc, answers)?,
    })
}

// The lists of a kind.
fn list_of(alloc: Global, kind: Kind) -> Result<Type, Memory>
    ensures { IfOk result (λ t. t ≡ list_type (kind_type kind)) }
{
    Type::list_of(alloc, Type::of_kind(alloc, kind)?)
}

fn method_of_text(alloc: Global, member: ValueMember) -> Result<Option<Signature>, Memory>
    ensures { IfOk result (λ s. option_map signature_data s ≡ rules.method_of_kind kinds.String member) }
{
    match member {
        ValueMember::Contains | ValueMember::StartsWith | ValueMember::EndsWith => {
            Ok(Some(takes_one(alloc, Kind::String, Type::of_kind(alloc, Kind::Boolean)?)?))
        }
        ValueMember::Split => Ok(Some(takes_one(
            alloc,
            Kind::String,
            list_of(alloc, Kind::String)?,
        )?)),
        _ => Ok(None),
    }
}

fn method_of_path(alloc: Global, member: ValueMember) -> Result<Option<Signature>, Memory>
    ensures { IfOk result (λ s. option_map signature_data s ≡ rules.method_of_kind kinds.Path member) }
{
    match member {
        ValueMember::Combine | ValueMember::ChangeExtension => {
            Ok(Some(takes_one(alloc, Kind::String, Type::of_kind(alloc, Kind::Path)?)?))
        }
        _ => Ok(None),
    }
}

fn method_of_directory(alloc: Global, member: ValueMember) -> Result<Option<Signature>, Memory>
    ensures { IfOk result (λ s. option_map signature_data s ≡ rules.method_of_kind kinds.Directory member) }
{
    match member {
        ValueMember::Combine => Ok(Some(takes_one(
            alloc,
            Kind::String,
            Type::of_kind(alloc, Kind::Path)?,
        )?)),
        _ => Ok(None),
    }
}

fn method_of_seal(alloc: Global, member: ValueMember) -> Result<Option<Signature>, Memory>
    ensures { IfOk result (λ s. option_map signature_data s ≡ rules.method_of_kind kinds.Seal member) }
{
    match member {
        ValueMember::GetFile => Ok(Some(takes_one(
            alloc,
            Kind::Path,
            Type::of_kind(alloc, Kind::File)?,
        )?)),
        ValueMember::GetContent => Ok(Some(Signature {
            takes: Vec::new(alloc),
            answers: list_of(alloc, Kind::File)?,
        })),
        _ => Ok(None),
    }
}

fn method_of_process(alloc: Global, member: ValueMember) -> Result<Option<Signature>, Memory>
    ensures { IfOk result (λ s. option_map signature_data s ≡ rules.method_of_kind kinds.Process member) }
{
    match member {
        ValueMember::GetOutputFile => Ok(Some(takes_one(
            alloc,
            Kind::Path,
            Type::of_kind(alloc, Kind::File)?,
        )?)),
        ValueMember::GetOutputDirectory => {
            Ok(Some(takes_one(alloc, Kind::Directory, Type::of_kind(alloc, Kind::Opaque)?)?))
        }
        _ => Ok(None),
    }
}

/// The member function of a kind of values.
pub(crate) fn method_of_kind(
    alloc: Global,
    on: Kind,
    member: ValueMember,
) -> Result<Option<Signature>, Memory>
    ensures { IfOk result (λ s. option_map signature_data s ≡ rules.method_of_kind on member) }
{
    match on {
        Kind::String => method_of_text(alloc, member),
        Kind::Path | Kind::File => method_of_path(alloc, member),
        Kind::Directory => method_of_directory(alloc, member),
        Kind::Seal => method_of_seal(alloc, member),
        Kind::Process => method_of_process(alloc, member),
        _ => Ok(None),
    }
}

// Whether given arguments fit what is taken. Missing ones pass, and further ones are free.
fn arguments_fit(takes: &[Type], given: &[Type]) -> bool
    ensures { result ≡ rules.arguments_fit takes.now given.now }
{
    let mut left = takes;
    let mut right = given;
    'arguments: while let Some((taken, more)) = left.split_first() {
        let Some((t, rest)) = right.split_first() else {
            return true;
        };
        if !fits(t, taken) {
            return false;
        }
        left = more;
        right = rest;
    }
    true
}

/// What a call answers at arguments of these types, if they fit.
pub(crate) fn answer_of(given: &[Type], signature: Signature) -> Option<Type>
    ensures { result ≡ rules.answer_of given.now (signature_data signature) }
{
    if arguments_fit(signature.takes.as_slice(), given) {
        Some(signature.answers)
    } else {
        None
    }
}

// A field that holds a value.
fn holding(alloc: Global, name: &[u8], t: Type) -> Result<Field, Memory>
    ensures { IfOk result (λ f. field_data f ≡ objects.holding name.now t) }
{
    Ok(Field {
        name: Text::new(alloc, name.to_vec(alloc)?)?,
        optional: false,
        type_data: t,
    })
}

// A field that may be missing.
fn optional(alloc: Global, name: &[u8], t: Type) -> Result<Field, Memory>
    ensures { IfOk result (λ f. field_data f ≡ calls.optional_field name.now t) }
{
    Ok(Field {
        name: Text::new(alloc, name.to_vec(alloc)?)?,
        optional: true,
        type_data: t,
    })
}

// The objects with these fields.
fn object_of(alloc: Global, fields: Vec<Field>) -> Result<Type, Memory>
    ensures { IfOk result (λ t. t ≡ calls.object_of (map field_data fields.items)) }
{
    let mut done = Vec::new(alloc);
    put_fields(&mut done, fields)?;
    Type::object_of(alloc, done)
}

// What `Transformer.writeAllText` takes.
fn written_text(alloc: Global) -> Result<Type, Memory>
    ensures { IfOk result (λ t. t ≡ calls.written_text) }
{
    let path = holding(alloc, b"outputPath", Type::of_kind(alloc, Kind::Path)?)?;
    let text = holding(alloc, b"text", Type::of_kind(alloc, Kind::String)?)?;
    object_of(alloc, vec![in alloc; path, text]?)
}

// What `Transformer.writeAllLines` takes.
fn written_lines(alloc: Global) -> Result<Type, Memory>
    ensures { IfOk result (λ t. t ≡ calls.written_lines) }
{
    let path = holding(alloc, b"outputPath", Type::of_kind(alloc, Kind::Path)?)?;
    let lines = holding(alloc, b"lines", list_of(alloc, Kind::String)?)?;
    object_of(alloc, vec![in alloc; path, lines]?)
}

// The executable of a process.
fn tool(alloc: Global) -> Result<Type, Memory>
    ensures { IfOk result (λ t. t ≡ calls.tool) }
{
    let file = holding(alloc, b"exe", Type::of_kind(alloc, Kind::File)?)?;
    let description = optional(alloc, b"description", Type::of_kind(alloc, Kind::String)?)?;
    object_of(alloc, vec![in alloc; file, description]?)
}

// An environment variable of a process.
fn variable(alloc: Global) -> Result<Type, Memory>
    ensures { IfOk result (λ t. t ≡ calls.variable) }
{
    let name = holding(alloc, b"name", Type::of_kind(alloc, Kind::String)?)?;
    let value = holding(alloc, b"value", Type::of_kind(alloc, Kind::String)?)?;
    object_of(alloc, vec![in alloc; name, value]?)
}

// A directory that processes share.
fn shared_directory(alloc: Global) -> Result<Type, Memory>
    ensures { IfOk result (λ t. t ≡ calls.shared_directory) }
{
    let kind = holding(alloc, b"kind", Type::of_kind(alloc, Kind::String)?)?;
    let directory = holding(alloc, b"directory", Type::of_kind(alloc, Kind::Directory)?)?;
    object_of(alloc, vec![in alloc; kind, directory]?)
}

// An output of a process: a file, a directory, or one that it shares with others.
fn process_output(alloc: Global) -> Result<Type, Memory>
    ensures { IfOk result (λ t. t ≡ calls.process_output) }
{
    let path = Type::of_kind(alloc, Kind::Path)?;
    let directory = Type::of_kind(alloc, Kind::Directory)?;
    let shared = shared_directory(alloc)?;
    let directories = join(alloc, &directory, &shared)?;
    join(alloc, &path, &directories)
}

// The files and static directories that a call takes.
fn inputs(alloc: Global) -> Result<Type, Memory>
    ensures { IfOk result (λ t. t ≡ unions.join calls.file_type static_type) }
{
    Type::of_kinds(alloc, &[Kind::File, Kind::Seal, Kind::Opaque])
}

// What an argument of a process may be made of.
fn argument_value(alloc: Global) -> Result<Type, Memory>
    ensures { IfOk result (λ t. t ≡ calls.argument_value) }
{
    Type::of_kinds(
        alloc,
        &[
            Kind::Undefined,
            Kind::Number,
            Kind::String,
            Kind::Path,
            Kind::File,
            Kind::Directory,
            Kind::PathAtom,
            Kind::Artifact,
        ],
    )
}

// A text, or nothing.
fn text_if_any(alloc: Global) -> Result<Type, Memory>
    ensures { IfOk result (λ t. t ≡ unions.with_undefined text_type) }
{
    Type::of_kinds(alloc, &[Kind::Undefined, Kind::String])
}

// A boolean, or nothing.
fn flag_if_any(alloc: Global) -> Result<Type, Memory>
    ensures { IfOk result (λ t. t ≡ unions.with_undefined boolean_type) }
{
    Type::of_kinds(alloc, &[Kind::Undefined, Kind::Boolean])
}

// A path or a directory.
fn path_or_directory(alloc: Global) -> Result<Type, Memory>
    ensures { IfOk result (λ t. t ≡ unions.join calls.path_type calls.directory_type) }
{
    Type::of_kinds(alloc, &[Kind::Path, Kind::Directory])
}

// A path, a file or a directory.
fn path_file_or_directory(alloc: Global) -> Result<Type, Memory>
    ensures { IfOk result (λ t. t ≡ unions.join calls.path_type (unions.join calls.file_type calls.directory_type)) }
{
    Type::of_kinds(alloc, &[Kind::Path, Kind::File, Kind::Directory])
}

// The tool of a process, its arguments, and where it runs.
fn process_fields(alloc: Global) -> Result<Vec<Field>, Memory>
    ensures { IfOk result (λ fs. map field_data fs.items ≡ process_fields) }
{
    let file = holding(alloc, b"tool", tool(alloc)?)?;
    let arguments = optional(alloc, b"arguments", list_of(alloc, Kind::Argument)?)?;
    let directory = optional(
        alloc,
        b"workingDirectory",
        Type::of_kind(alloc, Kind::Directory)?,
    )?;
    Ok(vec![in alloc; file, arguments, directory]?)
}

// What a process reads and writes.
fn file_fields(alloc: Global) -> Result<Vec<Field>, Memory>
    ensures { IfOk result (λ fs. map field_data fs.items ≡ file_fields) }
{
    let read = optional(
        alloc,
        b"dependencies",
        Type::list_of(alloc, inputs(alloc)?)?,
    )?;
    let written = optional(
        alloc,
        b"outputs",
        Type::list_of(alloc, process_output(alloc)?)?,
    )?;
    Ok(vec![in alloc; read, written]?)
}

// Where what it prints goes, and its environment.
fn further_fields(alloc: Global) -> Result<Vec<Field>, Memory>
    ensures { IfOk result (λ fs. map field_data fs.items ≡ further_fields) }
{
    let console = optional(alloc, b"consoleOutput", Type::of_kind(alloc, Kind::Path)?)?;
    let variables = optional(
        alloc,
        b"environmentVariables",
        Type::list_of(alloc, variable(alloc)?)?,
    )?;
    Ok(vec![in alloc; console, variables]?)
}

// What `Transformer.execute` takes, but for the fields that may hold anything.
fn executed(alloc: Global) -> Result<Type, Memory>
    ensures { IfOk result (λ t. t ≡ calls.executed) }
{
    let mut done = Vec::new(alloc);
    put_fields(&mut done, process_fields(alloc)?)?;
    put_fields(&mut done, file_fields(alloc)?)?;
    put_fields(&mut done, further_fields(alloc)?)?;
    Type::object_of(alloc, done)
}

// A text and what may be undefined.
fn text_and(alloc: Global, other: Type) -> Result<Signature, Memory>
    ensures { IfOk result (λ s. signature_data s ≡ calls.takes (text_type ∷ other ∷ []) (kind_type kinds.Argument)) }
{
    takes_two(
        alloc,
        Type::of_kind(alloc, Kind::String)?,
        other,
        Kind::Argument,
    )
}

// A directory and a text or a list of files.
fn directory_and(alloc: Global, other: Type, answers: Kind) -> Result<Signature, Memory>
    ensures { IfOk result (λ s. signature_data s
        ≡ calls.takes (calls.directory_type ∷ other ∷ []) (kind_type answers)) }
{
    takes_two(
        alloc,
        Type::of_kind(alloc, Kind::Directory)?,
        other,
        answers,
    )
}

// One argument of a type.
fn takes_type(alloc: Global, argument: Type, answers: Type) -> Result<Signature, Memory>
    ensures { IfOk result (λ s. signature_data s ≡ calls.takes (argument ∷ []) answers) }
{
    Ok(Signature {
        takes: vec![in alloc; argument]?,
        answers,
    })
}

// The calls that make artifacts.
fn takes_artifact(alloc: Global, argument: Type) -> Result<Signature, Memory>
    ensures { IfOk result (λ s. signature_data s ≡ calls.takes (argument ∷ []) (kind_type kinds.Artifact)) }
{
    takes_type(alloc, argument, Type::of_kind(alloc, Kind::Artifact)?)
}

/// What an ambient call takes and answers.
#[tactic(auto, unfolding(dscript_types_meaning::specs::Ambients::ambient_signature))]
pub(crate) fn ambient_signature(alloc: Global, call: Ambient) -> Result<Signature, Memory>
    ensures { IfOk result (λ s. signature_data s ≡ calls.ambient_signature call) }
{
    match call {
        Ambient::WriteAllText => takes_type(
            alloc,
            written_text(alloc)?,
            Type::of_kind(alloc, Kind::File)?,
        ),
        Ambient::WriteAllLines => takes_type(
            alloc,
            written_lines(alloc)?,
            Type::of_kind(alloc, Kind::File)?,
        ),
        Ambient::CopyFile => {
            let file = Type::of_kind(alloc, Kind::File)?;
            takes_two(alloc, file, Type::of_kind(alloc, Kind::Path)?, Kind::File)
        }
        Ambient::SealDirectory | Ambient::SealPartialDirectory => {
            directory_and(alloc, list_of(alloc, Kind::File)?, Kind::Seal)
        }
        Ambient::SealSourceDirectory => { directory_and(alloc, text_if_any(alloc)?, Kind::Seal) }
        Ambient::Execute => takes_type(
            alloc,
            executed(alloc)?,
            Type::of_kind(alloc, Kind::Process)?,
        ),
        Ambient::CmdArgument => takes_type(
            alloc,
            argument_value(alloc)?,
            Type::of_kind(alloc, Kind::Argument)?,
        ),
        Ambient::CmdOption => text_and(alloc, argument_value(alloc)?),
        Ambient::CmdFlag => text_and(alloc, flag_if_any(alloc)?),
        Ambient::ArtifactInput => takes_artifact(alloc, inputs(alloc)?),
        Ambient::ArtifactOutput => { takes_artifact(alloc, path_or_directory(alloc)?) }
        Ambient::ArtifactNone => { takes_artifact(alloc, path_file_or_directory(alloc)?) }
        Ambient::NewOutputDirectory => takes_one(
            alloc,
            Kind::String,
            Type::of_kind(alloc, Kind::Directory)?,
        ),
        Ambient::Fail => takes_one(alloc, Kind::String, Type::never(alloc)?),
        Ambient::Assert | Ambient::Requires => {
            let condition = Type::of_kind(alloc, Kind::Boolean)?;
            takes_two(
                alloc,
                condition,
                Type::of_kind(alloc, Kind::String)?,
                Kind::Undefined,
            )
        }
        Ambient::Glob | Ambient::GlobRecursive => {
            let directory = Type::of_kind(alloc, Kind::Directory)?;
            let pattern = Type::of_kind(alloc, Kind::String)?;
            Ok(Signature {
                takes: vec![in alloc; directory, pattern]?,
                answers: list_of(alloc, Kind::File)?,
            })
        }
    }
}
