//! Expressions that are made of no others, and what lists, objects, members, indices and calls give.
ghost use Rattle.std.specs.Prelude.{◌≡◌, ◌-◌, ◌∷◌, ◌++◌, [], true, false, is_some, nat_lt, map, slice_get, IfSome, Ok};
ghost use Rattle.std.specs.Prelude.{None, Some};
ghost use Rattle.bx_tree.specs.Paths.{Atoms};
ghost use Rattle.dscript_program.specs.BoundTree as tree;
ghost use Rattle.dscript_program.specs.BoundTree.{to_holes};
ghost use Rattle.dscript_value.specs.Plain as plain;
ghost use Rattle.dscript_value.specs.declared.parts.Callee.TheVariants as callees;
ghost use Rattle.dscript_program.specs.Views.{expr_data, hole_data, prop_data};
ghost use Rattle.dscript_value.specs.Plain.{Plain, plain_field, plain_of};
ghost use Rattle.dscript_sdk_values.specs.Answers.{function_answer, list_answer, text_answer};
ghost use Rattle.dscript_sdk_values.specs.Outcomes.{Outcome};
ghost use Rattle.dscript_sdk_pips.specs.States.{State};
ghost use Rattle.dscript_sdk.specs.Calls.{call_of};
ghost use Rattle.dscript_sdk.specs.Members.{is_function_named, member_of};
ghost use Rattle.dscript_eval_operators.specs.Indexing.{indexed};
ghost use Rattle.dscript_eval_operators.specs.PathLiterals.{path_literal};
ghost use Rattle.dscript_eval_meaning.specs.Constants.{status_in};
ghost use Rattle.dscript_eval_meaning.specs.States.{Done};
ghost use Rattle.dscript_eval_frames.specs.Consts.{const_in};
ghost use Rattle.dscript_eval_frames.specs.Made.{Answers, object_answer};
ghost use Rattle.dscript_eval_frames.specs.Statuses.{statuses};
ghost use Rattle.dscript_eval_direct.specs.Now.{IsAtOnce, callee_of, directory_in, is_rooted};
ghost use Rattle.dscript_eval_direct.specs.Now.{knowledge, name_and_value};

use crate::known::Known;
use bx_tree::{Path, Text};
use dscript_ast::PathKind;
use dscript_eval_frames::{
    Status, const_at, directory_of, object_value, path_of, status_at, text_of,
};
use dscript_eval_operators::{index, path_literal};
use dscript_program::{Ambient, BoundExpr, BoundHole, BoundProp, Program, Target};
use dscript_sdk_calls::{
    artifact_input, artifact_none, artifact_output, cmd_argument, cmd_flag, cmd_option,
};
use dscript_sdk_values::{SdkFault, list_value};
use dscript_value::{Callee, Field, Value, ambient_function};
use std::alloc::Global;

// A number, as a value.
pub(crate) fn number_value(number: i32) -> Value
    ensures { plain_of result ≡ plain.Number number }
{
    Value::Number(number)
}

// A flag, as a value.
pub(crate) fn flag_value(flag: bool) -> Value
    ensures { plain_of result ≡ plain.Flag flag }
{
    Value::Flag(flag)
}

/// What a number gives, and the steps that are left.
pub fn number_now(known: &Known<'_>, number: i32, left: u64) -> Option<(Value, u64)>
    ensures { IfSome result (λ r. IsAtOnce (knowledge known.now) (tree.Number number) left
        (plain_of r.0) r.1) }
{
    let after = left.checked_sub(1)?;
    let value = number_value(number);
    Some((value, after))
}

// The value with this number, shared, if there is one.
fn shared_at(known: &[Value], number: usize) -> Option<Value>
    ensures { IfSome result (λ x. slice_get (map plain_of known.now) number ≡ Some (plain_of x)) }
{
    match known.get(number) {
        Some(value) => match value.share() {
            Ok(value) => Some(value),
            Err(_) => None,
        },
        None => None,
    }
}

// What a local holds.
fn local_now(known: &Known<'_>, local: u32) -> Option<Value>
    ensures own { IfSome result (λ x. nat_lt local known.now.first ≡ false) }
    ensures held { IfSome result (λ x.
        slice_get (map plain_of known.now.own.now) (local - known.now.first) ≡ Some (plain_of x)) }
{
    if local < known.first {
        return None;
    }
    shared_at(known.own, (local - known.first) as usize)
}

// Whether the declaration with a number in a file is a constant.
fn is_constant(program: &Program, file: u32, decl: u32) -> bool
    ensures { result ≡ is_some (const_in program.now file decl) }
{
    match const_at(program, file, decl) {
        Some(_) => true,
        None => false,
    }
}

// The value of a constant, if it was evaluated.
fn constant_now(known: &Known<'_>, file: u32, decl: u32) -> Option<Value>
    ensures constant { IfSome result (λ x. is_some (const_in known.now.program.now file decl) ≡ true) }
    ensures value { IfSome result (λ x.
        status_in (statuses known.now.constants.now) file decl ≡ Done (plain_of x)) }
{
    if !is_constant(known.program, file, decl) {
        return None;
    }
    let Some(Status::Done(value)) = status_at(known.constants, file, decl) else {
        return None;
    };
    match value.share() {
        Ok(value) => Some(value),
        Err(_) => None,
    }
}

// An ambient call, as a value.
fn call_value(alloc: Global, call: Ambient) -> Option<Value>
    ensures { IfSome result (λ x. function_answer (callees.Ambient call) [] ≡ Ok (plain_of x)) }
{
    match ambient_function(alloc, call) {
        Ok(function) => Some(function),
        Err(_) => None,
    }
}

/// What a name gives, and the steps that are left.
pub fn named_now(
    alloc: Global,
    known: &Known<'_>,
    target: Target,
    left: u64,
) -> Option<(Value, u64)>
    ensures { IfSome result (λ r. IsAtOnce (knowledge known.now) (tree.Name target) left
        (plain_of r.0) r.1) }
{
    let after = left.checked_sub(1)?;
    match target {
        Target::Local(local) => {
            let value = local_now(known, local)?;
            Some((value, after))
        }
        Target::Declared { file, decl } => {
            let value = constant_now(known, file, decl)?;
            Some((value, after))
        }
        Target::Ambient(call) => {
            let value = call_value(alloc, call)?;
            Some((value, after))
        }
    }
}

// A text, as a value.
fn text_value(text: &Text) -> Option<Value>
    ensures { IfSome result (λ x. text_answer text.now ≡ Ok (plain_of x)) }
{
    match text_of(text) {
        Ok(value) => Some(value),
        Err(_) => None,
    }
}

/// What a text gives, and the steps that are left.
pub fn text_now(known: &Known<'_>, text: &Text, left: u64) -> Option<(Value, u64)>
    ensures { IfSome result (λ r. IsAtOnce (knowledge known.now) (tree.Str text.now) left
        (plain_of r.0) r.1) }
{
    let after = left.checked_sub(1)?;
    let value = text_value(text)?;
    Some((value, after))
}

fn is_rooted(letter: PathKind) -> bool
    ensures { result ≡ is_rooted letter }
{
    match letter {
        PathKind::Path | PathKind::File | PathKind::Directory => true,
        PathKind::Relative | PathKind::Atom => false,
    }
}

// The directory of the file of the running body.
fn directory_now(alloc: Global, known: &Known<'_>) -> Option<Path>
    ensures { IfSome result (λ dir. dir ≡ directory_in (knowledge known.now)) }
{
    let Ok(file) = path_of(alloc, known.program, known.file) else {
        return None;
    };
    match directory_of(alloc, &file) {
        Ok(dir) => Some(dir),
        Err(_) => None,
    }
}

// What a path, file or directory literal of this text gives.
fn rooted_now(alloc: Global, known: &Known<'_>, letter: PathKind, text: &Text) -> Option<Value>
    ensures { IfSome result (λ x.
        path_literal letter (directory_in (knowledge known.now)) None text.now ≡ Ok (plain_of x)) }
{
    let dir = directory_now(alloc, known)?;
    match path_literal(alloc, letter, &dir, None, text.bytes()) {
        Ok(value) => Some(value),
        Err(_) => None,
    }
}

/// What a path, file or directory literal without holes gives, and the steps that are left.
pub fn path_now(
    alloc: Global,
    known: &Known<'_>,
    letter: PathKind,
    text: &Text,
    holes: &[BoundHole],
    left: u64,
) -> Option<(Value, u64)>
    ensures { IfSome result (λ r. IsAtOnce (knowledge known.now)
        (tree.Path letter text.now (to_holes (map hole_data holes.now))) left (plain_of r.0) r.1) }
{
    if !holes.is_empty() {
        return None;
    }
    if !is_rooted(letter) {
        return None;
    }
    let after = left.checked_sub(1)?;
    let value = rooted_now(alloc, known, letter, text)?;
    Some((value, after))
}

/// The ambient call that a value is, if it is one that changes nothing.
pub fn plain_call(value: &Value) -> Option<Ambient>
    ensures { IfSome result (λ name. callee_of (plain_of value.now) ≡ Some (callees.Ambient name)) }
{
    let Value::Function(function) = value else {
        return None;
    };
    let Callee::Ambient(name) = function.callee() else {
        return None;
    };
    match name {
        Ambient::CmdArgument
        | Ambient::CmdOption
        | Ambient::CmdFlag
        | Ambient::ArtifactInput
        | Ambient::ArtifactOutput
        | Ambient::ArtifactNone => Some(*name),
        _ => None,
    }
}

// What a call comes to, if that is a value.
fn made(outcome: Result<Value, SdkFault>) -> Option<Value>
    ensures { (o : Outcome Plain) → Answers outcome o → IfSome result (λ x. o ≡ Ok (plain_of x)) }
{
    match outcome {
        Ok(value) => Some(value),
        Err(_) => None,
    }
}

/// What an ambient call that changes nothing gives.
pub fn called_now(alloc: Global, name: Ambient, args: &[Value]) -> Option<Value>
    ensures { IfSome result (λ x. (spec : Atoms) (s : State)
        → call_of name spec (map plain_of args.now) s ≡ Ok (plain_of x, s)) }
{
    match name {
        Ambient::CmdArgument => made(cmd_argument(alloc, args)),
        Ambient::CmdOption => made(cmd_option(alloc, args)),
        Ambient::CmdFlag => made(cmd_flag(alloc, args)),
        Ambient::ArtifactInput => made(artifact_input(alloc, args)),
        Ambient::ArtifactOutput => made(artifact_output(args)),
        Ambient::ArtifactNone => made(artifact_none(args)),
        _ => None,
    }
}

/// The name and the expression of a property that has both.
#[tactic(auto, using(dscript_program::proofs::NodeViews::bound_views))]
pub fn named_parts(property: &BoundProp) -> Option<(&Text, &BoundExpr)>
    ensures { IfSome result (λ it. name_and_value (prop_data property.now)
        ≡ Some (it.0.now, expr_data it.1.now)) }
{
    match property {
        BoundProp::Named(name, e) => Some((name, e)),
        BoundProp::Quoted(name, e) => Some((name, e)),
        BoundProp::Short(..) | BoundProp::Spread(_) => None,
    }
}

/// Room for so many, if there is memory.
pub fn room_for<T: Drop>(alloc: Global, count: usize) -> Option<Vec<T>>
    ensures { IfSome result (λ room. room.items ≡ []) }
{
    match Vec::with_capacity(alloc, count) {
        Ok(room) => Some(room),
        Err(_) => None,
    }
}

/// Adds an item to those of a list, if there is memory.
pub fn add_item(items: &mut Vec<Value>, value: Value) -> bool
    ensures { result ≡ true → map plain_of items.new.items ≡ map plain_of items.old.items ++ plain_of value ∷ [] }
{
    match items.push(value) {
        Ok(()) => true,
        Err(_) => false,
    }
}

// A field with this name, shared, and this value.
fn field_of(name: &Text, value: Value) -> Option<Field>
    ensures { IfSome result (λ field. plain_field field ≡ (name.now, plain_of value)) }
{
    match name.share() {
        Ok(name) => Some(Field { name, value }),
        Err(_) => {
            drop(value);
            None
        }
    }
}

/// Adds a field to those of an object, if there is memory.
pub fn add_field(fields: &mut Vec<Field>, name: &Text, value: Value) -> bool
    ensures { result ≡ true → map plain_field fields.new.items
        ≡ map plain_field fields.old.items ++ (name.now, plain_of value) ∷ [] }
{
    let Some(field) = field_of(name, value) else {
        return false;
    };
    match fields.push(field) {
        Ok(()) => true,
        Err(_) => false,
    }
}

/// A list of these items, if it is not too deep.
pub fn list_now(alloc: Global, items: Vec<Value>) -> Option<Value>
    ensures { IfSome result (λ x. list_answer (map plain_of items.items) ≡ Ok (plain_of x)) }
{
    match list_value(alloc, items) {
        Ok(value) => Some(value),
        Err(_) => None,
    }
}

/// An object of these fields, if it is not too deep.
pub fn object_now(alloc: Global, fields: Vec<Field>) -> Option<Value>
    ensures { IfSome result (λ x. object_answer (map plain_field fields.items) ≡ Ok (plain_of x)) }
{
    match object_value(alloc, fields) {
        Ok(value) => Some(value),
        Err(_) => None,
    }
}

/// What an object has in the field with a name.
#[tactic(auto, using(crate::proofs::Makes::no_function), unfolding(dscript_sdk::specs::Members::member_of, dscript_sdk::specs::Members::is_function_named))]
pub fn field_in(value: &Value, name: &Text) -> Option<Value>
    ensures other { IfSome result (λ x. (s : State) → is_function_named s (plain_of value.now) name.now ≡ false) }
    ensures value { IfSome result (λ x. (s : State) → member_of s (plain_of value.now) name.now ≡ Ok (plain_of x)) }
{
    match value {
        Value::Object(fields) => match fields.find(name.bytes()) {
            Some(found) => match found.share() {
                Ok(found) => Some(found),
                Err(_) => None,
            },
            None => Some(Value::Undefined),
        },
        _ => None,
    }
}

/// What a value has at an index.
pub fn indexed_now(value: Value, at: Value) -> Option<Value>
    ensures { IfSome result (λ x. indexed (plain_of value) (plain_of at) ≡ Ok (plain_of x)) }
{
    let outcome = index(&value, &at);
    drop(value);
    drop(at);
    match outcome {
        Ok(found) => Some(found),
        Err(_) => None,
    }
}
