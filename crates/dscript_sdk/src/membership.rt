//! Members of values.
ghost use Rattle.std.specs.Prelude.{◌≡◌, ◌∷◌, ◌||◌, [], Ok, Some, IsTrue, List, ℕ, is_some, not, map};
ghost use Rattle.std.specs.Prelude.{IfErr, IfOk, MatchResult, OnErr, OnOk};
ghost use Rattle.bx_tree.specs.Paths.{Atoms};
ghost use Rattle.dscript_value.specs.declared.parts.Callee.TheVariants as callees;
ghost use Rattle.dscript_sdk_members.specs.ListMembers.{is_callback as callback, list_function};
ghost use Rattle.dscript_sdk_members.specs.Names.{member_named};
ghost use Rattle.dscript_sdk_members.specs.PathMembers.{directory_function, path_function};
ghost use Rattle.dscript_sdk_members.specs.TextMembers.{text_function};
ghost use Rattle.dscript_sdk_values.specs.Answers.{function_answer};
ghost use Rattle.dscript_sdk.specs.ProcessMembers.{process_function};
ghost use Rattle.dscript_sdk.specs.StaticMembers.{seal_function};
ghost use Rattle.dscript_sdk_members.specs.Gives.{Gives, applied};
ghost use Rattle.dscript_sdk_values.specs.Outcomes.{Refuses};
ghost use Rattle.dscript_sdk.specs.Members.{call_of_member, function_at, function_named, is_callback_named};
ghost use Rattle.dscript_sdk.specs.Members.{is_function_found};
ghost use Rattle.dscript_sdk.specs.Members.{is_callback_of, is_function_named, is_function_of, member_answer};
ghost use Rattle.dscript_sdk.specs.Members.{function_ask, function_ask_named, member_of, method_answer, method_of, noted_if};
ghost use Rattle.dscript_sdk.specs.Members.{own_member, property_at};
ghost use Rattle.dscript_sdk.specs.Members.{property_or_missing};
ghost use Rattle.dscript_sdk_pips.specs.States.{State, over_tree};
ghost use Rattle.dscript_value.specs.Plain.{Plain, plain_of};

use crate::process_members::call_process;
use crate::static_members::{ask_of_static, call_static, member_of_static};
use bx_tree::{Memory, Text};
use dscript_sdk_calls::TreeAsk;
use dscript_sdk_members::{
    Member, call_directory, call_list, call_path, call_text, member_of_file, member_of_list,
    member_of_path, member_of_text,
};
use dscript_sdk_pips::SdkState;
use dscript_sdk_values::SdkFault;
use dscript_value::{DepthFault, StaticDir, Value, member_of as function_of};
use std::alloc::Global;

fn call_function(
    alloc: Global,
    state: &SdkState,
    value: &Value,
    member: Member,
    args: &[Value],
) -> Result<Option<Value>, SdkFault>
    ensures { Gives
        (applied (function_at (over_tree state.now) member (plain_of value.now)) (map plain_of args.now)) result }
{
    match value {
        Value::Text(text) => call_text(alloc, text, member, args),
        Value::List(values) => call_list(alloc, values, member, args),
        Value::Path(path) => call_path(alloc, path, member, args),
        Value::File(file) => call_path(alloc, file.path(), member, args),
        Value::Directory(path) => call_directory(alloc, path, member, args),
        Value::Static(dir) => call_static(alloc, state, dir, member, args),
        Value::Process(number) => call_process(state, *number, member, args),
        Value::Undefined | Value::Flag(_) | Value::Number(_) => Ok(None),
        Value::Relative(_) | Value::Atom(_) | Value::Object(_) => Ok(None),
        Value::Function(_) | Value::Artifact(_) | Value::Argument(_) => Ok(None),
    }
}

// A member that is no function.
fn property(alloc: Global, value: &Value, member: Member) -> Result<Option<Value>, SdkFault>
    ensures { Gives (property_at member (plain_of value.now)) result }
{
    match value {
        Value::Text(text) => member_of_text(text, member),
        Value::List(values) => member_of_list(values, member),
        Value::Path(path) | Value::Directory(path) => member_of_path(alloc, path, member),
        Value::File(file) => member_of_file(alloc, file.path(), member),
        Value::Static(dir) => member_of_static(dir, member),
        Value::Undefined | Value::Flag(_) | Value::Number(_) => Ok(None),
        Value::Relative(_) | Value::Atom(_) | Value::Object(_) => Ok(None),
        Value::Function(_) | Value::Process(_) => Ok(None),
        Value::Artifact(_) | Value::Argument(_) => Ok(None),
    }
}

// What an object and undefined answer for themselves.
fn own(value: &Value, name: &Text) -> Result<Option<Value>, SdkFault>
    ensures { Gives (own_member (plain_of value.now) name.now) result }
{
    match value {
        Value::Undefined => Err(SdkFault::Kind),
        Value::Object(fields) => match fields.find(name.bytes()) {
            Some(value) => Ok(Some(value.share()?)),
            None => Ok(Some(Value::Undefined)),
        },
        _ => Ok(None),
    }
}

// Whether a member of a value is a function.
#[tactic(auto, unfolding(dscript_sdk_members::specs::TextMembers::text_function, dscript_sdk_members::specs::ListMembers::list_function, dscript_sdk_members::specs::ListMembers::is_callback, dscript_sdk_members::specs::PathMembers::path_function, dscript_sdk_members::specs::PathMembers::directory_function, crate::specs::StaticMembers::static_function, crate::specs::ProcessMembers::process_function))]
fn is_function(value: &Value, member: Member) -> bool
    ensures { (s : State) → is_function_of s member (plain_of value.now) ≡ result }
{
    match value {
        Value::Text(_) => is_text_function(member),
        Value::List(_) => is_list_function(member),
        Value::Path(_) | Value::File(_) => is_path_function(member),
        Value::Directory(_) => is_directory_function(member),
        Value::Static(StaticDir::Seal(_, _)) => is_seal_function(member),
        Value::Static(StaticDir::Opaque(_, _)) => false,
        Value::Process(_) => is_process_function(member),
        Value::Undefined | Value::Flag(_) | Value::Number(_) => false,
        Value::Relative(_) | Value::Atom(_) | Value::Object(_) => false,
        Value::Function(_) | Value::Artifact(_) | Value::Argument(_) => false,
    }
}

#[tactic(auto, unfolding(dscript_sdk_members::specs::TextMembers::text_function))]
fn is_text_function(member: Member) -> bool
    ensures { (text : List ℕ) → is_some (text_function member text) ≡ result }
{
    matches!(
        member,
        Member::Contains | Member::StartsWith | Member::EndsWith | Member::Split
    )
}

#[tactic(auto, unfolding(dscript_sdk_members::specs::ListMembers::list_function, dscript_sdk_members::specs::ListMembers::is_callback))]
fn is_list_function(member: Member) -> bool
    ensures { (items : List Plain) → (callback member || is_some (list_function member items)) ≡ result }
{
    match member {
        Member::Concat | Member::Contains | Member::Join => true,
        Member::Map | Member::Filter | Member::MapMany | Member::Reduce => true,
        _ => false,
    }
}

#[tactic(auto, unfolding(dscript_sdk_members::specs::PathMembers::path_function))]
fn is_path_function(member: Member) -> bool
    ensures { (path : Atoms) → is_some (path_function member path) ≡ result }
{
    matches!(member, Member::Combine | Member::ChangeExtension)
}

#[tactic(auto, unfolding(dscript_sdk_members::specs::PathMembers::directory_function))]
fn is_directory_function(member: Member) -> bool
    ensures { (path : Atoms) → is_some (directory_function member path) ≡ result }
{
    matches!(member, Member::Combine)
}

fn is_seal_function(member: Member) -> bool
    ensures { (s : State) (number : ℕ) → is_some (seal_function s member number) ≡ result }
{
    matches!(member, Member::GetFile | Member::GetContent)
}

#[tactic(auto, unfolding(crate::specs::ProcessMembers::process_function))]
fn is_process_function(member: Member) -> bool
    ensures { (s : State) (number : ℕ) → is_some (process_function s member number) ≡ result }
{
    matches!(member, Member::GetOutputFile | Member::GetOutputDirectory)
}

fn named_member(
    alloc: Global,
    value: &Value,
    name: &Text,
    member: Member,
) -> Result<Value, SdkFault>
    ensures { (s : State) → MatchResult result
        (λ answer. member_answer s name.now (plain_of value.now) (Some member) ≡ Ok (plain_of answer))
        (λ fault. Refuses fault (member_answer s name.now (plain_of value.now) (Some member))) }
{
    if is_function(value, member) {
        return held_function(alloc, value, name);
    }
    match property(alloc, value, member)? {
        Some(answer) => Ok(answer),
        None => Err(SdkFault::Missing),
    }
}

// The member function that holds a value.
fn held_function(alloc: Global, value: &Value, name: &Text) -> Result<Value, SdkFault>
    ensures { MatchResult result
        (λ answer. function_answer (callees.Member name.now) (plain_of value.now ∷ []) ≡ Ok (plain_of answer))
        (λ fault. Refuses fault (function_answer (callees.Member name.now) (plain_of value.now ∷ []))) }
{
    match function_of(alloc, value.share()?, name.share()?) {
        Ok(function) => Ok(function),
        Err(DepthFault::TooDeep) => Err(SdkFault::Range),
        Err(DepthFault::Memory) => Err(SdkFault::Memory),
    }
}

/// What a member of a value is, or its first fault. A member function is a function that holds the value, and
/// an object has undefined where it has no such field.
#[tactic(auto, unfolding(crate::specs::Members::member_of))]
pub fn member(
    alloc: Global,
    state: &SdkState,
    value: &Value,
    name: &Text,
) -> Result<Value, SdkFault>
    ensures { MatchResult result
        (λ answer. member_of (over_tree state.now) (plain_of value.now) name.now ≡ Ok (plain_of answer))
        (λ fault. Refuses fault (member_of (over_tree state.now) (plain_of value.now) name.now)) }
{
    if let Some(answer) = own(value, name)? {
        return Ok(answer);
    }
    match Member::named(name.bytes()) {
        Some(member) => named_member(alloc, value, name, member),
        None => Err(SdkFault::Missing),
    }
}

// The call of a member function, where the value has one with this name that calls no functions.
fn call_named(
    alloc: Global,
    state: &SdkState,
    value: &Value,
    name: &Text,
    args: &[Value],
) -> Result<Option<Value>, SdkFault>
    ensures { Gives
        (applied (function_named (over_tree state.now) (plain_of value.now) (member_named name.now))
        (map plain_of args.now)) result }
{
    match Member::named(name.bytes()) {
        Some(member) => call_function(alloc, state, value, member, args),
        None => Ok(None),
    }
}

// What the call of a member function answers.
#[tactic(auto, unfolding(crate::specs::Members::method_answer))]
fn answer_of(
    alloc: Global,
    state: &SdkState,
    value: &Value,
    name: &Text,
    args: &[Value],
) -> Result<Value, SdkFault>
    ensures { MatchResult result
        (λ answer. method_answer (over_tree state.now) (plain_of value.now) name.now (map plain_of args.now)
        ≡ Ok (plain_of answer))
        (λ fault. Refuses fault
        (method_answer (over_tree state.now) (plain_of value.now) name.now (map plain_of args.now))) }
{
    if let Some(answer) = call_named(alloc, state, value, name, args)? {
        return Ok(answer);
    }
    let _ = member(alloc, state, value, name)?;
    Err(SdkFault::Kind)
}

// What the call of a member function asks.
fn ask_of_function(
    state: &SdkState,
    member: Member,
    value: &Value,
) -> Result<Option<TreeAsk>, Memory>
    ensures { IfOk result (λ ask. ask ≡ function_ask (over_tree state.now) member (plain_of value.now)) }
{
    match value {
        Value::Static(dir) => ask_of_static(state, dir, member),
        Value::Undefined | Value::Flag(_) | Value::Number(_) | Value::Text(_) => Ok(None),
        Value::List(_) | Value::Object(_) | Value::Function(_) | Value::Artifact(_) => Ok(None),
        Value::Path(_) | Value::File(_) | Value::Directory(_) | Value::Relative(_) => Ok(None),
        Value::Atom(_) | Value::Process(_) | Value::Argument(_) => Ok(None),
    }
}

// What the call of a member function asks, by the function's name.
fn ask_of(state: &SdkState, value: &Value, name: &Text) -> Result<Option<TreeAsk>, Memory>
    ensures { IfOk result (λ ask.
        ask ≡ function_ask_named (over_tree state.now) (plain_of value.now) (member_named name.now)) }
{
    match Member::named(name.bytes()) {
        Some(member) => ask_of_function(state, member, value),
        None => Ok(None),
    }
}

// Notes what a call asks, if it asks anything.
fn note_if(state: &mut SdkState, ask: Option<TreeAsk>) -> Result<(), Memory>
    ensures noted { OnOk result (over_tree state.new ≡ noted_if ask (over_tree state.old)) }
    ensures unchanged { OnErr result (state.new ≡ state.old) }
    ensures sources { state.new.sources ≡ state.old.sources }
{
    match ask {
        Some(ask) => {
            state.note(ask)?;
            Ok(())
        }
        None => Ok(()),
    }
}

/// What the call of a member function gives at its arguments, or its first fault. It changes nothing but the
/// asks, and a fault changes nothing at all. Functions that call others are for evaluation: see [`is_callback`].
/// So is the call of what a field of an object holds, which is no member function and is refused here.
#[tactic(auto, unfolding(crate::specs::Members::method_of))]
pub fn method(
    alloc: Global,
    state: &mut SdkState,
    value: &Value,
    name: &Text,
    args: &[Value],
) -> Result<Value, SdkFault>
    requires { IsTrue (not (is_callback_named name.now (plain_of value.now))) }
    ensures answer { IfOk result (λ answer.
        method_of (over_tree state.old) (plain_of value.now) name.now (map plain_of args.now)
        ≡ Ok (plain_of answer, over_tree state.new)) }
    ensures fault { IfErr result (λ fault. Refuses fault
        (method_of (over_tree state.old) (plain_of value.now) name.now (map plain_of args.now))) }
    ensures unchanged { OnErr result (state.new ≡ state.old) }
    ensures sources { state.new.sources ≡ state.old.sources }
{
    let ask = ask_of(state, value, name)?;
    let answer = answer_of(alloc, state, value, name, args)?;
    note_if(state, ask)?;
    Ok(answer)
}

/// Whether a member of a value is a function that calls functions.
#[tactic(auto, unfolding(crate::specs::Members::is_callback_named, dscript_sdk_members::specs::ListMembers::is_callback))]
pub fn is_callback(value: &Value, name: &Text) -> bool
    ensures { result ≡ is_callback_named name.now (plain_of value.now) }
{
    match (value, Member::named(name.bytes())) {
        (Value::List(_), Some(member)) => is_list_callback(member),
        _ => false,
    }
}

#[tactic(auto, unfolding(dscript_sdk_members::specs::ListMembers::is_callback))]
fn is_list_callback(member: Member) -> bool
    ensures { result ≡ callback member }
{
    matches!(
        member,
        Member::Map | Member::Filter | Member::MapMany | Member::Reduce
    )
}

/// Whether a member of a value is a function.
#[tactic(auto, unfolding(crate::specs::Members::is_function_named))]
pub fn has_function(value: &Value, name: &Text) -> bool
    ensures { (s : State) → is_function_named s (plain_of value.now) name.now ≡ result }
{
    match Member::named(name.bytes()) {
        Some(member) => is_function(value, member),
        None => false,
    }
}
