//! The members of paths, files and directories.
ghost use Rattle.std.specs.Prelude.{◌≡◌, ◌≢◌, ◌==◌, ◌≤◌, ◌<◌, ◌+◌, [], map, take};
ghost use Rattle.std.specs.Prelude.{IfOk, IfSome, Ok, Some, None};
ghost use Rattle.std.specs.Prelude.{length, option_map, MatchOption, MatchResult};
ghost use Rattle.std.specs.List.{last_or, slice_split};
ghost use Rattle.bx_path.specs.Joining.{join_of, parent};
ghost use Rattle.dscript_value.specs.Plain as plain;
ghost use Rattle.dscript_value.specs.Plain.{plain_of};
ghost use Rattle.dscript_sdk_values.specs.Outcomes.{Refuses, unless_none};
ghost use Rattle.dscript_sdk_members.specs.Gives.{Gives, applied};
ghost use Rattle.dscript_sdk_members.specs.PathMembers as spec;
ghost use Rattle.dscript_sdk_members.specs.PathMembers.{any_path_property, before_dot, combine_path};
ghost use Rattle.dscript_sdk_members.specs.PathMembers.{change_extension as changed_extension, directory_function};
ghost use Rattle.dscript_sdk_members.specs.PathMembers.{file_property};
ghost use Rattle.dscript_sdk_members.specs.PathMembers.{name_answer, parent_answer, path_function};

use crate::member::Member;
use bx_path::join;
use bx_tree::{Path, PathFault, Text, is_atom, split_once};
use dscript_sdk_values::{SdkFault, first_argument, read_text};
use dscript_value::Value;
use std::alloc::Global;

// The part of a text after its last `/`.
fn last_part(text: &[u8]) -> &[u8]
    ensures { last_or None (slice_split (λ b. b == 47) text.now) ≡ Some result.now }
{
    let mut rest = text;
    'parts: loop {
        match split_once(rest, b'/') {
            Some((_, after)) => rest = after,
            None => return rest,
        }
    }
}

// The last atom of a path, which the root does not have.
fn last_atom(path: &Path) -> Option<&[u8]>
    ensures { MatchOption result
        (spec.last_atom path.now ≡ None)
        (λ atom. spec.last_atom path.now ≡ Some atom.now) }
{
    let text = path.text().as_bytes();
    if text == b".".as_slice() {
        return None;
    }
    Some(last_part(text))
}

fn last_dot(bytes: &[u8]) -> Option<usize>
    ensures before { before_dot bytes.now ≡ option_map (λ place. take place bytes.now) result }
    ensures within { IfSome result (λ place. place < length bytes.now) }
{
    let mut last = None;
    'bytes: for (place, byte) in bytes.iter().enumerate() {
        if *byte == b'.' {
            last = Some(place);
        }
    }
    last
}

fn up_to(bytes: &[u8], end: usize) -> &[u8]
    requires { end ≤ length bytes.now }
    ensures { result.now ≡ take end bytes.now }
{
    &bytes[..end]
}

// An atom without what begins at its last dot, which is not its first byte.
fn stem(atom: &[u8]) -> &[u8]
    ensures { result.now ≡ spec.stem atom.now }
{
    let Some((_, rest)) = atom.split_first() else {
        return atom;
    };
    match last_dot(rest) {
        Some(place) => up_to(atom, place + 1),
        None => atom,
    }
}

fn name(alloc: Global, path: &Path) -> Result<Value, SdkFault>
    ensures { MatchResult result
        (λ value. name_answer path.now ≡ Ok (plain_of value))
        (λ fault. Refuses fault (name_answer path.now)) }
{
    match last_atom(path) {
        Some(atom) => Ok(Value::Atom(Text::new(alloc, atom.to_vec(alloc)?)?)),
        None => Err(SdkFault::Range),
    }
}

/// The directory of a path, which the root does not have.
pub fn parent_of(alloc: Global, path: &Path) -> Result<Option<Path>, PathFault>
    ensures { MatchResult result (λ dir. parent path.now ≡ dir) (λ fault. fault ≢ PathFault.BadPath) }
{
    if path.text() == "." {
        return Ok(None);
    }
    match join(alloc, path, b"..") {
        Ok(dir) => Ok(Some(dir)),
        Err(fault) => Err(fault),
    }
}

fn directory(alloc: Global, path: &Path) -> Result<Value, SdkFault>
    ensures { MatchResult result
        (λ value. parent_answer path.now ≡ Ok (plain_of value))
        (λ fault. Refuses fault (parent_answer path.now)) }
{
    match parent_of(alloc, path) {
        Ok(Some(dir)) => Ok(Value::Directory(dir)),
        Ok(None) => Err(SdkFault::Range),
        Err(_) => Err(SdkFault::Memory),
    }
}

fn combine(alloc: Global, path: &Path, args: &[Value]) -> Result<Value, SdkFault>
    ensures { MatchResult result
        (λ value. combine_path path.now (map plain_of args.now) ≡ Ok (plain_of value))
        (λ fault. Refuses fault (combine_path path.now (map plain_of args.now))) }
{
    let text = read_text(first_argument(args)?)?;
    match join(alloc, path, text.bytes()) {
        Ok(to) => Ok(Value::Path(to)),
        Err(PathFault::BadPath) => Err(SdkFault::BadPath),
        Err(PathFault::Memory) => Err(SdkFault::Memory),
    }
}

// The path with another last atom, if that is one, and the path short enough.
fn with_last(alloc: Global, path: &Path, atom: &[u8]) -> Result<Path, PathFault>
    ensures { MatchResult result
        (λ to. spec.with_last path.now atom.now ≡ Some to)
        (λ fault. fault ≡ PathFault.BadPath → spec.with_last path.now atom.now ≡ None) }
{
    if !is_atom(atom) {
        return Err(PathFault::BadPath);
    }
    match parent_of(alloc, path) {
        Ok(Some(dir)) => join(alloc, &dir, atom),
        Ok(None) => Err(PathFault::BadPath),
        Err(fault) => Err(fault),
    }
}

// The path whose last atom ends in a text in the place of its extension.
fn with_extension(alloc: Global, path: &Path, text: &[u8]) -> Result<Path, PathFault>
    ensures { MatchResult result
        (λ to. spec.with_extension path.now text.now ≡ Some to)
        (λ fault. fault ≡ PathFault.BadPath → spec.with_extension path.now text.now ≡ None) }
{
    let Some(atom) = last_atom(path) else {
        return Err(PathFault::BadPath);
    };
    let mut changed = stem(atom).to_vec(alloc)?;
    changed.extend_from_slice(text)?;
    with_last(alloc, path, changed.as_slice())
}

fn change_extension(alloc: Global, path: &Path, args: &[Value]) -> Result<Value, SdkFault>
    ensures { MatchResult result
        (λ value. changed_extension path.now (map plain_of args.now) ≡ Ok (plain_of value))
        (λ fault. Refuses fault (changed_extension path.now (map plain_of args.now))) }
{
    let text = read_text(first_argument(args)?)?;
    match with_extension(alloc, path, text.bytes()) {
        Ok(to) => Ok(Value::Path(to)),
        Err(PathFault::BadPath) => Err(SdkFault::BadPath),
        Err(PathFault::Memory) => Err(SdkFault::Memory),
    }
}

/// The call of a member function of a directory.
#[tactic(auto, unfolding(crate::specs::PathMembers::directory_function))]
pub fn call_directory(
    alloc: Global,
    path: &Path,
    member: Member,
    args: &[Value],
) -> Result<Option<Value>, SdkFault>
    ensures { Gives (applied (directory_function member path.now) (map plain_of args.now)) result }
{
    match member {
        Member::Combine => Ok(Some(combine(alloc, path, args)?)),
        _ => Ok(None),
    }
}

/// The call of a member function of a path, or of a file at this path.
#[tactic(auto, unfolding(crate::specs::PathMembers::path_function))]
pub fn call_path(
    alloc: Global,
    path: &Path,
    member: Member,
    args: &[Value],
) -> Result<Option<Value>, SdkFault>
    ensures { Gives (applied (path_function member path.now) (map plain_of args.now)) result }
{
    match member {
        Member::Combine => Ok(Some(combine(alloc, path, args)?)),
        Member::ChangeExtension => Ok(Some(change_extension(alloc, path, args)?)),
        _ => Ok(None),
    }
}

/// A member of a path or directory that is no function.
#[tactic(auto, unfolding(crate::specs::PathMembers::any_path_property))]
pub fn member_of_path(alloc: Global, path: &Path, member: Member) -> Result<Option<Value>, SdkFault>
    ensures { Gives (any_path_property member path.now) result }
{
    match member {
        Member::Name => Ok(Some(name(alloc, path)?)),
        Member::Parent => Ok(Some(directory(alloc, path)?)),
        _ => Ok(None),
    }
}

/// A member of a file at this path that is no function.
#[tactic(auto, unfolding(crate::specs::PathMembers::file_property, crate::specs::PathMembers::any_path_property))]
pub fn member_of_file(alloc: Global, path: &Path, member: Member) -> Result<Option<Value>, SdkFault>
    ensures { Gives (file_property member path.now) result }
{
    match member {
        Member::Path => Ok(Some(Value::Path(path.share()?))),
        Member::Name => Ok(Some(name(alloc, path)?)),
        Member::Parent => Ok(Some(directory(alloc, path)?)),
        _ => Ok(None),
    }
}
