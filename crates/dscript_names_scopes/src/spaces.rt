//! Where the values are that a dotted name may stand for, and the shortest prefix that stands for one.

ghost use Rattle.std.specs.Prelude.{◌≡◌, ◌≤◌, [], IfOk, OnOk};
ghost use Rattle.std.specs.List.{join_with_byte};
ghost use Rattle.dscript_names_scopes.specs.Lookup.{ambient_of, is_sdk_namespace, sdk_call, shortest};
ghost use Rattle.dscript_names_scopes.specs.Spaces.{target_in, with_part};

use crate::dotted::{DottedName, shared};
use crate::found::Found;
use crate::names::FileNames;
use crate::tables::{ByModule, declared};
use bx_tree::{Memory, Text};
use dscript_program::{Ambient, Target};
use std::alloc::Global;

/// For how many bytes of a dotted name memory is taken at first.
const FIRST_BYTES: usize = 32;

/// The parts of a dotted name, with dots between them.
fn written(alloc: Global, name: &[Text]) -> Result<Vec<u8>, Memory>
    ensures { IfOk result (λ text. text.items ≡ join_with_byte 46 name.now) }
{
    let mut text = Vec::with_capacity(alloc, FIRST_BYTES)?;
    let Some((first, rest)) = name.split_first() else {
        return Ok(text);
    };
    text.extend_from_slice(first.bytes())?;
    let mut left = rest;
    'parts: while let Some((part, parts)) = left.split_first() {
        text.push(b'.')?;
        text.extend_from_slice(part.bytes())?;
        left = parts;
    }
    Ok(text)
}

/// The ambient call with this dotted name.
fn ambient(alloc: Global, name: &[Text]) -> Result<Option<Target>, Memory>
    ensures { IfOk result (λ target. target ≡ ambient_of name.now) }
{
    let text = written(alloc, name)?;
    match Ambient::named(text.as_slice()) {
        Some(call) => Ok(Some(Target::Ambient(call))),
        None => Ok(None),
    }
}

/// Whether the module that is always there has this namespace.
pub(crate) fn is_sdk_namespace(name: &Text) -> bool
    ensures { result ≡ is_sdk_namespace name.now }
{
    let name = name.bytes();
    name == b"Transformer".as_slice() || name == b"Cmd".as_slice() || name == b"Artifact".as_slice()
}

/// The call with this dotted name in the module that is always there.
fn sdk(alloc: Global, name: &[Text]) -> Result<Option<Target>, Memory>
    ensures { IfOk result (λ target. target ≡ sdk_call name.now) }
{
    match name.split_first() {
        Some((first, _)) if is_sdk_namespace(first) => ambient(alloc, name),
        _ => Ok(None),
    }
}

/// Where the values are that a dotted name may stand for.
#[derive(Clone, Copy)]
pub(crate) enum Space<'a> {
    /// In the file of this number.
    File(usize, &'a FileNames),
    /// In the module of this number, by tables of values.
    Values(&'a ByModule, usize),
    /// In the module that is always there.
    Sdk,
}

impl Space<'_> {
    /// What the whole dotted name stands for.
    fn target(&self, alloc: Global, name: &DottedName) -> Result<Option<Target>, Memory>
        ensures { IfOk result (λ target. target ≡ target_in self.now name.now) }
    {
        match self {
            Space::File(number, file) => match file.value(name) {
                Some(decl) => Ok(Some(declared(*number, decl)?)),
                None => Ok(None),
            },
            Space::Values(values, module) => Ok(values.value(*module, name)),
            Space::Sdk => sdk(alloc, name.parts()),
        }
    }
}

/// The shortest prefix of the names that stands for something, in the namespaces before them.
pub(crate) fn shortest(
    alloc: Global,
    space: &Space<'_>,
    parts: usize,
    before: &[Text],
    names: &[Text],
) -> Result<Option<Found>, Memory>
    requires { parts ≤ 2 }
    ensures { IfOk result (λ found. found
        ≡ shortest (target_in space.now) parts before.now names.now) }
{
    let mut name = DottedName::new(shared(alloc, before)?);
    let mut left = names;
    let mut parts = parts;
    'prefixes: while let Some((first, rest)) = left.split_first() {
        name.push(first.share()?)?;
        if let Some(target) = space.target(alloc, &name)? {
            return Ok(Some(Found { target, parts }));
        }
        parts += 1;
        left = rest;
    }
    Ok(None)
}

/// Adds a part of a dotted name to the text of those before it, with a dot before it if it is not the first.
fn add_part(text: &mut Vec<u8>, is_first: bool, part: &Text) -> Result<(), Memory>
    ensures { OnOk result (text.new.items ≡ with_part is_first text.old.items part.now) }
{
    if !is_first {
        text.push(b'.')?;
    }
    text.extend_from_slice(part.bytes())
}

/// The shortest prefix of the names that is the name of an ambient call.
pub(crate) fn shortest_ambient(alloc: Global, names: &[Text]) -> Result<Option<Found>, Memory>
    ensures { IfOk result (λ found. found ≡ shortest ambient_of 0 [] names.now) }
{
    let mut text = Vec::with_capacity(alloc, FIRST_BYTES)?;
    let mut left = names;
    let mut parts = 0;
    'prefixes: while let Some((first, rest)) = left.split_first() {
        add_part(&mut text, parts == 0, first)?;
        if let Some(call) = Ambient::named(text.as_slice()) {
            return Ok(Some(Found {
                target: Target::Ambient(call),
                parts,
            }));
        }
        parts += 1;
        left = rest;
    }
    Ok(None)
}
