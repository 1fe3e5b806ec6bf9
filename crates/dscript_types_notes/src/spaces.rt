//! Where the type of a dotted name is declared.
ghost use Rattle.std.specs.Prelude.{◌≡◌, [], IfOk, length, reverse};
ghost use Rattle.std.specs.Option.{option_map, option_or};
ghost use Rattle.dscript_names_scopes.specs.Lookup.{beginnings};
ghost use Rattle.dscript_program.specs.Views.{program_data};
ghost use Rattle.dscript_types_meaning.specs.Lookups as rules;
ghost use Rattle.dscript_types_notes.specs.Found.{found_data, found_in, outwards_in};
ghost use Rattle.dscript_types_notes.specs.Names.{IsIndexOf};
ghost use Rattle.dscript_types_notes.specs.declared.spaces.Space.TheVariants as spaces;

use crate::names::TypeNames;
use crate::world::World;
use bx_tree::{Memory, Text};
use dscript_names_scopes::DottedName;
use std::alloc::Global;

/// A declared type: the numbers of file and declaration, and what is left over of the name that it was found by.
#[derive(Clone, Copy)]
pub struct FoundType<'a> {
    pub file: u32,
    pub decl: u32,
    pub rest: &'a [Text],
}

// Where types are looked for: in the file of a number, or among those that a module exports.
#[derive(Clone, Copy)]
pub(crate) enum Space {
    File(u32),
    Module(u32),
}

// The type of a whole dotted name.
fn in_space(names: &TypeNames, space: Space, name: &DottedName) -> Option<(u32, u32)>
    ensures { result ≡ found_in names.now space name.now }
{
    match space {
        Space::File(file) => match names.in_file(file, name) {
            Some(decl) => Some((file, decl)),
            None => None,
        },
        Space::Module(module) => names.in_module(module, name),
    }
}

// A dotted name of these parts.
fn named(alloc: Global, parts: &[Text]) -> Result<DottedName, Memory>
    ensures { IfOk result (λ name. name ≡ parts.now) }
{
    let mut copy = Vec::with_capacity(alloc, parts.len())?;
    'parts: for part in parts {
        copy.push(part.share()?)?;
    }
    Ok(DottedName::new(copy))
}

// The texts, shared.
fn shared(alloc: Global, texts: &[Text]) -> Result<Vec<Text>, Memory>
    ensures { IfOk result (λ copy. copy.items ≡ texts.now) }
{
    let mut copy = Vec::new(alloc);
    'texts: for text in texts {
        copy.push(text.share()?)?;
    }
    Ok(copy)
}

// What is found by a whole name, with what is left over.
fn found_whole<'a>(
    names: &TypeNames,
    space: Space,
    name: &DottedName,
    rest: &'a [Text],
) -> Option<FoundType<'a>>
    ensures { option_map found_data result
        ≡ option_map (λ place. (place, rest.now)) (found_in names.now space name.now) }
{
    match in_space(names, space, name) {
        Some((file, decl)) => Some(FoundType { file, decl, rest }),
        None => None,
    }
}

// The type of the shortest prefix of the names that has one, in the namespaces before them.
fn shortest<'a>(
    alloc: Global,
    names: &TypeNames,
    space: Space,
    before: &[Text],
    written: &'a [Text],
) -> Result<Option<FoundType<'a>>, Memory>
    ensures { IfOk result (λ found. option_map found_data found
        ≡ rules.shortest (found_in names.now space) before.now written.now) }
{
    let mut parts = shared(alloc, before)?;
    let mut left = written;
    'prefixes: while let Some((first, rest)) = left.split_first() {
        parts.push(first.share()?)?;
        if rest.is_empty() {
            let whole = DottedName::new(parts);
            return Ok(found_whole(names, space, &whole, rest));
        }
        let name = named(alloc, parts.as_slice())?;
        if let Some((file, decl)) = in_space(names, space, &name) {
            return Ok(Some(FoundType { file, decl, rest }));
        }
        left = rest;
    }
    Ok(None)
}

// In the namespaces outwards of a file.
fn in_namespaces<'a>(
    alloc: Global,
    names: &TypeNames,
    file: u32,
    before: &[Text],
    written: &'a [Text],
) -> Result<Option<FoundType<'a>>, Memory>
    ensures { IfOk result (λ found. option_map found_data found
        ≡ outwards_in (found_in names.now (spaces.File file)) (reverse (beginnings before.now)) written.now) }
{
    let mut around = before;
    'outwards: loop {
        if let Some(found) = shortest(alloc, names, Space::File(file), around, written)? {
            return Ok(Some(found));
        }
        match around.split_last() {
            Some((_, outer)) => around = outer,
            None => return Ok(None),
        }
    }
}

// The module of a file.
fn module_of(world: &World<'_>, file: u32) -> u32
    ensures { result ≡ rules.module_at (program_data world.now.program.now) file }
{
    match world.program.files().get(file as usize) {
        Some(file) => file.module,
        None => 0,
    }
}

// The type of a name of one part, in a file and then among those that its module exports.
fn found_alone<'a>(
    alloc: Global,
    names: &TypeNames,
    file: u32,
    owner: u32,
    written: &'a [Text],
) -> Result<Option<FoundType<'a>>, Memory>
    requires { length written.now ≡ 1 }
    ensures { IfOk result (λ found. option_map found_data found
        ≡ option_or (rules.shortest (found_in names.now (spaces.File file)) [] written.now)
        (rules.shortest (found_in names.now (spaces.Module owner)) [] written.now)) }
{
    let name = named(alloc, written)?;
    if let Some(found) = found_whole(names, Space::File(file), &name, &[]) {
        return Ok(Some(found));
    }
    Ok(found_whole(names, Space::Module(owner), &name, &[]))
}

/// The type of a dotted name in the namespaces outwards of a file, and then among those that its module exports.
#[tactic(auto, unfolding(dscript_types_meaning::specs::Lookups::found_type))]
pub fn found_type<'a>(
    world: &World<'_>,
    file: u32,
    before: &[Text],
    written: &'a [Text],
) -> Result<Option<FoundType<'a>>, Memory>
    requires { IsIndexOf (program_data world.now.program.now) world.now.names.now }
    ensures { IfOk result (λ found. option_map found_data found
        ≡ rules.found_type (program_data world.now.program.now) file before.now written.now) }
{
    if before.is_empty() && written.len() == 1 {
        return found_alone(
            world.alloc,
            world.names,
            file,
            module_of(world, file),
            written,
        );
    }
    found_around(world, file, before, written)
}

// The type of a dotted name in any namespace.
#[tactic(auto, unfolding(dscript_types_meaning::specs::Lookups::found_type))]
fn found_around<'a>(
    world: &World<'_>,
    file: u32,
    before: &[Text],
    written: &'a [Text],
) -> Result<Option<FoundType<'a>>, Memory>
    requires { IsIndexOf (program_data world.now.program.now) world.now.names.now }
    ensures { IfOk result (λ found. option_map found_data found
        ≡ rules.found_type (program_data world.now.program.now) file before.now written.now) }
{
    if let Some(found) = in_namespaces(world.alloc, world.names, file, before, written)? {
        return Ok(Some(found));
    }
    shortest(
        world.alloc,
        world.names,
        Space::Module(module_of(world, file)),
        &[],
        written,
    )
}
