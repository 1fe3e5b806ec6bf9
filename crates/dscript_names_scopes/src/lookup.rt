//! What a dotted name stands for, with the levels at which it is looked for.

ghost use Rattle.std.specs.Prelude.{◌≡◌, ◌≤◌, ◌∷◌, [], IfOk, Some, map, option_copied, reverse};
ghost use Rattle.std.specs.Result.{result_err};
ghost use Rattle.dscript_ast.specs.ExprTree.{to_parts};
ghost use Rattle.dscript_ast.specs.Views.{expr_tree, part_tree};
ghost use Rattle.dscript_names_scopes.specs.Answers.{Answers, AnswersLevel, Checks};
ghost use Rattle.dscript_names_scopes.specs.Lookup.{beginnings, found_at, found_outside, has_namespace};
ghost use Rattle.dscript_names_scopes.specs.Lookup.{import_fault};
ghost use Rattle.dscript_names_scopes.specs.Lookup.{in_import_call, in_imports, in_module, in_namespaces};
ghost use Rattle.dscript_names_scopes.specs.Lookup.{in_own_module};
ghost use Rattle.dscript_names_scopes.specs.Lookup.{in_other_module, is_module, members_at, unknown_module_fault};
ghost use Rattle.dscript_names_scopes.specs.Lookup.{one_string, sdk_found, through_import};
ghost use Rattle.dscript_names_scopes.specs.Declarations.{is_any};
ghost use Rattle.dscript_names_scopes.specs.Lookup.{shortest, value_of_module};
ghost use Rattle.dscript_names_scopes.specs.Spaces.{kind_hidden, site_data};
ghost use Rattle.dscript_ast.specs.Literals.{string_of};

use crate::found::Found;
use crate::names::{FileNames, Imported, Viewer, World};
use crate::scopes::Scopes;
use crate::site::Site;
use crate::spaces::{Space, is_sdk_namespace, shortest, shortest_ambient};
use crate::stop::Stop;
use crate::tables::values_of_modules;
use bx_tree::{Memory, Text};
use dscript_ast::{Expr, PostfixPart};
use dscript_program::SpecKind;
use std::alloc::Global;
use std::slice;

/// In the namespaces outwards, the first that has a value of a prefix of the name.
#[tactic(auto, using(crate::proofs::Outwards::outwards))]
fn in_namespaces(alloc: Global, site: &Site<'_>, written: &[Text]) -> Result<Option<Found>, Memory>
    ensures { IfOk result (λ found. found
        ≡ in_namespaces site.now.number site.now.file.now
        (reverse (beginnings site.now.around.now)) written.now) }
{
    let mut around = site.around;
    'outwards: loop {
        let space = Space::File(site.number, site.file);
        if let Some(found) = shortest(alloc, &space, 0, around, written)? {
            return Ok(Some(found));
        }
        match around.split_last() {
            Some((_, outer)) => around = outer,
            None => return Ok(None),
        }
    }
}

/// Why names that stand for no public value of a module are refused. The table of all its values is made here,
/// as only the first such names are refused.
#[tactic(auto, using(crate::proofs::TableValues::same_shortest))]
fn hidden(
    alloc: Global,
    world: &World,
    number: usize,
    parts: usize,
    names: &[Text],
) -> Result<SpecKind, Memory>
    requires { parts ≤ 2 }
    ensures { IfOk result (λ kind. kind
        ≡ kind_hidden (shortest (value_of_module is_any number 0 world.now.files) parts [] names.now)) }
{
    let values = values_of_modules(alloc, world.files(), Viewer::Any)?;
    match shortest(alloc, &Space::Values(&values, number), parts, &[], names)? {
        Some(_) => Ok(SpecKind::NotPublic),
        None => Ok(SpecKind::UnknownName),
    }
}

/// What the names stand for in the module with this number, as it is seen through an import: its public values
/// alone. That may be the module in which the names are written, where it imports itself.
#[tactic(auto, using(crate::proofs::TableValues::same_shortest))]
fn in_other_module(
    alloc: Global,
    world: &World,
    number: usize,
    parts: usize,
    names: &[Text],
) -> Result<Found, Stop>
    requires { parts ≤ 2 }
    ensures { Answers result (in_other_module world.now number parts names.now) }
{
    let public = Space::Values(world.public(), number);
    match shortest(alloc, &public, parts, &[], names)? {
        Some(found) => Ok(found),
        None => Err(Stop::Fault(hidden(alloc, world, number, parts, names)?)),
    }
}

/// What the names stand for in the module that is always there.
fn in_sdk(alloc: Global, parts: usize, names: &[Text]) -> Result<Found, Stop>
    requires { parts ≤ 2 }
    ensures { Answers result (sdk_found parts names.now) }
{
    match shortest(alloc, &Space::Sdk, parts, &[], names)? {
        Some(found) => Ok(found),
        None => Err(Stop::Fault(SpecKind::UnknownName)),
    }
}

/// What the names stand for in the module of this name. The first name has this many parts before it that
/// belong to it too.
fn in_module(
    alloc: Global,
    world: &World,
    module_name: &Text,
    parts: usize,
    names: &[Text],
) -> Result<Found, Stop>
    requires { parts ≤ 2 }
    ensures { Answers result (in_module world.now module_name.now parts names.now) }
{
    if module_name.bytes() == b"Sdk.Transformers".as_slice() {
        return in_sdk(alloc, parts, names);
    }
    match world.module_number(module_name) {
        Some(module) => in_other_module(alloc, world, module, parts, names),
        None => Err(Stop::Fault(SpecKind::UnknownModule)),
    }
}

/// The name, followed by the names after its dots.
fn prefixed(alloc: Global, first: &Text, rest: &[Text]) -> Result<Vec<Text>, Memory>
    ensures { IfOk result (λ names. names.items ≡ first.now ∷ rest.now) }
{
    let mut names = Vec::new(alloc);
    names.push(first.share()?)?;
    'rest: for name in rest {
        names.push(name.share()?)?;
    }
    Ok(names)
}

/// What an imported name stands for, with the names after its dots.
fn through_import(
    alloc: Global,
    world: &World,
    rest: &[Text],
    imported: &Imported,
) -> Result<Found, Stop>
    ensures { Answers result (through_import world.now rest.now imported.now) }
{
    match &imported.original {
        None => in_module(alloc, world, &imported.module_name, 1, rest),
        Some(original) => {
            let names = prefixed(alloc, original, rest)?;
            in_module(alloc, world, &imported.module_name, 0, names.as_slice())
        }
    }
}

/// In the imports of a file, by the first name.
fn in_imports(
    alloc: Global,
    world: &World,
    file: &FileNames,
    written: &[Text],
) -> Result<Option<Found>, Stop>
    ensures { AnswersLevel result (in_imports world.now file.now written.now) }
{
    let Some((first, rest)) = written.split_first() else {
        return Ok(None);
    };
    match file.import(first) {
        Some(imported) => Ok(Some(through_import(alloc, world, rest, imported)?)),
        None => Ok(None),
    }
}

/// Whether there is a module of this name.
pub(crate) fn is_module(world: &World, name: &Text) -> bool
    ensures { result ≡ is_module world.now name.now }
{
    name.bytes() == b"Sdk.Transformers".as_slice() || world.has_module(name)
}

/// Whether a module has a namespace of this name.
fn has_namespace(world: &World, module_name: &Text, name: &Text) -> bool
    ensures { result ≡ has_namespace world.now module_name.now name.now }
{
    if module_name.bytes() == b"Sdk.Transformers".as_slice() {
        return is_sdk_namespace(name);
    }
    match world.module_number(module_name) {
        Some(module) => world.opens(module, name),
        None => false,
    }
}

/// Checks that a module is there.
pub fn check_module(world: &World, module_name: &Text) -> Result<(), SpecKind>
    ensures { result_err result ≡ unknown_module_fault world.now module_name.now }
{
    if is_module(world, module_name) {
        return Ok(());
    }
    Err(SpecKind::UnknownModule)
}

/// Checks that a name in braces stands for a namespace or a value of its module.
pub fn check_imported(
    alloc: Global,
    world: &World,
    module_name: &Text,
    name: &Text,
) -> Result<(), Stop>
    ensures { Checks result (import_fault world.now module_name.now name.now) }
{
    if has_namespace(world, module_name, name) {
        return Ok(());
    }
    let names = prefixed(alloc, name, &[])?;
    in_module(alloc, world, module_name, 0, names.as_slice())?;
    Ok(())
}

/// The value of an expression that is a string.
fn string_of(expr: &Expr) -> Option<&Text>
    ensures { option_copied result ≡ string_of (expr_tree expr.now) }
{
    match expr {
        Expr::Str(text) => Some(text),
        _ => None,
    }
}

/// The one argument of a call, if that is a string.
fn one_string(part: &PostfixPart) -> Option<&Text>
    ensures { option_copied result ≡ one_string (part_tree part.now) }
{
    let PostfixPart::Call(arguments) = part else {
        return None;
    };
    let (argument, others) = arguments.as_slice().split_first()?;
    if !others.is_empty() {
        return None;
    }
    string_of(argument)
}

/// A name, and the names after dots at the start of these parts.
fn with_members(alloc: Global, first: &Text, parts: &[PostfixPart]) -> Result<Vec<Text>, Memory>
    ensures { IfOk result (λ names. names.items
        ≡ first.now ∷ members_at (to_parts (map part_tree parts.now))) }
{
    let mut names = Vec::new(alloc);
    names.push(first.share()?)?;
    let mut left = parts;
    'members: while let Some((PostfixPart::Member(name), rest)) = left.split_first() {
        names.push(name.share()?)?;
        left = rest;
    }
    Ok(names)
}

/// What a call of `importFrom` on one string stands for, with the names after it.
fn in_import_call(
    alloc: Global,
    world: &World,
    name: &Text,
    parts: &[PostfixPart],
) -> Result<Option<Found>, Stop>
    ensures { AnswersLevel result
        (in_import_call world.now name.now (to_parts (map part_tree parts.now))) }
{
    if name.bytes() != b"importFrom".as_slice() {
        return Ok(None);
    }
    let Some((call, rest)) = parts.split_first() else {
        return Ok(None);
    };
    let Some(module_name) = one_string(call) else {
        return Ok(None);
    };
    let written = with_members(alloc, module_name, rest)?;
    match written.as_slice().split_first() {
        Some((module_name, names)) if !names.is_empty() => Ok(Some(in_module(
            alloc,
            world,
            module_name,
            2,
            names,
        )?)),
        _ => Ok(None),
    }
}

/// The name as a value that its module exports.
#[tactic(auto, using(crate::proofs::TableValues::same_shortest, crate::proofs::TableValues::none_shortest))]
fn in_own_module(
    alloc: Global,
    world: &World,
    file: &FileNames,
    written: &[Text],
) -> Result<Option<Found>, Memory>
    ensures { IfOk result (λ found. found ≡ in_own_module world.now file.now written.now) }
{
    let exported = world.exported();
    if exported.has_none(file.module_number) {
        return Ok(None);
    }
    let exported = Space::Values(exported, file.module_number);
    shortest(alloc, &exported, 0, &[], written)
}

/// What a name stands for outside of the blocks around it, with the parts after it. The names that are written
/// there are given too.
#[tactic(auto, unfolding(crate::specs::Lookup::found_outside))]
fn found_written(
    alloc: Global,
    world: &World,
    site: &Site<'_>,
    name: &Text,
    parts: &[PostfixPart],
    written: &[Text],
) -> Result<Found, Stop>
    requires { written.now ≡ name.now ∷ members_at (to_parts (map part_tree parts.now)) }
    ensures { Answers result
        (found_outside world.now (site_data site.now) name.now (to_parts (map part_tree parts.now))) }
{
    if let Some(found) = in_namespaces(alloc, site, written)? {
        return Ok(found);
    }
    if let Some(found) = in_imports(alloc, world, site.file, written)? {
        return Ok(found);
    }
    if let Some(found) = in_own_module(alloc, world, site.file, written)? {
        return Ok(found);
    }
    if let Some(found) = in_import_call(alloc, world, name, parts)? {
        return Ok(found);
    }
    match shortest_ambient(alloc, written)? {
        Some(found) => Ok(found),
        None => Err(Stop::Fault(SpecKind::UnknownName)),
    }
}

/// What a name stands for outside of the blocks around it, with the parts after it.
fn found_outside(
    alloc: Global,
    world: &World,
    site: &Site<'_>,
    name: &Text,
    parts: &[PostfixPart],
) -> Result<Found, Stop>
    ensures { Answers result
        (found_outside world.now (site_data site.now) name.now (to_parts (map part_tree parts.now))) }
{
    match parts.split_first() {
        None => found_written(alloc, world, site, name, parts, slice::from_ref(name)),
        Some(_) => {
            let written = with_members(alloc, name, parts)?;
            found_written(alloc, world, site, name, parts, written.as_slice())
        }
    }
}

/// What a name stands for, with the parts after it. The innermost level that has it decides, and there the
/// shortest prefix that is a value; a local and an imported name hide what is further out also where they have
/// no such prefix.
#[tactic(auto, unfolding(crate::specs::Lookup::found_at))]
pub fn found_at(
    alloc: Global,
    world: &World,
    site: &Site<'_>,
    scopes: &Scopes,
    name: &Text,
    parts: &[PostfixPart],
) -> Result<Found, Stop>
    ensures { Answers result
        (found_at world.now (site_data site.now) scopes.now name.now (to_parts (map part_tree parts.now))) }
{
    match scopes.find(name) {
        Some(Ok(found)) => Ok(found),
        Some(Err(kind)) => Err(Stop::Fault(kind)),
        None => found_outside(alloc, world, site, name, parts),
    }
}
