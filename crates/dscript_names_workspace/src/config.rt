//! What `config.dsc` says.

ghost use Rattle.std.specs.Prelude.{◌≡◌, None, Some, IfOk, MatchOption};
ghost use Rattle.std.specs.List.{list_all};
ghost use Rattle.dscript_ast.specs.Views.{expr_tree};
ghost use Rattle.dscript_names_workspace.specs.Configs.{configured as modules_configured, is_kind as kind_is};
ghost use Rattle.dscript_names_workspace.specs.Configs.{module_files as files_of_modules};
ghost use Rattle.dscript_names_workspace.specs.Configs.{resolver as files_of_resolver, resolver_at as files_of_item};
ghost use Rattle.dscript_names_workspace.specs.Configs.{modules_list, resolvers as files_of_resolvers, resolvers_list};
ghost use Rattle.dscript_names_workspace.specs.Lists.{concat_if_all};
ghost use Rattle.dscript_names_workspace.specs.Paths.{AreWithin, is_module_file as names_module, paths_at};
ghost use Rattle.dscript_names_workspace.specs.ConfigViews.{FindsPlaces, FindsPositions, item_tree, item_trees};

use crate::gathering::{gathered, in_order};
use crate::glob_call::listed_by;
use crate::list::{ListItem, push_items};
use crate::listed_files::files_listed;
use crate::literal::string;
use crate::object::{field_named, object_with};
use crate::paths::{is_module_file, path_at};
use bx_tree::{Path, Tree};
use dscript_ast::Expr;
use std::alloc::{AllocError, Global};

/// Whether an expression is the kind of resolvers that there is.
fn is_kind(value: &Expr) -> bool
    ensures { result ≡ kind_is (expr_tree value.now) }
{
    match string(value) {
        Some(text) => text.bytes() == b"DScript".as_slice(),
        None => false,
    }
}

/// Whether the files at these positions are named `module.config.dsc`.
fn are_module_files(tree: &Tree, positions: &[usize]) -> bool
    requires { AreWithin tree.now positions.now }
    ensures { result ≡ list_all names_module (paths_at tree.now positions.now) }
{
    'positions: for position in positions {
        if !is_module_file(path_at(tree, *position)) {
            return false;
        }
    }
    true
}

/// The positions of the module files of a list, if all of its files are module files.
fn module_files(alloc: Global, tree: &Tree, list: &Expr) -> Result<Option<Vec<usize>>, AllocError>
    ensures { IfOk result (λ found.
        FindsPlaces tree.now (files_of_modules tree.now (expr_tree list.now)) found) }
{
    let root = Path::root(alloc)?;
    let Some(positions) = files_listed(alloc, tree, &root, list)? else {
        return Ok(None);
    };
    if are_module_files(tree, positions.as_slice()) {
        Ok(Some(positions))
    } else {
        Ok(None)
    }
}

/// The list of modules of a resolver, if it is one.
fn modules_of(value: &Expr) -> Option<&Expr>
    ensures { MatchOption result
        (modules_list (expr_tree value.entry.now) ≡ None)
        (λ list. modules_list (expr_tree value.entry.now) ≡ Some (expr_tree list.now)) }
{
    let props = object_with(value, &[b"kind", b"modules"])?;
    let kind = field_named(props, b"kind")?;
    let modules = field_named(props, b"modules")?;
    if is_kind(kind) { Some(modules) } else { None }
}

/// The positions of the module files of a resolver.
fn resolver(alloc: Global, tree: &Tree, value: &Expr) -> Result<Option<Vec<usize>>, AllocError>
    ensures { IfOk result (λ found.
        FindsPlaces tree.now (files_of_resolver tree.now (expr_tree value.now)) found) }
{
    match modules_of(value) {
        Some(modules) => module_files(alloc, tree, modules),
        None => Ok(None),
    }
}

/// The positions of the module files of an item of the resolvers.
fn resolver_at(
    alloc: Global,
    tree: &Tree,
    item: &ListItem<'_>,
) -> Result<Option<Vec<usize>>, AllocError>
    ensures { IfOk result (λ found.
        FindsPlaces tree.now (files_of_item tree.now (item_tree item.now)) found) }
{
    match item {
        ListItem::One(value) => resolver(alloc, tree, value),
        ListItem::Many(value) => {
            let root = Path::root(alloc)?;
            match listed_by(alloc, tree, &root, value)? {
                Some(paths) if paths.is_empty() => Ok(Some(Vec::new(alloc))),
                _ => Ok(None),
            }
        }
    }
}

/// The positions of the module files of resolvers, in some order and perhaps with repetitions.
fn resolvers_in(
    alloc: Global,
    tree: &Tree,
    items: &[ListItem<'_>],
) -> Result<Option<Vec<usize>>, AllocError>
    ensures { IfOk result (λ found.
        FindsPlaces tree.now (concat_if_all (files_of_item tree.now) (item_trees items.now)) found) }
{
    let mut positions = Vec::new(alloc);
    'items: for item in items {
        let Some(more) = resolver_at(alloc, tree, item)? else {
            return Ok(None);
        };
        positions = gathered(tree, positions, more.as_slice())?;
    }
    Ok(Some(positions))
}

/// The list of resolvers of a configuration, if it has just that.
fn resolvers_of(value: &Expr) -> Option<&Expr>
    ensures { MatchOption result
        (resolvers_list (expr_tree value.entry.now) ≡ None)
        (λ list. resolvers_list (expr_tree value.entry.now) ≡ Some (expr_tree list.now)) }
{
    field_named(object_with(value, &[b"resolvers"])?, b"resolvers")
}

/// The positions of the module files of a list of resolvers.
fn resolvers(alloc: Global, tree: &Tree, list: &Expr) -> Result<Option<Vec<usize>>, AllocError>
    ensures { IfOk result (λ found.
        FindsPlaces tree.now (files_of_resolvers tree.now (expr_tree list.now)) found) }
{
    let mut items = Vec::new(alloc);
    push_items(list, &mut items)?;
    resolvers_in(alloc, tree, items.as_slice())
}

/// The positions in the tree of the module files that a configuration lists, in the order of the tree and
/// each once; none where it says something that is not allowed.
pub fn configured(
    alloc: Global,
    tree: &Tree,
    value: &Expr,
) -> Result<Option<Vec<usize>>, AllocError>
    ensures { IfOk result (λ found.
        FindsPositions tree.now (modules_configured tree.now (expr_tree value.now)) found) }
{
    let Some(list) = resolvers_of(value) else {
        return Ok(None);
    };
    let Some(positions) = resolvers(alloc, tree, list)? else {
        return Ok(None);
    };
    Ok(Some(in_order(tree, positions)))
}
