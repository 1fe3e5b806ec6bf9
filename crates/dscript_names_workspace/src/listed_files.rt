//! The files of lists.

ghost use Rattle.std.specs.Prelude.{◌≡◌, None, Some, IfOk, MatchOption};
ghost use Rattle.dscript_ast.specs.Views.{expr_tree};
ghost use Rattle.dscript_names_workspace.specs.Lists.{files_at as files_meant, files_listed as files_of_list};
ghost use Rattle.dscript_names_workspace.specs.Lists.{concat_if_all, literal_at, sources, sources_at as sources_meant};
ghost use Rattle.dscript_names_workspace.specs.ConfigViews.{FindsPlaces, FindsPositions, item_tree, item_trees};

use crate::gathering::gathered;
use crate::glob_call::listed_by;
use crate::list::{ListItem, push_items};
use crate::literal::file_text;
use crate::paths::position_of;
use bx_path::join;
use bx_tree::{Path, PathFault, Tree};
use dscript_ast::Expr;
use std::alloc::{AllocError, Global};

/// The file of a literal in a file of this directory.
fn literal_file(alloc: Global, dir: &Path, value: &Expr) -> Result<Option<Path>, AllocError>
    ensures { IfOk result (λ found. MatchOption found
        (literal_at dir.now (expr_tree value.now) ≡ None)
        (λ path. literal_at dir.now (expr_tree value.now) ≡ Some path)) }
{
    let Some(text) = file_text(value) else {
        return Ok(None);
    };
    match join(alloc, dir, text) {
        Ok(path) => Ok(Some(path)),
        Err(PathFault::BadPath) => Ok(None),
        Err(PathFault::Memory) => Err(AllocError),
    }
}

/// The files that an item stands for, in a file of this directory.
fn files_at(
    alloc: Global,
    tree: &Tree,
    dir: &Path,
    item: &ListItem<'_>,
) -> Result<Option<Vec<Path>>, AllocError>
    ensures { IfOk result (λ found. MatchOption found
        (files_meant tree.now dir.now (item_tree item.now) ≡ None)
        (λ paths. files_meant tree.now dir.now (item_tree item.now) ≡ Some paths.items)) }
{
    match item {
        ListItem::One(value) => {
            let Some(path) = literal_file(alloc, dir, value)? else {
                return Ok(None);
            };
            let mut paths = Vec::new(alloc);
            paths.push(path)?;
            Ok(Some(paths))
        }
        ListItem::Many(value) => listed_by(alloc, tree, dir, value),
    }
}

/// The positions of these paths in the tree, if each is that of a file.
fn positions_of(
    alloc: Global,
    tree: &Tree,
    paths: &[Path],
) -> Result<Option<Vec<usize>>, AllocError>
    ensures { IfOk result (λ found.
        FindsPositions tree.now (sources tree.now paths.now) found) }
{
    let mut positions = Vec::new(alloc);
    'paths: for path in paths {
        let Some(position) = position_of(tree, path) else {
            return Ok(None);
        };
        positions.push(position)?;
    }
    Ok(Some(positions))
}

/// The positions of the source files that an item stands for, in a file of this directory.
fn sources_at(
    alloc: Global,
    tree: &Tree,
    dir: &Path,
    item: &ListItem<'_>,
) -> Result<Option<Vec<usize>>, AllocError>
    ensures { IfOk result (λ found.
        FindsPositions tree.now (sources_meant tree.now dir.now (item_tree item.now)) found) }
{
    match files_at(alloc, tree, dir, item)? {
        Some(paths) => positions_of(alloc, tree, paths.as_slice()),
        None => Ok(None),
    }
}

/// The positions of the source files that items stand for, in some order and perhaps with repetitions.
fn sources_in(
    alloc: Global,
    tree: &Tree,
    dir: &Path,
    items: &[ListItem<'_>],
) -> Result<Option<Vec<usize>>, AllocError>
    ensures { IfOk result (λ found.
        FindsPlaces tree.now (concat_if_all (sources_meant tree.now dir.now) (item_trees items.now)) found) }
{
    let mut positions = Vec::new(alloc);
    'items: for item in items {
        let Some(more) = sources_at(alloc, tree, dir, item)? else {
            return Ok(None);
        };
        positions = gathered(tree, positions, more.as_slice())?;
    }
    Ok(Some(positions))
}

/// The positions of the source files of a list, in some order and perhaps with repetitions.
pub(crate) fn files_listed(
    alloc: Global,
    tree: &Tree,
    dir: &Path,
    list: &Expr,
) -> Result<Option<Vec<usize>>, AllocError>
    ensures { IfOk result (λ found.
        FindsPlaces tree.now (files_of_list tree.now dir.now (expr_tree list.now)) found) }
{
    let mut items = Vec::new(alloc);
    push_items(list, &mut items)?;
    sources_in(alloc, tree, dir, items.as_slice())
}
