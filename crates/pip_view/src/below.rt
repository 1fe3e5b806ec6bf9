//! What lies below a directory, in a list that rises by path: of source files, of files that a process takes, or of
//! files that a pip made.
ghost use Rattle.std.specs.Prelude.{◌≡◌, ◌++◌, ◌∷◌, [], OnOk};
ghost use Rattle.std.specs.List.{cons_option, filter_map, list_any};
ghost use Rattle.bx_tree.specs.Below.{is_below, next_atom as next_atom_of};
ghost use Rattle.bx_tree.specs.Lent.{texts_now};
ghost use Rattle.bx_tree_paths.specs.Searches.{RiseByText};
ghost use Rattle.pip_view.specs.NamesBelow.{names_within};

use bx_tree::{Memory, Path, next_atom};
use bx_tree_paths::{HasPath, items_below};

// Whether one of the items lies strictly below a directory.
fn any_below<T: HasPath>(items: &[T], dir: &Path) -> bool
    ensures { result ≡ list_any (λ x. is_below (T.path_in x) dir.now) items.now }
{
    items.iter().any(|item| item.path().is_below(dir))
}

// Whether one of the items lies strictly below a directory.
pub(crate) fn has_below<T: HasPath>(items: &[T], dir: &Path) -> bool
    requires { RiseByText T.path_in items.now }
    ensures { result ≡ list_any (λ x. is_below (T.path_in x) dir.now) items.now }
{
    any_below(items_below(items, dir), dir)
}

// Adds the name of an item in the listing of one directory, if it lies below another.
fn add_name<'a, T: HasPath>(
    names: &mut Vec<&'a [u8]>,
    item: &'a T,
    dir: &Path,
    top: &Path,
) -> Result<(), Memory>
    ensures { OnOk result (texts_now names.new.items
        ≡ texts_now names.old.items ++ names_within T.path_in top.now dir.now (item.entry.now ∷ [])) }
{
    let path = item.path();
    if !path.is_below(dir) {
        return Ok(());
    }
    if let Some(name) = next_atom(top, path) {
        names.push(name)?;
    }
    Ok(())
}

// Adds the names of items in the listing of one directory, of those that lie below another.
pub(crate) fn add_each<'a, T: HasPath>(
    names: &mut Vec<&'a [u8]>,
    items: &'a [T],
    dir: &Path,
    top: &Path,
) -> Result<(), Memory>
    ensures { OnOk result (texts_now names.new.items
        ≡ texts_now names.old.items ++ names_within T.path_in top.now dir.now items.entry.now) }
{
    'items: for item in items {
        add_name(names, item, dir, top)?;
    }
    Ok(())
}

// Adds the name of an item in the listing of a directory, if it lies below it.
fn add_next_name<'a>(names: &mut Vec<&'a [u8]>, path: &'a Path, dir: &Path) -> Result<(), Memory>
    ensures { OnOk result (texts_now names.new.items
        ≡ texts_now names.old.items ++ cons_option (next_atom_of dir.now path.entry.now) []) }
{
    if let Some(name) = next_atom(dir, path) {
        names.push(name)?;
    }
    Ok(())
}

// Adds the names of items in the listing of a directory, of those that lie below it.
pub(crate) fn add_next<'a>(
    names: &mut Vec<&'a [u8]>,
    paths: &'a [Path],
    dir: &Path,
) -> Result<(), Memory>
    ensures { OnOk result (texts_now names.new.items
        ≡ texts_now names.old.items ++ filter_map (next_atom_of dir.now) paths.entry.now) }
{
    'paths: for path in paths {
        add_next_name(names, path, dir)?;
    }
    Ok(())
}

// Adds the names, in the listing of one directory, of the items that lie below another.
pub(crate) fn add_within<'a, T: HasPath>(
    names: &mut Vec<&'a [u8]>,
    items: &'a [T],
    dir: &Path,
    top: &Path,
) -> Result<(), Memory>
    requires { RiseByText T.path_in items.now }
    ensures { OnOk result (texts_now names.new.items
        ≡ texts_now names.old.items ++ names_within T.path_in top.now dir.now items.entry.now) }
{
    add_each(names, items_below(items, dir), dir, top)
}

// Adds the names of the items that lie below a directory.
pub(crate) fn add_below<'a, T: HasPath>(
    names: &mut Vec<&'a [u8]>,
    items: &'a [T],
    dir: &Path,
) -> Result<(), Memory>
    requires { RiseByText T.path_in items.now }
    ensures { OnOk result (texts_now names.new.items
        ≡ texts_now names.old.items ++ filter_map (λ x. next_atom_of dir.now (T.path_in x)) items.entry.now) }
{
    add_within(names, items, dir, dir)
}
