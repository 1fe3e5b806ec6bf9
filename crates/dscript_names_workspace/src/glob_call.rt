//! Calls of `glob` and `globR`.

ghost use Rattle.std.specs.Prelude.{◌≡◌, None, Some, IfOk, MatchOption, map};
ghost use Rattle.dscript_ast.specs.Views.{expr_tree, part_tree};
ghost use Rattle.dscript_names_workspace.specs.Lists.{depth_of as depth_called, glob_call as call_of};
ghost use Rattle.dscript_names_workspace.specs.Lists.{arguments_in as arguments_among, glob_in as files_globbed};
ghost use Rattle.dscript_names_workspace.specs.Lists.{glob_with as glob_of_both};
ghost use Rattle.dscript_names_workspace.specs.Lists.{listed_by as files_listed_by};
ghost use Rattle.dscript_names_workspace.specs.ConfigViews.{glob_data};

use crate::literal::{directory_text, only_part, pair, string};
use bx_path::{GlobFault, glob, join};
use bx_tree::{Path, PathFault, Tree};
use dscript_ast::{Expr, PostfixPart};
use std::alloc::{AllocError, Global};

/// What a glob says.
#[derive(Drop)]
struct GlobCall<'a> {
    /// Whether it lists all files below the directory, and not only those directly in it.
    deep: bool,
    directory: &'a [u8],
    pattern: &'a [u8],
}

/// Whether a callee is `globR` and not `glob`.
fn depth_of(callee: &Expr) -> Option<bool>
    ensures { result ≡ depth_called (expr_tree callee.now) }
{
    match callee {
        Expr::Name(name) if name.bytes() == b"glob".as_slice() => Some(false),
        Expr::Name(name) if name.bytes() == b"globR".as_slice() => Some(true),
        _ => None,
    }
}

/// The two arguments of a call that is the only part after a callee.
fn arguments(parts: &[PostfixPart]) -> Option<(&Expr, &Expr)>
    ensures { MatchOption result
        (arguments_among (map part_tree parts.entry.now) ≡ None)
        (λ both. arguments_among (map part_tree parts.entry.now)
        ≡ Some (expr_tree both.0.now, expr_tree both.1.now)) }
{
    match only_part(parts)? {
        PostfixPart::Call(values) => pair(values.as_slice()),
        _ => None,
    }
}

/// What a glob with these arguments says.
fn glob_with<'a>(deep: bool, directory: &'a Expr, pattern: &'a Expr) -> Option<GlobCall<'a>>
    ensures { MatchOption result
        (glob_of_both deep (expr_tree directory.entry.now, expr_tree pattern.entry.now) ≡ None)
        (λ call. glob_of_both deep (expr_tree directory.entry.now, expr_tree pattern.entry.now)
        ≡ Some (glob_data call)) }
{
    let directory = directory_text(directory)?;
    let pattern = string(pattern)?.bytes();
    Some(GlobCall {
        deep,
        directory,
        pattern,
    })
}

/// What a call of `glob` or `globR` says.
fn glob_call(value: &Expr) -> Option<GlobCall<'_>>
    ensures { MatchOption result
        (call_of (expr_tree value.entry.now) ≡ None)
        (λ call. call_of (expr_tree value.entry.now) ≡ Some (glob_data call)) }
{
    let Expr::Postfix(callee, parts) = value else {
        return None;
    };
    let deep = depth_of(callee)?;
    let (directory, pattern) = arguments(parts.as_slice())?;
    glob_with(deep, directory, pattern)
}

/// The files that a glob in a file of this directory lists.
fn glob_in(
    alloc: Global,
    tree: &Tree,
    dir: &Path,
    call: &GlobCall<'_>,
) -> Result<Option<Vec<Path>>, AllocError>
    ensures { IfOk result (λ found. MatchOption found
        (files_globbed tree.now dir.now (glob_data call.now) ≡ None)
        (λ paths. files_globbed tree.now dir.now (glob_data call.now) ≡ Some paths.items)) }
{
    let path = match join(alloc, dir, call.directory) {
        Ok(path) => path,
        Err(PathFault::BadPath) => return Ok(None),
        Err(PathFault::Memory) => return Err(AllocError),
    };
    match glob(alloc, tree, &path, call.pattern, call.deep) {
        Ok(paths) => Ok(Some(paths)),
        Err(GlobFault::BadPattern) => Ok(None),
        Err(GlobFault::Memory) => Err(AllocError),
    }
}

/// The files that an expression in a file of this directory lists, if it is a glob.
pub(crate) fn listed_by(
    alloc: Global,
    tree: &Tree,
    dir: &Path,
    value: &Expr,
) -> Result<Option<Vec<Path>>, AllocError>
    ensures { IfOk result (λ found. MatchOption found
        (files_listed_by tree.now dir.now (expr_tree value.now) ≡ None)
        (λ paths. files_listed_by tree.now dir.now (expr_tree value.now) ≡ Some paths.items)) }
{
    match glob_call(value) {
        Some(call) => glob_in(alloc, tree, dir, &call),
        None => Ok(None),
    }
}
