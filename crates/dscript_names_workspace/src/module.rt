//! What a module file says.

ghost use Rattle.std.specs.Prelude.{◌≡◌, None, Some, IfOk, MatchOption, map, option_and_then};
ghost use Rattle.dscript_ast.specs.Views.{expr_tree, part_tree, prop_tree};
ghost use Rattle.dscript_names_workspace.specs.Lists.{only_of};
ghost use Rattle.dscript_names_workspace.specs.Modules.{are_projects as projects_are, described as module_described};
ghost use Rattle.dscript_names_workspace.specs.Modules.{described_by as module_of, is_semantics as semantics_are};
ghost use Rattle.dscript_names_workspace.specs.Modules.{is_text};
ghost use Rattle.dscript_names_workspace.specs.Modules.{member_of, name_in as name_of_module};
ghost use Rattle.dscript_names_workspace.specs.Modules.{projects_in as projects_listed, projects_of as projects_meant};
ghost use Rattle.dscript_names_workspace.specs.Paths.{AreWithin, paths_at};
ghost use Rattle.dscript_names_workspace.specs.ConfigViews.{FindsPositions, Describes, IsProjects};
ghost use Rattle.dscript_ast.specs.Literals.{name_of};

use crate::gathering::in_order;
use crate::listed_files::files_listed;
use crate::literal::{only_part, string};
use crate::object::{field_named, object_with};
use crate::paths::{is_specification, path_at};
use bx_tree::{Path, Text, Tree};
use dscript_ast::{Expr, PostfixPart, Prop};
use std::alloc::{AllocError, Global};

/// What a module file says of its module.
#[derive(Drop)]
pub struct Description {
    pub name: Text,
    /// The positions in the tree of the files that it lists, in the order of the tree and each once.
    pub projects: Option<Vec<usize>>,
}

/// The name of a module: a string that is not empty.
fn name_in(value: &Expr) -> Option<&Text>
    ensures { MatchOption result
        (name_of_module (expr_tree value.entry.now) ≡ None)
        (λ name. name_of_module (expr_tree value.entry.now) ≡ Some name.now) }
{
    let text = string(value)?;
    if text.bytes().is_empty() {
        None
    } else {
        Some(text)
    }
}

/// Whether the files at these positions are specifications below a directory.
fn are_projects(tree: &Tree, dir: &Path, positions: &[usize]) -> bool
    requires { AreWithin tree.now positions.now }
    ensures { result ≡ projects_are dir.now (paths_at tree.now positions.now) }
{
    'positions: for position in positions {
        let path = path_at(tree, *position);
        if !(path.is_below(dir) && is_specification(path)) {
            return false;
        }
    }
    true
}

/// The positions of the files of a list, in the order of the tree and each once, if each is a specification
/// below the directory.
fn projects_in(
    alloc: Global,
    tree: &Tree,
    dir: &Path,
    list: &Expr,
) -> Result<Option<Vec<usize>>, AllocError>
    ensures { IfOk result (λ found.
        FindsPositions tree.now (projects_listed tree.now dir.now (expr_tree list.now)) found) }
{
    let Some(positions) = files_listed(alloc, tree, dir, list)? else {
        return Ok(None);
    };
    if are_projects(tree, dir, positions.as_slice()) {
        Ok(Some(in_order(tree, positions)))
    } else {
        Ok(None)
    }
}

/// What the field for files says: nothing where there is none.
fn projects_of(
    alloc: Global,
    tree: &Tree,
    dir: &Path,
    props: &[Prop],
) -> Result<Option<Option<Vec<usize>>>, AllocError>
    ensures { IfOk result (λ found. MatchOption found
        (projects_meant tree.now dir.now (map prop_tree props.now) ≡ None)
        (λ projects.
        IsProjects tree.now (projects_meant tree.now dir.now (map prop_tree props.now)) projects)) }
{
    let Some(list) = field_named(props, b"projects") else {
        return Ok(Some(None));
    };
    match projects_in(alloc, tree, dir, list)? {
        Some(positions) => Ok(Some(Some(positions))),
        None => Ok(None),
    }
}

/// Whether an expression is this name.
fn is_name(value: &Expr, name: &[u8]) -> bool
    ensures { result ≡ is_text name.now (name_of (expr_tree value.now)) }
{
    match value {
        Expr::Name(own) => own.bytes() == name,
        _ => false,
    }
}

/// Whether the one part after a callee is this member.
fn is_member(parts: &[PostfixPart], name: &[u8]) -> bool
    ensures { result ≡ is_text name.now (option_and_then member_of (only_of (map part_tree parts.now))) }
{
    match only_part(parts) {
        Some(PostfixPart::Member(own)) => own.bytes() == name,
        _ => false,
    }
}

/// Whether an expression is `NameResolutionSemantics.implicitProjectReferences`.
fn is_semantics(value: &Expr) -> bool
    ensures { result ≡ semantics_are (expr_tree value.now) }
{
    match value {
        Expr::Postfix(callee, parts) => {
            is_name(callee, b"NameResolutionSemantics")
                && is_member(parts.as_slice(), b"implicitProjectReferences")
        }
        _ => false,
    }
}

/// The module that these fields describe.
fn described_by(
    alloc: Global,
    tree: &Tree,
    dir: &Path,
    props: &[Prop],
) -> Result<Option<Description>, AllocError>
    ensures { IfOk result (λ found. MatchOption found
        (module_of tree.now dir.now (map prop_tree props.now) ≡ None)
        (λ d. Describes tree.now (module_of tree.now dir.now (map prop_tree props.now)) d)) }
{
    if let Some(semantics) = field_named(props, b"nameResolutionSemantics") {
        if !is_semantics(semantics) {
            return Ok(None);
        }
    }
    let Some(field) = field_named(props, b"name") else {
        return Ok(None);
    };
    let Some(name) = name_in(field) else {
        return Ok(None);
    };
    let Some(projects) = projects_of(alloc, tree, dir, props)? else {
        return Ok(None);
    };
    Ok(Some(Description {
        name: name.share()?,
        projects,
    }))
}

/// The module that a module file in this directory describes; none where it says something that is not
/// allowed.
pub fn described(
    alloc: Global,
    tree: &Tree,
    dir: &Path,
    value: &Expr,
) -> Result<Option<Description>, AllocError>
    ensures { IfOk result (λ found. MatchOption found
        (module_described tree.now dir.now (expr_tree value.now) ≡ None)
        (λ d. Describes tree.now (module_described tree.now dir.now (expr_tree value.now)) d)) }
{
    match object_with(value, &[b"name", b"projects", b"nameResolutionSemantics"]) {
        Some(props) => described_by(alloc, tree, dir, props),
        None => Ok(None),
    }
}
