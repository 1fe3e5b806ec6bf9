//! Strings, and literals of paths without holes.

ghost use Rattle.std.specs.Prelude.{◌≡◌, None, Some, MatchOption, map};
ghost use Rattle.dscript_ast.specs.Views.{expr_tree, part_tree};
ghost use Rattle.dscript_names_workspace.specs.Lists.{directory_text as text_of_directory, file_text as text_of_file};
ghost use Rattle.dscript_names_workspace.specs.Lists.{only_of, pair_of};
ghost use Rattle.dscript_ast.specs.Literals.{string_of};

use bx_tree::Text;
use dscript_ast::{Expr, PathKind, PostfixPart};

/// The value of a string.
pub(crate) fn string(value: &Expr) -> Option<&Text>
    ensures { MatchOption result
        (string_of (expr_tree value.entry.now) ≡ None)
        (λ text. string_of (expr_tree value.entry.now) ≡ Some text.now) }
{
    match value {
        Expr::Str(text) => Some(text),
        _ => None,
    }
}

/// The text of a literal of a file.
pub(crate) fn file_text(value: &Expr) -> Option<&[u8]>
    ensures { MatchOption result
        (text_of_file (expr_tree value.entry.now) ≡ None)
        (λ text. text_of_file (expr_tree value.entry.now) ≡ Some text.now) }
{
    let Expr::Path(PathKind::File, text, holes) = value else {
        return None;
    };
    if holes.is_empty() {
        Some(text.bytes())
    } else {
        None
    }
}

/// The text of a literal of a directory.
pub(crate) fn directory_text(value: &Expr) -> Option<&[u8]>
    ensures { MatchOption result
        (text_of_directory (expr_tree value.entry.now) ≡ None)
        (λ text. text_of_directory (expr_tree value.entry.now) ≡ Some text.now) }
{
    let Expr::Path(PathKind::Directory, text, holes) = value else {
        return None;
    };
    if holes.is_empty() {
        Some(text.bytes())
    } else {
        None
    }
}

/// The one part after a callee.
pub(crate) fn only_part(parts: &[PostfixPart]) -> Option<&PostfixPart>
    ensures { MatchOption result
        (only_of (map part_tree parts.entry.now) ≡ None)
        (λ part. only_of (map part_tree parts.entry.now) ≡ Some (part_tree part.now)) }
{
    if parts.len() == 1 {
        Some(&parts[0])
    } else {
        None
    }
}

/// The arguments of a call that has two.
pub(crate) fn pair(values: &[Expr]) -> Option<(&Expr, &Expr)>
    ensures { MatchOption result
        (pair_of (map expr_tree values.entry.now) ≡ None)
        (λ both. pair_of (map expr_tree values.entry.now)
        ≡ Some (expr_tree both.0.now, expr_tree both.1.now)) }
{
    if values.len() == 2 {
        Some((&values[0], &values[1]))
    } else {
        None
    }
}
