//! Keys: the budget of evaluation, and the specifications with their digests.
ghost use Rattle.std.specs.Prelude.{◌≡◌, ◌++◌, IfOk, OnOk};
ghost use Rattle.std.specs.List.{AllByRecursion, flat_map};
ghost use Rattle.bx_tree.specs.Paths.{IsPath};
ghost use Rattle.dscript_program.specs.Workspaces.{module_data, modules_data};
ghost use Rattle.graph_texts.specs.Keys.{HasKey, IsModule, module_lines, spec_line, text_at};
ghost use Rattle.graph_texts.specs.Keys.{key_text as text_of_key};

use bx_digest::digest_of;
use bx_tree::{Path, Tree};
use dscript_program::{ModuleText, Workspace};
use prints::{append_counted, append_digest, append_number, append_path};
use std::alloc::{AllocError, Global};

/// The bytes of the source file at a path, none where there is no file.
pub fn spec_text<'a>(tree: &'a Tree, path: &Path) -> &'a [u8]
    ensures { result.now ≡ text_at tree.entry.now path.now }
{
    match tree.find(path) {
        Some(text) => text,
        None => &[],
    }
}

// Adds a specification with the digest of its text.
fn append_spec(
    alloc: Global,
    text: &mut Vec<u8>,
    tree: &Tree,
    path: &Path,
) -> Result<(), AllocError>
    ensures text { OnOk result (text.new.items ≡ text.old.items ++ spec_line tree.now path.now) }
    ensures path { OnOk result (IsPath path.now) }
{
    text.extend_from_slice(b"spec ")?;
    append_path(text, path, b' ')?;
    append_digest(alloc, text, &digest_of(spec_text(tree, path)), b'\n')
}

fn append_specs(
    alloc: Global,
    text: &mut Vec<u8>,
    tree: &Tree,
    paths: &[Path],
) -> Result<(), AllocError>
    ensures text { OnOk result
        (text.new.items ≡ text.old.items ++ flat_map (spec_line tree.now) paths.now) }
    ensures paths { OnOk result (AllByRecursion IsPath paths.now) }
{
    'paths: for path in paths {
        append_spec(alloc, text, tree, path)?;
    }
    Ok(())
}

// Adds a module with its specifications.
fn append_module(
    alloc: Global,
    text: &mut Vec<u8>,
    tree: &Tree,
    owner: &ModuleText,
) -> Result<(), AllocError>
    ensures text { OnOk result
        (text.new.items ≡ text.old.items ++ module_lines tree.now (module_data owner.now)) }
    ensures module { OnOk result (IsModule (module_data owner.now)) }
{
    text.extend_from_slice(b"module ")?;
    append_counted(alloc, text, owner.name.bytes(), b'\n')?;
    append_specs(alloc, text, tree, owner.files.as_slice())
}

fn append_modules(
    alloc: Global,
    text: &mut Vec<u8>,
    tree: &Tree,
    modules: &[ModuleText],
) -> Result<(), AllocError>
    ensures text { OnOk result
        (text.new.items ≡ text.old.items ++ flat_map (module_lines tree.now) (modules_data modules.now)) }
    ensures modules { OnOk result (AllByRecursion IsModule (modules_data modules.now)) }
{
    'modules: for owner in modules {
        append_module(alloc, text, tree, owner)?;
    }
    Ok(())
}

/// The key of evaluating a workspace over a tree within a budget of steps.
pub fn key_text(
    alloc: Global,
    work: &Workspace,
    tree: &Tree,
    budget: u64,
) -> Result<Vec<u8>, AllocError>
    ensures text { IfOk result (λ text.
        text.items ≡ text_of_key budget (modules_data work.now.modules.items) tree.now) }
    ensures key { IfOk result (λ text. HasKey budget (modules_data work.now.modules.items)) }
{
    let mut text = Vec::from_slice(alloc, b"graph 1\nbudget ")?;
    append_number(alloc, &mut text, budget, b'\n')?;
    append_modules(alloc, &mut text, tree, work.modules.as_slice())?;
    Ok(text)
}
