//! Directories that do not list their files, in the order of their paths.
ghost use Rattle.std.specs.Prelude.{◌≡◌, ◌++◌, ◌∷◌, [], true, Contains, IfOk, OnOk, filter};
ghost use Rattle.bx_tree_paths.specs.Spans.{IsBetween};
ghost use Rattle.pip_model_types.specs.Dirs.{RiseByForm, dir_path, is_source_form as unlisted};
ghost use Rattle.pip_model_types.specs.declared.dir_inputs.DirInput.{DirInput as AnyDir};
ghost use Rattle.pip_view_directories.specs.Ranges.{AddsAll, AreOthers, IsWithin};
ghost use Rattle.pip_view_directories.specs.Ranges.{is_other as other};

use bx_tree::Memory;
use bx_tree_paths::span_between;
use pip_model::{DirInput, DirInputs, SealForm};
use std::alloc::Global;

// Whether a seal of this form does not list its files.
fn is_unlisted(form: SealForm) -> bool
    ensures { result ≡ unlisted form }
{
    match form {
        SealForm::Full | SealForm::Partial => false,
        SealForm::SourceTop | SealForm::SourceAll => true,
    }
}

// Whether a directory does not list its files.
fn is_other(dir: &DirInput) -> bool
    ensures { result ≡ other dir.now }
{
    match dir {
        DirInput::Sealed(_, form, _) => is_unlisted(*form),
        DirInput::Opaque(_, _) => true,
    }
}

// Adds a directory, if it does not list its files.
fn add_other(others: &mut Vec<DirInput>, dir: &DirInput) -> Result<(), Memory>
    ensures { OnOk result (others.new.items ≡ others.old.items ++ filter other (dir.now ∷ [])) }
{
    if is_other(dir) {
        others.push(dir.share()?)?;
    }
    Ok(())
}

// Those of the directories that do not list their files.
fn all_others(alloc: Global, dirs: &[DirInput]) -> Result<Vec<DirInput>, Memory>
    ensures { IfOk result (λ others. others.items ≡ filter other dirs.now) }
{
    let mut others = Vec::new(alloc);
    'dirs: for dir in dirs {
        add_other(&mut others, dir)?;
    }
    Ok(others)
}

/// The directories that do not list their files.
pub fn other_dirs(alloc: Global, dirs: &[DirInput]) -> Result<DirInputs, Memory>
    ensures { IfOk result (AreOthers dirs.now) }
{
    Ok(DirInputs::of(all_others(alloc, dirs)?))
}

// The directories whose paths have texts that come before a text with one ending, and not before it with another.
fn between<'a>(dirs: &'a [DirInput], text: &[u8], low: &[u8], high: &[u8]) -> &'a [DirInput]
    requires { RiseByForm dirs.now }
    ensures only { (dir : AnyDir) → Contains result.now dir → Contains dirs.entry.now dir }
    ensures all { (dir : AnyDir) → Contains dirs.entry.now dir
        → IsBetween (text.now ++ low.now) (text.now ++ high.now) (dir_path dir) → Contains result.now dir }
{
    let span = span_between(dirs, text, low, high);
    &dirs[span.from..span.to]
}

// Adds some directories.
fn add_all(found: &mut Vec<DirInput>, dirs: &[DirInput]) -> Result<(), Memory>
    ensures { OnOk result (found.new.items ≡ found.old.items ++ dirs.now) }
{
    'dirs: for dir in dirs {
        found.push(dir.share()?)?;
    }
    Ok(())
}

// Adds the directories whose paths have texts that come before a text with one ending, and not before it with
// another. Whether there are so few of them that all were added.
pub(crate) fn add_between(
    found: &mut Vec<DirInput>,
    dirs: &[DirInput],
    text: &[u8],
    low: &[u8],
    high: &[u8],
    most: usize,
) -> Result<bool, Memory>
    requires { RiseByForm dirs.now }
    ensures { IfOk result (λ few. few ≡ true
        → AddsAll dirs.now (IsWithin (text.now ++ low.now) (text.now ++ high.now)) found.old.items found.new.items) }
{
    let range = between(dirs, text, low, high);
    if range.len() > most.saturating_sub(found.len()) {
        return Ok(false);
    }
    add_all(found, range)?;
    Ok(true)
}
