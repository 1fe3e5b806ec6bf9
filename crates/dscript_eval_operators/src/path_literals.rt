//! Path, file and directory literals.
ghost use Rattle.std.specs.Prelude.{◌≡◌, Ok, Err, Some, None, MatchOption, MatchResult, OnErr};
ghost use Rattle.dscript_value.specs.Plain.{plain_of};
ghost use Rattle.dscript_sdk_values.specs.Outcomes.{Refuses};
ghost use Rattle.dscript_eval_operators.specs.PathLiterals as spec;
ghost use Rattle.dscript_eval_operators.specs.PathLiterals.{first_hole, lettered, path_to};

use crate::texts::add_literal_hole;
use bx_path::join;
use bx_tree::{FileInput, Path, PathFault};
use dscript_ast::PathKind;
use dscript_sdk_values::SdkFault;
use dscript_value::Value;
use std::alloc::Global;

// The base that a hole at the start of a literal gives, if it gives one.
fn base_of(hole: &Value) -> Option<&Path>
    ensures { MatchOption result
        (spec.base_of (plain_of hole.now) ≡ None)
        (λ base. spec.base_of (plain_of hole.now) ≡ Some base.now) }
{
    match hole {
        Value::Path(path) | Value::Directory(path) => Some(path),
        Value::File(file) => Some(file.path()),
        _ => None,
    }
}

/// Adds the first hole of a literal to the text before it, or gives the hole's path, which is the base of a
/// literal that begins with it. Where it fails, the text is as before.
#[tactic(auto, unfolding(crate::specs::PathLiterals::first_hole))]
pub fn add_first_hole(
    alloc: Global,
    text: &mut Vec<u8>,
    hole: &Value,
) -> Result<Option<Path>, SdkFault>
    ensures adds { MatchResult result
        (λ base. first_hole text.old.items (plain_of hole.now) ≡ Ok (base, text.new.items))
        (λ fault. Refuses fault (first_hole text.old.items (plain_of hole.now))) }
    ensures unchanged { OnErr result (text.new.items ≡ text.old.items) }
{
    if text.is_empty() {
        if let Some(base) = base_of(hole) {
            return Ok(Some(base.share()?));
        }
    }
    add_literal_hole(alloc, text, hole)?;
    Ok(None)
}

// Where a text leads.
fn path_at(alloc: Global, dir: &Path, base: Option<Path>, text: &[u8]) -> Result<Path, PathFault>
    ensures { MatchResult result
        (λ path. path_to dir.now base text.now ≡ Some path)
        (λ fault. fault ≡ PathFault.BadPath → path_to dir.now base text.now ≡ None) }
{
    let Some(base) = base else {
        return join(alloc, dir, text);
    };
    match text.split_first() {
        None => Ok(base),
        Some((b'/', rest)) => join(alloc, &base, rest),
        Some(_) => Err(PathFault::BadPath),
    }
}

// The path as what the letter of the literal asks for.
fn value_at(letter: PathKind, path: Path) -> Result<Value, SdkFault>
    ensures { MatchResult result
        (λ value. lettered letter path ≡ Ok (plain_of value))
        (λ fault. lettered letter path ≡ Err fault) }
{
    let is_root = path.text() == ".";
    match letter {
        PathKind::Directory => Ok(Value::Directory(path)),
        PathKind::Path if !is_root => Ok(Value::Path(path)),
        PathKind::File if !is_root => Ok(Value::File(FileInput::Source(path))),
        PathKind::Path | PathKind::File => Err(SdkFault::BadPath),
        PathKind::Relative | PathKind::Atom => Err(SdkFault::Kind),
    }
}

/// What a literal gives in a file of this directory, by its base, if it has one, and the text after that.
#[tactic(auto, unfolding(crate::specs::PathLiterals::path_literal))]
pub fn path_literal(
    alloc: Global,
    letter: PathKind,
    dir: &Path,
    base: Option<Path>,
    text: &[u8],
) -> Result<Value, SdkFault>
    ensures { MatchResult result
        (λ value. spec.path_literal letter dir.now base text.now ≡ Ok (plain_of value))
        (λ fault. Refuses fault (spec.path_literal letter dir.now base text.now)) }
{
    match path_at(alloc, dir, base, text) {
        Ok(path) => value_at(letter, path),
        Err(PathFault::BadPath) => Err(SdkFault::BadPath),
        Err(PathFault::Memory) => Err(SdkFault::Memory),
    }
}
