//! Values as parts of texts.
ghost use Rattle.std.specs.Prelude.{◌≡◌, ◌++◌, Ok, IfOk, MatchResult, OnErr};
ghost use Rattle.std.specs.Fmt.{signed_decimal};
ghost use Rattle.dscript_value.specs.Plain.{plain_of};
ghost use Rattle.dscript_sdk_values.specs.Outcomes.{Refuses};
ghost use Rattle.dscript_eval_operators.specs.Texts.{appended_hole, literal_hole, template_hole};
ghost use Rattle.dscript_eval_operators.specs.Texts.{written_relative};
ghost use Rattle.dscript_sdk_values.specs.PathTexts.{path_argument};

use bx_tree::{Memory, Path, Text};
use dscript_sdk_values::SdkFault;
use dscript_value::Value;
use std::alloc::Global;

// A number as decimal digits.
pub(crate) fn number_text(alloc: Global, number: i32) -> Result<Vec<u8>, Memory>
    ensures { IfOk result (λ text. text.items ≡ signed_decimal number) }
{
    Ok(format!(in alloc; "{number}")?.into_bytes())
}

// A path as it stands in a text.
fn path_hole(alloc: Global, path: &Path) -> Result<Vec<u8>, Memory>
    ensures { IfOk result (λ text. text.items ≡ path_argument path.now) }
{
    let mut text = Vec::new(alloc);
    text.push(b'/')?;
    text.extend_from_slice(path.text().as_bytes())?;
    Ok(text)
}

// Atoms with `/` between them.
fn relative_hole(alloc: Global, atoms: &[Text]) -> Result<Vec<u8>, Memory>
    ensures { IfOk result (λ text. text.items ≡ written_relative atoms.now) }
{
    let mut text = Vec::new(alloc);
    let Some((first, more)) = atoms.split_first() else {
        return Ok(text);
    };
    text.extend_from_slice(first.bytes())?;
    'atoms: for atom in more {
        text.push(b'/')?;
        text.extend_from_slice(atom.bytes())?;
    }
    Ok(text)
}

/// Adds to a text what a hole in a path literal stands for: a text, a number, an atom or a relative path. Where it
/// fails, the text is as before.
#[tactic(auto, unfolding(crate::specs::Texts::literal_hole))]
pub fn add_literal_hole(alloc: Global, text: &mut Vec<u8>, hole: &Value) -> Result<(), SdkFault>
    ensures adds { MatchResult result
        (λ _. appended_hole text.old.items (literal_hole (plain_of hole.now)) ≡ Ok text.new.items)
        (λ fault. Refuses fault (literal_hole (plain_of hole.now))) }
    ensures unchanged { OnErr result (text.new.items ≡ text.old.items) }
{
    match hole {
        Value::Text(more) => text.extend_from_slice(more.bytes())?,
        Value::Number(number) => text.extend_from_slice(number_text(alloc, *number)?.as_slice())?,
        Value::Atom(atom) => text.extend_from_slice(atom.bytes())?,
        Value::Relative(path) => {
            text.extend_from_slice(relative_hole(alloc, path.atoms())?.as_slice())?
        }
        _ => return Err(SdkFault::Kind),
    }
    Ok(())
}

/// Adds to a text what a hole in a template stands for: what it stands for in a path literal, or a flag, a
/// path, a file or a directory. Where it fails, the text is as before.
#[tactic(auto, unfolding(crate::specs::Texts::template_hole))]
pub fn add_template_hole(alloc: Global, text: &mut Vec<u8>, hole: &Value) -> Result<(), SdkFault>
    ensures adds { MatchResult result
        (λ _. appended_hole text.old.items (template_hole (plain_of hole.now)) ≡ Ok text.new.items)
        (λ fault. Refuses fault (template_hole (plain_of hole.now))) }
    ensures unchanged { OnErr result (text.new.items ≡ text.old.items) }
{
    match hole {
        Value::Flag(true) => text.extend_from_slice(b"true")?,
        Value::Flag(false) => text.extend_from_slice(b"false")?,
        Value::Path(path) | Value::Directory(path) => {
            text.extend_from_slice(path_hole(alloc, path)?.as_slice())?
        }
        Value::File(file) => text.extend_from_slice(path_hole(alloc, file.path())?.as_slice())?,
        _ => return add_literal_hole(alloc, text, hole),
    }
    Ok(())
}
