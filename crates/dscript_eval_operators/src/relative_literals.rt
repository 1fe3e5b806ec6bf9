//! Relative path literals and atom literals.
ghost use Rattle.std.specs.Prelude.{◌≡◌, Ok, IfOk, MatchResult};
ghost use Rattle.dscript_value.specs.Plain as plain;
ghost use Rattle.dscript_value.specs.Plain.{plain_of};
ghost use Rattle.dscript_sdk_values.specs.Outcomes.{Refuses};
ghost use Rattle.dscript_eval_operators.specs.RelativeLiterals as spec;
ghost use Rattle.bx_tree.specs.Lent.{texts_now};

use bx_path::parts_of;
use bx_tree::{Memory, Text, is_atom};
use dscript_sdk_values::SdkFault;
use dscript_value::{RelativePath, Value};
use std::alloc::Global;

// The atoms among these parts, of which each is an atom or `.`.
fn atoms_of(alloc: Global, parts: &[&[u8]]) -> Result<Vec<Text>, SdkFault>
    ensures { MatchResult result
        (λ atoms. spec.atoms_of (texts_now parts.now) ≡ Ok atoms.items)
        (λ fault. Refuses fault (spec.atoms_of (texts_now parts.now))) }
{
    let mut atoms = Vec::new(alloc);
    'parts: for part in parts {
        if *part == b".".as_slice() {
            continue;
        }
        if !is_atom(part) {
            return Err(SdkFault::BadPath);
        }
        atoms.push(Text::new(alloc, part.to_vec(alloc)?)?)?;
    }
    Ok(atoms)
}

/// The relative path whose atoms are the parts of a text between its `/`, without those that are `.`.
#[tactic(auto, unfolding(crate::specs::RelativeLiterals::relative_literal))]
pub fn relative_literal(alloc: Global, text: &[u8]) -> Result<Value, SdkFault>
    ensures { MatchResult result
        (λ value. spec.relative_literal text.now ≡ Ok (plain_of value))
        (λ fault. Refuses fault (spec.relative_literal text.now)) }
{
    let parts = parts_of(alloc, text)?;
    let atoms = atoms_of(alloc, parts.as_slice())?;
    Ok(Value::Relative(RelativePath::of(alloc, atoms)?))
}

fn atom_value(alloc: Global, text: Vec<u8>) -> Result<Value, Memory>
    ensures { IfOk result (λ value. plain_of value ≡ plain.Atom text.items) }
{
    Ok(Value::Atom(Text::new(alloc, text)?))
}

/// The atom that a text is.
#[tactic(auto, unfolding(crate::specs::RelativeLiterals::atom_literal))]
pub fn atom_literal(alloc: Global, text: Vec<u8>) -> Result<Value, SdkFault>
    ensures { MatchResult result
        (λ value. spec.atom_literal text.items ≡ Ok (plain_of value))
        (λ fault. Refuses fault (spec.atom_literal text.items)) }
{
    if !is_atom(text.as_slice()) {
        return Err(SdkFault::BadPath);
    }
    Ok(atom_value(alloc, text)?)
}
