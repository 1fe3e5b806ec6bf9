//! What typed programs evaluate to.

ghost use Rattle.std.specs.Prelude.{◌≡◌, ℕ, List, Ok};
ghost use Rattle.bx_tree.specs.Trees.{Files};
ghost use Rattle.dscript_eval_meaning.specs.Meaning.{meaning};
ghost use Rattle.dscript_names.specs.Named.{named};
ghost use Rattle.dscript_names_scopes.specs.Declarations.{ParsedData};
ghost use Rattle.dscript_program.specs.ProgramData.{ProgramData};
ghost use Rattle.dscript_program.specs.Workspaces.{ModuleData};
ghost use Rattle.dscript_types_laws.specs.Kinds.{KeepsToKinds};
ghost use Rattle.dscript_types_meaning.specs.Typed.{IsTyped};

use dscript_names::{captures_are_outer, locals_are_consecutive};

/// A typed program of a workspace never asks a value for what its kind does not have: over all source files and
/// with each budget, its evaluation ends in neither a fault of kinds nor a missing member.
pub fn typed_programs_keep_to_kinds()
    ensures { (modules : List ModuleData) (files : List ParsedData) (p : ProgramData)
        → named modules files ≡ Ok p → IsTyped p
        → (sources : Files) (budget : ℕ) → KeepsToKinds (meaning p sources budget) }
{
    locals_are_consecutive();
    captures_are_outer();
}
