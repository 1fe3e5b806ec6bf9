//! Checks the types of a program.

ghost use Rattle.std.specs.Prelude.{◌≡◌, ℕ, ◌+◌, List, Ok, IfOk, MatchResult};
ghost use Rattle.bx_tree.specs.Trees.{Files};
ghost use Rattle.dscript_eval_meaning.specs.Meaning.{meaning};
ghost use Rattle.dscript_names.specs.Named.{named};
ghost use Rattle.dscript_names_scopes.specs.Declarations.{ParsedData};
ghost use Rattle.dscript_program.specs.Views.{program_data};
ghost use Rattle.dscript_program.specs.Workspaces.{ModuleData};
ghost use Rattle.dscript_types.specs.Faults.{Refuses};
ghost use Rattle.dscript_types_laws.specs.Kinds.{KeepsToKinds};
ghost use Rattle.dscript_types_meaning.specs.Typed.{IsTyped, reach};

use crate::fault::TypeFault;
use crate::finding::Finder;
use crate::verdicts::first_untyped;
use bx_tree::Memory;
use dscript_program::Program;
use dscript_types_laws::typed_programs_keep_to_kinds;
use dscript_types_notes::{TypeNames, World};
use std::alloc::{AllocError, Global};

// How many declarations and callbacks may be looked into, one for another. More than can be counted are out of memory long
// before.
fn reach_of(program: &Program) -> Result<u64, Memory>
    ensures { IfOk result (λ n. n ≡ reach (program_data program.now)) }
{
    let files = program.files();
    let mut count = program.functions().len() as u64;
    'counted: for file in files {
        count = sum_of(count, file.decls.len() as u64)?;
    }
    sum_of(count, count)
}

fn sum_of(a: u64, b: u64) -> Result<u64, Memory>
    ensures { IfOk result (λ sum. sum ≡ a + b) }
{
    match a.checked_add(b) {
        Some(sum) => Ok(sum),
        None => Err(AllocError),
    }
}

/// Whether each expression of a program has a type, or the first file by path in which one has none.
///
/// The evaluation of a program that is typed never ends in a fault of kinds, nor in one of a missing member. It may
/// end in any other fault.
pub fn check_types(alloc: Global, program: &Program) -> Result<(), TypeFault>
    ensures exact { MatchResult result
        (λ _. IsTyped (program_data program.now))
        (λ fault. Refuses (program_data program.now) fault) }
    ensures sound { IfOk result (λ _.
        (modules : List ModuleData) (files : List ParsedData)
        → named modules files ≡ Ok (program_data program.now)
        → (sources : Files) (budget : ℕ) → KeepsToKinds (meaning (program_data program.now) sources budget)) }
{
    typed_programs_keep_to_kinds();
    let names = TypeNames::new(alloc, program)?;
    let left = reach_of(program)?;
    let finder = Finder {
        alloc,
        program,
        names: &names,
        left,
    };
    let table = finder.find_all()?;
    let world = World {
        alloc,
        program,
        names: &names,
        table: &table,
        left,
    };
    match first_untyped(&world)? {
        Some(file) => Err(TypeFault::Untyped {
            file: file.path.share()?,
        }),
        None => Ok(()),
    }
}
