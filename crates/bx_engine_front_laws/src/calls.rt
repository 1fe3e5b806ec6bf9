//! What functions are called with.
ghost use Rattle.std.specs.Prelude.{◌≡◌, ℕ, List, Ok};
ghost use Rattle.bx_tree.specs.Trees.{Files};
ghost use Rattle.dscript_eval_laws.specs.FullCalls.{meaning_or};
ghost use Rattle.dscript_eval_meaning.specs.Acts.{Acts as AnyActs};
ghost use Rattle.dscript_eval_meaning.specs.Meaning.{meaning};
ghost use Rattle.dscript_names.specs.Named.{named};
ghost use Rattle.dscript_names_scopes.specs.Declarations.{ParsedData};
ghost use Rattle.dscript_program.specs.ProgramData.{ProgramData};
ghost use Rattle.dscript_program.specs.Workspaces.{ModuleData};

/// In a program whose names are resolved, a function is called only with as many values as it captures: whatever is done
/// where another number of values is held, the program means the same.
pub fn resolved_programs_call_in_full()
    ensures { (modules : List ModuleData) (files : List ParsedData) (program : ProgramData) (otherwise : AnyActs)
        (sources : Files) (budget : ℕ) → named modules files ≡ Ok program
        → meaning_or program otherwise sources budget ≡ meaning program sources budget }
{}
