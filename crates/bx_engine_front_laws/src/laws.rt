//! Which faults have a message or a place.
ghost use Rattle.std.specs.Prelude.{◌≡◌, ◌⊎◌, ℕ, List, Some};
ghost use Rattle.bx_tree.specs.Paths.{Atoms};
ghost use Rattle.bx_tree.specs.Trees.{Files};
ghost use Rattle.dscript_program.specs.SpecFaults.{FaultData};
ghost use Rattle.dscript_program.specs.declared.place.Place.{Place as AnyPlace};
ghost use Rattle.dscript_program.specs.declared.spec_fault.SpecKind.TheVariants.{Lex, Syntax};
ghost use Rattle.dscript_eval_meaning.specs.declared.fault.EvalKind.{EvalKind as AnyKind};
ghost use Rattle.dscript_eval_meaning.specs.declared.fault.EvalKind.TheVariants.{User};
ghost use Rattle.bx_engine_front.specs.Specifications.{HasFault, OfEvaluation, OfProgram};
ghost use Rattle.bx_engine_front.specs.declared.limits.Limits.{Limits as AnyLimits};

/// A fault has a message only where the specification asked to be refused, and a place only where a text is no list
/// of tokens or no file.
pub fn faults_say_what_they_may()
    ensures message { (limits : AnyLimits) (tree : Files) (kind : AnyKind) (file : Atoms) (message : List ℕ)
        → HasFault limits tree (OfEvaluation kind file (Some message)) → kind ≡ User }
    ensures place { (limits : AnyLimits) (tree : Files) (fault : FaultData) (place : AnyPlace)
        → HasFault limits tree (OfProgram fault) → fault.place ≡ Some place
        → (fault.kind ≡ Lex) ⊎ (fault.kind ≡ Syntax) }
{}
