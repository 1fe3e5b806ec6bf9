//! Laws of steps and of open calls. The functions do nothing: their clauses are the laws.

ghost use Rattle.std.specs.Prelude.{◌≡◌, ℕ, ◌+◌};
ghost use Rattle.bx_tree.specs.Trees.{Files};
ghost use Rattle.dscript_program.specs.ProgramData.{ProgramData};
ghost use Rattle.dscript_eval_meaning.specs.Acts.{Act};
ghost use Rattle.dscript_sdk_calls.specs.Sources.{Answers, tree_answers};
ghost use Rattle.dscript_eval_meaning.specs.Meaning.{acts, answered_meaning, meaning, pips_of};
ghost use Rattle.dscript_eval_meaning.specs.States.{State};
ghost use Rattle.dscript_eval_meaning.specs.Laws.{IsTooDeep, TakesSteps};

/// Whatever answers its asks of the source tree, a program takes a number of steps. With each budget from that
/// number on it has one answer, and with each smaller budget it runs out of steps.
pub fn steps_of_programs()
    ensures { (p : ProgramData) (answers : Answers) → TakesSteps p answers }
{}

/// Where source files answer, the pips or the fault of a program are those of its meaning over these files.
pub fn meaning_over_sources()
    ensures { (p : ProgramData) (sources : Files) (budget : ℕ)
        → pips_of (answered_meaning p (tree_answers sources) budget) ≡ meaning p sources budget }
{}

/// Where a call does not meet the limit on open calls, it comes to the same value and state, or fault, where
/// more calls may be open.
pub fn calls_that_are_open()
    ensures { (p : ProgramData) (openable more : ℕ) (act : Act) (s : State)
        → (IsTooDeep (acts p openable act s) → ⊥) → acts p (openable + more) act s ≡ acts p openable act s }
{}
