//! A second build over the store that a build left.
ghost use Rattle.std.specs.Prelude.{◌≡◌, ◌+◌, ℕ, List, Some, true};
ghost use Rattle.std.specs.List.{list_all};
ghost use Rattle.bx_tree.specs.Trees.{Files};
ghost use Rattle.bx_io.specs.Holdings.{Holdings, StoreTold as AnyTold, held_in};
ghost use Rattle.pip_model_types.specs.Makers.{IsPipList};
ghost use Rattle.pip_model_types.specs.declared.pip.Pip.{Pip};
ghost use Rattle.graph_check.specs.Rules.{KeepsRules};
ghost use Rattle.one_thread.specs.OneThread.{one_thread, run_count, verdicts_of};
ghost use Rattle.violations.specs.Verdicts.{is_success};
ghost use Rattle.sched_board_slots.specs.declared.held.Held.{Held as AnyHeld};
ghost use Rattle.retire.specs.Builds.{IsFair, LeavesFair, LeavesUsable};
ghost use Rattle.retire.specs.Counts.{CountsOver, CountsWithin};
ghost use Rattle.retire.specs.Runs.{NoneReserved};
ghost use Rattle.retire_laws.specs.SecondBuild.{AllReadBack, HoldNoRun, NamesHeldPaths};

/// The store that a build leaves of a fair one is fair for the same build: nothing is compared in the second that was
/// not compared in the first. So where all pips succeed and no lookup or save of the first failed, a second build
/// that counts no fault runs no tool where it collects its results, whatever its slots hold; and all its processes hit
/// where no slot holds a run.
pub fn second_build()
    ensures fair { (pips : List Pip) (tree : Files) (budget : ℕ) (held kept : Holdings) (before now : AnyTold)
        → IsPipList pips → KeepsRules pips tree → NoneReserved tree → AllReadBack pips tree budget
        → NamesHeldPaths held → IsFair pips tree budget held → held_in before ≡ Some held
        → held_in now ≡ Some kept → LeavesFair pips tree budget held before now → IsFair pips tree budget kept }
    ensures none_late { (pips : List Pip) (tree : Files) (budget : ℕ) (kept : Holdings) (now : AnyTold)
        (hits late : ℕ) → held_in now ≡ Some kept → LeavesUsable pips tree budget now
        → list_all is_success (verdicts_of (one_thread pips tree budget)) ≡ true
        → CountsWithin pips tree budget kept hits late 0 → late ≡ 0 }
    ensures runs_no_tool { (pips : List Pip) (tree : Files) (budget : ℕ) (kept : Holdings) (now : AnyTold)
        (slots : List AnyHeld) (hits ran late : ℕ) → held_in now ≡ Some kept → LeavesUsable pips tree budget now
        → list_all is_success (verdicts_of (one_thread pips tree budget)) ≡ true → HoldNoRun slots
        → CountsOver pips tree budget kept slots hits late 0
        → hits + ran ≡ run_count pips (verdicts_of (one_thread pips tree budget)) → ran ≡ 0 }
{}
