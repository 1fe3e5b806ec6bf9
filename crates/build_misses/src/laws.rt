//! Which processes a build over a store runs.
ghost use Rattle.std.specs.Prelude.{◌≡◌, ◌+◌, ℕ, List, Contains, length, map};
ghost use Rattle.bx_tree.specs.Trees.{Files};
ghost use Rattle.bx_io.specs.Holdings.{Holdings};
ghost use Rattle.pip_model_types.specs.declared.pip.Pip.{Pip as AnyPip};
ghost use Rattle.one_thread.specs.OneThread.{one_thread, run_count, verdicts_of};
ghost use Rattle.retire.specs.Builds.{IsFair};
ghost use Rattle.retire.specs.HitSet.{IsHitSet};
ghost use Rattle.build_misses.specs.MissSet.{IsMissSet};
ghost use Rattle.retire.specs.Over.{RunsOver};
ghost use Rattle.build_misses.specs.Reasoned.{AreReasoned};
ghost use Rattle.build_misses.specs.declared.finding.Miss.{Miss as AnyMiss};

/// Processes with reasons are those that a build runs.
pub fn reasoned_run()
    ensures { (pips : List AnyPip) (tree : Files) (budget : ℕ) (S : Holdings) (misses : List AnyMiss)
        → AreReasoned pips tree budget S misses
        → RunsOver pips tree budget S (map (λ (miss : AnyMiss). miss.pip) misses) }
{}

/// Over a fair store a build runs just those processes of the sequential build for which nothing is usable.
pub fn fair_misses()
    ensures { (pips : List AnyPip) (tree : Files) (budget : ℕ) (S : Holdings) (numbers : List ℕ)
        → IsFair pips tree budget S → RunsOver pips tree budget S numbers → IsMissSet pips tree budget S numbers }
{}

/// They and the processes that the store spares are all processes that are not skipped, and none is both.
pub fn misses_are_the_rest()
    ensures all { (pips : List AnyPip) (tree : Files) (budget : ℕ) (S : Holdings) (hits misses : List ℕ)
        → IsHitSet pips tree budget S hits → IsMissSet pips tree budget S misses
        → length hits + length misses ≡ run_count pips (verdicts_of (one_thread pips tree budget)) }
    ensures apart { (pips : List AnyPip) (tree : Files) (budget : ℕ) (S : Holdings) (hits misses : List ℕ) (pip : ℕ)
        → IsHitSet pips tree budget S hits → IsMissSet pips tree budget S misses
        → Contains hits pip → Contains misses pip → ⊥ }
{}
