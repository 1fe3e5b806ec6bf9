//! What holds of all builds over a store.
ghost use Rattle.std.specs.Prelude.{◌≡◌, ℕ, All, Bool, List, length, true};
ghost use Rattle.std.specs.List.{list_all};
ghost use Rattle.bx_tree.specs.Trees.{Files};
ghost use Rattle.bx_tree.specs.Members.{Has};
ghost use Rattle.bx_io.specs.Holdings.{Holdings};
ghost use Rattle.observed.specs.declared.ask.Ask.{Ask as AnyAsk};
ghost use Rattle.observed.specs.declared.access.Answer.{Answer as AnyAnswer};
ghost use Rattle.pip_model_types.specs.Makers.{IsPipList};
ghost use Rattle.pip_model_types.specs.declared.desc.Desc.{Desc as AnyDesc};
ghost use Rattle.pip_model_types.specs.declared.pip.Pip.{Pip};
ghost use Rattle.graph_check.specs.Rules.{KeepsRules};
ghost use Rattle.run_record.specs.Collisions.{NoCollision};
ghost use Rattle.run_record.specs.Digests.{IsReadBack, weak_of};
ghost use Rattle.run_record.specs.Facts.{Facts, Sound};
ghost use Rattle.one_thread.specs.OneThread.{one_thread, run_count, verdicts_of};
ghost use Rattle.violations.specs.Verdicts.{is_success};
ghost use Rattle.two_phase_meaning.specs.Saving.{FilesFit, blobs_of};
ghost use Rattle.two_phase_meaning.specs.Compared.{ComparedInRun};
ghost use Rattle.sched_board_slots.specs.declared.held.Held.{Held as AnyHeld};
ghost use Rattle.sched_board_slots.specs.declared.held.Held.TheVariants as held;
ghost use Rattle.retire.specs.Accepting.{AreAccepted, without_run};
ghost use Rattle.retire.specs.HitSet.{IsHitSet};
ghost use Rattle.retire_compared.specs.Compared.{Compared};
ghost use Rattle.retire.specs.Runs.{AllUsable, IsOfSuccess, NoneReserved, RunsAs};

/// What is compared at a process that runs is compared in the build.
pub fn runs_are_compared()
    ensures { (pips : List Pip) (tree : Files) (budget i : ℕ) (S : Holdings) (d : AnyDesc)
        (see : AnyAsk → AnyAnswer) → RunsAs pips tree budget i d see → (x : List ℕ) → ComparedInRun S d see x
        → Compared pips tree budget S x }
{}

/// What is put for the record of a process that succeeds is compared in the build.
pub fn successes_are_compared()
    ensures { (pips : List Pip) (tree : Files) (budget : ℕ) (S : Holdings) (f : Facts)
        → IsOfSuccess pips tree budget f → (x : List ℕ) → Has (blobs_of f) x → Compared pips tree budget S x }
{}

/// The files of a process that succeeds are those that it declares, none that it may not make, and none is
/// below another, where the pips keep the rules of the graph.
pub fn successes_fit()
    ensures { (pips : List Pip) (tree : Files) (budget : ℕ) (f : Facts) → IsPipList pips
        → KeepsRules pips tree → Sound f → IsOfSuccess pips tree budget f → FilesFit f }
{}

/// Two processes of a build whose weak texts have one digest are one, where the pips keep the rules of the
/// graph, no file of the tree has a reserved path, and there is no hash collision among the contents compared.
pub fn weak_texts_differ()
    ensures { (pips : List Pip) (tree : Files) (budget : ℕ) (S : Holdings) (i j : ℕ) (d e : AnyDesc)
        (see view : AnyAsk → AnyAnswer) → IsPipList pips → KeepsRules pips tree → NoneReserved tree
        → NoCollision (Compared pips tree budget S) → RunsAs pips tree budget i d see
        → RunsAs pips tree budget j e view → IsReadBack d → IsReadBack e → weak_of d ≡ weak_of e → i ≡ j }
{}

/// A store would spare one set of processes.
pub fn one_hit_set()
    ensures { (pips : List Pip) (tree : Files) (budget : ℕ) (S : Holdings) (numbers others : List ℕ)
        → IsHitSet pips tree budget S numbers → IsHitSet pips tree budget S others → numbers ≡ others }
{}

/// Where something is usable for each process that succeeds, and all pips succeed, the store would spare each
/// process.
pub fn all_are_hits()
    ensures { (pips : List Pip) (tree : Files) (budget : ℕ) (S : Holdings) → AllUsable pips tree budget S
        → list_all is_success (verdicts_of (one_thread pips tree budget)) ≡ true
        → (numbers : List ℕ) × IsHitSet pips tree budget S numbers
        × (length numbers ≡ run_count pips (verdicts_of (one_thread pips tree budget))) }
{}

/// Of slots that are all empty no run is accepted: so the processes that a store would spare are all left to it, and all
/// processes that run to it or to a run.
pub fn nothing_is_accepted()
    ensures { (pips : List Pip) (tree : Files) (budget : ℕ) (S : Holdings) (slots : List AnyHeld) (accepted : List Bool)
        (numbers : List ℕ) → All (λ slot. slot ≡ held.Empty) slots → AreAccepted pips tree budget slots accepted
        → IsHitSet pips tree budget S numbers → without_run accepted numbers ≡ length numbers }
{}
