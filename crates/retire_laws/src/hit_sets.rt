//! That there are hit sets.
ghost use Rattle.std.specs.Prelude.{ℕ, List};
ghost use Rattle.bx_tree.specs.Trees.{Files};
ghost use Rattle.bx_io.specs.Holdings.{Holdings};
ghost use Rattle.pip_model_types.specs.declared.pip.Pip.{Pip};
ghost use Rattle.retire.specs.HitSet.{IsHitSet};

/// It is refuted of each store that it has no hit set for a build. Whether something is usable for a process is not
/// decided here, so no list is given.
pub fn some_hit_set()
    ensures { (pips : List Pip) (tree : Files) (budget : ℕ) (S : Holdings)
        → ((numbers : List ℕ) → IsHitSet pips tree budget S numbers → ⊥) → ⊥ }
{}
