//! What holds of all builds on one thread.
ghost use Rattle.std.specs.Prelude.{◌≡◌, ℕ, List, Some, length, slice_get};
ghost use Rattle.bx_tree.specs.Trees.{Files};
ghost use Rattle.pip_model_types.specs.Makers.{IsPipList};
ghost use Rattle.pip_model_types.specs.declared.pip.Pip.{Pip};
ghost use Rattle.one_thread.specs.OneThread.{one_thread, result_of};

/// Each pip has a result, which is read off the results of all.
pub fn each_result()
    ensures number { (pips : List Pip) (tree : Files) (budget : ℕ)
        → length (one_thread pips tree budget) ≡ length pips }
    ensures result { (pips : List Pip) (tree : Files) (budget i : ℕ) (pip : Pip)
        → IsPipList pips → slice_get pips i ≡ Some pip
        → slice_get (one_thread pips tree budget) i
        ≡ Some (result_of pips tree budget (one_thread pips tree budget) i pip.kind) }
{}
