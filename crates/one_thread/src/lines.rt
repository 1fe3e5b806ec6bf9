//! Which verdicts a build comes to.
ghost use Rattle.std.specs.Prelude.{◌≡◌, ℕ, List, Some, slice_get};
ghost use Rattle.bx_tree.specs.Trees.{Files};
ghost use Rattle.pip_model_types.specs.Makers.{IsPipList};
ghost use Rattle.pip_model_types.specs.declared.pip.Pip.{Pip};
ghost use Rattle.violations.specs.declared.verdict.Verdict.{Verdict as AnyVerdict};
ghost use Rattle.one_thread.specs.Lines.{HasLine};
ghost use Rattle.one_thread.specs.OneThread.{one_thread, verdicts_of};

/// A fault of a tool has one of five words in the report of a build, and each violation but those that concern no
/// other pip names one.
pub fn each_verdict_has_its_line()
    ensures { (pips : List Pip) (tree : Files) (budget i : ℕ) (pip : Pip) (verdict : AnyVerdict) → IsPipList pips
        → slice_get pips i ≡ Some pip → slice_get (verdicts_of (one_thread pips tree budget)) i ≡ Some verdict
        → HasLine verdict }
{}
