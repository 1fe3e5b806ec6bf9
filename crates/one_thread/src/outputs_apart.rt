//! What holds of the files of all builds.
ghost use Rattle.std.specs.Prelude.{[], ℕ, List};
ghost use Rattle.bx_tree.specs.Trees.{Files};
ghost use Rattle.graph_check.specs.Rules.{KeepsRules};
ghost use Rattle.one_thread.specs.OneThread.{all_made, one_thread, outputs_of, put_all};
ghost use Rattle.pip_model_types.specs.Makers.{IsPipList};
ghost use Rattle.pip_model_types.specs.declared.pip.Pip.{Pip};
ghost use Rattle.one_thread.specs.Keeping.{AreKept};
ghost use Rattle.one_thread.specs.Outputs.{AreOutputs};

use tool_run::accesses_hold;

/// The files of all pips that succeeded lie below `out`, and none lies below another, where the pips keep the
/// rules of the graph.
pub fn outputs_keep_apart()
    ensures { (pips : List Pip) (tree : Files) (budget : ℕ) → IsPipList pips → KeepsRules pips tree
        → AreOutputs (outputs_of (one_thread pips tree budget)) }
{
    accesses_hold();
}

/// Files that keep to their pips lie below `out`, and none lies below another, where the pips keep the rules
/// of the graph: each is made by its pip, and none clashes with a file of an earlier pip.
pub fn kept_files_keep_apart()
    ensures { (pips : List Pip) (tree : Files) (made : List Files) → KeepsRules pips tree → AreKept pips made
        → AreOutputs (put_all [] (all_made made)) }
{}
