//! That a process fails for the least path of those for which it could.
ghost use Rattle.std.specs.Prelude.{◌≡◌, List, Some};
ghost use Rattle.std.specs.List.Sorted.{IsStrictlySortedBy};
ghost use Rattle.bx_tree.specs.Paths.{Atoms, path_cmp};
ghost use Rattle.bx_tree.specs.Trees.{Files};
ghost use Rattle.pip_model_types.specs.Made.{RisingFiles};
ghost use Rattle.pip_model_types.specs.declared.outputs.OutDir.{OutDir as AnyOutDir};
ghost use Rattle.pip_model_types.specs.declared.pip.Pip.{Pip};
ghost use Rattle.run_record.specs.Outcomes.{first_missing};
ghost use Rattle.violations.specs.DoubleWrites.{clash_of, shared_paths};
ghost use Rattle.violations.specs.declared.verdict.Violation.{Violation as AnyViolation};
ghost use Rattle.one_thread.specs.Least.{IsLeastClash, IsLeastMissing};

/// Of output files in the order of paths, the missing one for which a run fails is the least.
pub fn least_missing_output()
    ensures { (outs : List Atoms) (writes : Files) (path : Atoms) → IsStrictlySortedBy path_cmp outs
        → first_missing outs writes ≡ Some path → IsLeastMissing outs writes path }
{}

/// Of the files of a process in directories that it shares, the one for which it fails is at the least path that
/// clashes with an earlier pip, and the pip is the least such one.
pub fn least_clash_of_writes()
    ensures { (before : List Pip) (made : List Files) (dirs : List AnyOutDir) (files : Files) (violation : AnyViolation)
        → RisingFiles files → clash_of before made dirs files ≡ Some violation
        → IsLeastClash (shared_paths dirs files) before made violation }
{}
