//! Laws of workspaces. The functions do nothing: their clauses are the laws.

ghost use Rattle.std.specs.Prelude.{◌≡◌, ◌≤◌, List, length};
ghost use Rattle.std.specs.List.{AllByRecursion};
ghost use Rattle.bx_tree.specs.Trees.{Files, IsTree};
ghost use Rattle.dscript_program.specs.Workspaces.{ModuleData};
ghost use Rattle.dscript_names_workspace.specs.Finding.{Finds};
ghost use Rattle.dscript_names_workspace.specs.ModuleLaws.{AreSpecifications, HaveOwnNames, ShareNone};
ghost use Rattle.dscript_names_workspace.specs.Workspaces.{Answer, Found};

/// Source files come to one workspace or one fault at most.
pub fn one_answer()
    ensures { (files : Files) (a b : Answer) → Finds files a → Finds files b → a ≡ b }
{}

/// Source files come to some workspace or some fault.
pub fn some_answer()
    ensures { (files : Files) → (answer : Answer) × Finds files answer }
{}

/// A workspace has at most as many modules as there are files.
pub fn modules_within_files()
    ensures { (files : Files) (modules : List ModuleData) → Finds files (Found modules)
        → length modules ≤ length files }
{}

/// The names of modules differ, and none is that of the module that is always there.
pub fn names_differ()
    ensures { (files : Files) (modules : List ModuleData) → Finds files (Found modules)
        → HaveOwnNames modules }
{}

/// The files of each module are files of the tree, in its order and each once, and end in `.dsc`.
pub fn files_are_own()
    ensures { (files : Files) (modules : List ModuleData) → IsTree files → Finds files (Found modules)
        → AllByRecursion (λ m. AreSpecifications files m.files) modules }
{}

/// No file is in two modules.
pub fn no_file_is_shared()
    ensures { (files : Files) (modules : List ModuleData) → IsTree files → Finds files (Found modules)
        → ShareNone modules }
{}
