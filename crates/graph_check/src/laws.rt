//! Laws of the rules.
ghost use Rattle.std.specs.Prelude.{◌≡◌, ℕ, List};
ghost use Rattle.bx_tree.specs.Paths.{Atoms};
ghost use Rattle.bx_tree.specs.Trees.{Files};
ghost use Rattle.pip_model_types.specs.declared.pip.Pip.{Pip as AnyPip};
ghost use Rattle.graph_check.specs.Rules.{HasAnswer, IsFirstBrokenRule, KeepsRules};
ghost use Rattle.graph_check.specs.declared.fault.GraphKind.{GraphKind as AnyRule};

/// Pips have at most one first fault, and none where they keep the rules.
pub fn one_answer()
    ensures rule { (pips : List AnyPip) (tree : Files) (a b : AnyRule) (i j : ℕ) (f g : Atoms)
        → IsFirstBrokenRule pips tree a i f → IsFirstBrokenRule pips tree b j g → a ≡ b }
    ensures pip { (pips : List AnyPip) (tree : Files) (a b : AnyRule) (i j : ℕ) (f g : Atoms)
        → IsFirstBrokenRule pips tree a i f → IsFirstBrokenRule pips tree b j g → i ≡ j }
    ensures file { (pips : List AnyPip) (tree : Files) (a b : AnyRule) (i j : ℕ) (f g : Atoms)
        → IsFirstBrokenRule pips tree a i f → IsFirstBrokenRule pips tree b j g → f ≡ g }
    ensures never_both { (pips : List AnyPip) (tree : Files) (a : AnyRule) (i : ℕ) (f : Atoms)
        → KeepsRules pips tree → IsFirstBrokenRule pips tree a i f → ⊥ }
{}

/// Pips keep the rules or have a first fault.
pub fn some_answer()
    ensures { (pips : List AnyPip) (tree : Files) → HasAnswer pips tree }
{}
