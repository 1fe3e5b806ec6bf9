//! Laws of what trees of source files come to.

ghost use Rattle.std.specs.Prelude.{◌≡◌, ℕ, List, Option, true};
ghost use Rattle.bx_tree.specs.Paths.{Atoms};
ghost use Rattle.bx_tree.specs.Trees.{Files};
ghost use Rattle.dscript_eval_meaning.specs.declared.fault.EvalKind.{EvalKind as AnyKind};
ghost use Rattle.dscript_types_laws.specs.Kinds.{IsNoKindFault};
ghost use Rattle.pip_model_types.specs.declared.pip.Pip.{Pip as AnyPip};
ghost use Rattle.bx_engine_front.specs.Specifications.{AsksForTooMany, HasAnswer, HasFault, Plans};
ghost use Rattle.bx_engine_front.specs.Specifications.{OfEvaluation, SpecificationFault};
ghost use Rattle.bx_engine_front.specs.declared.limits.Limits.{Limits as AnyLimits};

use dscript_types_laws::typed_programs_keep_to_kinds;
use graph_check::one_answer;

/// A tree has one plan at most, or one fault at most, and not both; with more pips than can be numbered it
/// has neither.
pub fn one_plan()
    ensures pips { (limits : AnyLimits) (tree : Files) (p q : List AnyPip)
        → Plans limits tree p → Plans limits tree q → p ≡ q }
    ensures fault { (limits : AnyLimits) (tree : Files) (f g : SpecificationFault)
        → HasFault limits tree f → HasFault limits tree g → f ≡ g }
    ensures never_both { (limits : AnyLimits) (tree : Files) (pips : List AnyPip) (fault : SpecificationFault)
        → Plans limits tree pips → HasFault limits tree fault → ⊥ }
    ensures no_plan { (limits : AnyLimits) (tree : Files) (pips : List AnyPip)
        → AsksForTooMany limits tree → Plans limits tree pips → ⊥ }
    ensures no_fault { (limits : AnyLimits) (tree : Files) (fault : SpecificationFault)
        → AsksForTooMany limits tree → HasFault limits tree fault → ⊥ }
{
    one_answer();
}

/// Where types are checked, no tree is refused with a fault of kinds or of a missing member.
pub fn typed_trees_keep_to_kinds()
    ensures { (limits : AnyLimits) (tree : Files) (kind : AnyKind) (file : Atoms) (message : Option (List ℕ))
        → limits.types ≡ true → HasFault limits tree (OfEvaluation kind file message)
        → IsNoKindFault kind }
{
    typed_programs_keep_to_kinds();
}

/// Each tree comes to a plan or to a fault, but for one whose program makes more pips than can be numbered.
pub fn some_plan()
    ensures { (limits : AnyLimits) (tree : Files) → HasAnswer limits tree }
{}
