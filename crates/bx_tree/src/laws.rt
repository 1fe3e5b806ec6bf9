//! Laws of the definitions, which the contracts of reading and writing rest on.

ghost use Rattle.std.specs.Prelude.{◌≡◌, ℕ, List};
ghost use Rattle.bx_tree.specs.Bundle.{Faults, HasReading, IsBundle};
ghost use Rattle.bx_tree.specs.Paths.{Atoms, IsPath, Names, path_text};
ghost use Rattle.bx_tree.specs.Trees.{Files};
ghost use Rattle.bx_tree.specs.declared.bundle.BundleFault.{BundleFault as AnyFault};

/// Paths with equal texts are equal, the root included, so a text names at most one path.
pub fn one_path()
    ensures same { (p q : Atoms) → IsPath p → IsPath q → path_text p ≡ path_text q → p ≡ q }
    ensures named { (text : List ℕ) (p q : Atoms) → Names text p → Names text q → p ≡ q }
{}

/// A text has at most one reading: it is the bundle of at most one tree, has at most one first fault,
/// and is never a bundle with a fault.
pub fn one_reading()
    ensures tree { (text : List ℕ) (s t : Files) → IsBundle text s → IsBundle text t → s ≡ t }
    ensures fault { (text : List ℕ) (a b : AnyFault) → Faults text a → Faults text b → a ≡ b }
    ensures never_both { (text : List ℕ) (t : Files) (a : AnyFault) → IsBundle text t → Faults text a → ⊥ }
{}

/// Each text has a reading: it is the bundle of a tree, or has a first fault, which is never
/// [`BundleFault::Memory`](crate::BundleFault::Memory).
pub fn some_reading()
    ensures { (text : List ℕ) → HasReading text }
{}
