//! What holds of all surveys of stores.
ghost use Rattle.std.specs.Prelude.{◌≡◌, ◌↔◌, ℕ, List, false};
ghost use Rattle.std.specs.FinMap.{keys};
ghost use Rattle.bx_io.specs.Holdings.{Holdings};
ghost use Rattle.two_phase_meaning.specs.Honest.{Honest};
ghost use Rattle.cache_care_check.specs.CareLists.{has_bad_remark, remarks_of};
ghost use Rattle.cache_care_check.specs.Findings.{AreFindings, IsFinding};
ghost use Rattle.cache_care_check.specs.declared.surveying.Finding.{Finding as AnyFinding};

/// Of a name one thing is found at most, and so of all names of a store one list: so what a check tells is determined.
pub fn one_finding()
    ensures finding { (S : Holdings) (name : List ℕ) (a b : AnyFinding) → IsFinding S name a → IsFinding S name b → a ≡ b }
    ensures findings { (S : Holdings) (names : List (List ℕ)) (a b : List AnyFinding) →
        AreFindings S names a → AreFindings S names b → a ≡ b }
{}

/// A check tells of a bad entry exactly where the store is not honest.
pub fn check_tells()
    ensures { (S : Holdings) (found : List AnyFinding) → AreFindings S (keys S) found →
        (Honest S ↔ (has_bad_remark (remarks_of (keys S) found) ≡ false)) }
{}
