//! What holds of all repairs and trims.
ghost use Rattle.std.specs.Prelude.{◌≡◌, ℕ, List};
ghost use Rattle.bx_io.specs.Holdings.{Change, Holdings, IsPrefix, holdings_after};
ghost use Rattle.memo_format.specs.StoreNames.{HoldsEntry};
ghost use Rattle.memo_format.specs.declared.entry.Entry.{Entry as AnyEntry};
ghost use Rattle.two_phase_meaning.specs.Honest.{Honest, HonestEntry};
ghost use Rattle.cache_care.specs.Repairing.{AreRepairs, IsRepaired};
ghost use Rattle.cache_care.specs.Trimmed.{IsTrimmed};
ghost use Rattle.cache_care.specs.Trimming.{trims};

/// The changes of a repair leave the repaired store.
pub fn repairs_leave_repaired()
    ensures { (S : Holdings) (changes : List Change) → AreRepairs S changes → IsRepaired S (holdings_after S changes) }
{}

/// A repaired store is honest, whatever it was before, and has each entry that was honest, as honest as before.
pub fn repaired_is_honest()
    ensures honest { (S T : Holdings) → IsRepaired S T → Honest T }
    ensures kept { (S T : Holdings) → IsRepaired S T → (e : AnyEntry) → HoldsEntry S e → HonestEntry S e →
        HoldsEntry T e × HonestEntry T e }
{}

/// An honest store is honest after each of the changes of a repair.
pub fn repairs_stay_honest()
    ensures { (S : Holdings) (changes made : List Change) → Honest S → AreRepairs S changes → IsPrefix made changes →
        Honest (holdings_after S made) }
{}

/// The changes of a trim leave the trimmed store.
pub fn trims_leave_trimmed()
    ensures { (S : Holdings) (keep : ℕ) → IsTrimmed S keep (holdings_after S (trims S keep)) }
{}

/// An honest store is honest after each of the changes of a trim.
pub fn trims_stay_honest()
    ensures { (S : Holdings) (keep : ℕ) (made : List Change) → Honest S → IsPrefix made (trims S keep) →
        Honest (holdings_after S made) }
{}
