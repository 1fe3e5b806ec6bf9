//! What follows from what a save leaves.
ghost use Rattle.std.specs.Prelude.{◌≡◌, Some, IsSome};
ghost use Rattle.bx_io.specs.Holdings.{Holdings, StoreTold, held_in};
ghost use Rattle.run_record.specs.Facts.{Facts, Sound};
ghost use Rattle.two_phase_meaning.specs.Honest.{Honest};
ghost use Rattle.two_phase_meaning.specs.Saving.{ComparedInSave, IsGood};
ghost use Rattle.run_record.specs.Collisions.{NoCollision};
ghost use Rattle.two_phase.specs.Putting.{LeavesHonest, PutsUpTo};

/// A save leaves an honest store honest after each of its changes.
pub fn saves_stay_honest()
    ensures { (held : Holdings) (before now : StoreTold) (f : Facts)
        → held_in before ≡ Some held → IsSome (held_in now) → Sound f → IsGood f → PutsUpTo before now f
        → Honest held → NoCollision (ComparedInSave held f) → LeavesHonest held before now }
{}
