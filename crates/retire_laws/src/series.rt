//! What any number of builds, one after another, leave of a store.
ghost use Rattle.std.specs.Prelude.{◌≡◌, IsSome, List, ℕ, Some};
ghost use Rattle.std.specs.FinMap.{empty};
ghost use Rattle.std.specs.List.{AllByRecursion};
ghost use Rattle.bx_tree.specs.Members.{Has};
ghost use Rattle.bx_io.specs.Holdings.{Holdings, StoreTold as AnyTold, held_in};
ghost use Rattle.memo_format.specs.StoreNames.{HoldsBlob};
ghost use Rattle.run_record.specs.Collisions.{NoCollision};
ghost use Rattle.run_record.specs.Facts.{Facts};
ghost use Rattle.two_phase.specs.Putting.{LeavesHonest};
ghost use Rattle.two_phase_meaning.specs.Honest.{Honest};
ghost use Rattle.retire_laws.specs.Series.{AreListed, AreSavedInTurn};

/// An honest store is honest before and after each change of any number of builds that go on from it, each perhaps
/// cut off after any of its changes, where there is no hash collision among these contents, and what the store
/// holds and what is saved are among them, and the store still tells what it holds.
pub fn stores_stay_honest()
    ensures { (contents : List (List ℕ)) → NoCollision (Has contents) → (builds : List (List Facts))
        → AllByRecursion (AreListed contents) builds → (held : Holdings) (before now : AnyTold)
        → held_in before ≡ Some held → IsSome (held_in now) → Honest held
        → ((x : List ℕ) → HoldsBlob held x → Has contents x) → AreSavedInTurn before builds now
        → LeavesHonest held before now }
{}

/// The same of a store that began empty.
pub fn series_of_builds_stay_honest()
    ensures { (contents : List (List ℕ)) → NoCollision (Has contents) → (builds : List (List Facts))
        → AllByRecursion (AreListed contents) builds → (before now : AnyTold) → held_in before ≡ Some empty
        → IsSome (held_in now) → AreSavedInTurn before builds now → LeavesHonest empty before now }
{}
