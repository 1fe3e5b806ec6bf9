//! What follows from the definitions of changes and counts.

ghost use Rattle.std.specs.Prelude.{◌≡◌, ℕ, ◌+◌, ◌<◌, ◌≤◌, ◌++◌, List, All};
ghost use Rattle.bx_io.specs.Causes.{Rose, last_count};
ghost use Rattle.bx_io.specs.Holdings.{AreNames, Change, Holdings, Keeps, Makes, MakesPrefix, StoreTold};
ghost use Rattle.bx_io.specs.Holdings.{holdings_after, name_of};
ghost use Rattle.bx_io.specs.Names.{IsName};

/// Two lists of changes that are made one after the other are one list, also after calls that changed nothing,
/// and what was cut off in either is a prefix of it. Changes of names leave names.
pub fn changes_in_order()
    ensures joined { (before between now : StoreTold) (first next : List Change)
        → Makes before first between → Makes between next now → Makes before (first ++ next) now }
    ensures kept { (before between now : StoreTold) (made : List Change)
        → Keeps before between → Makes between made now → Makes before made now }
    ensures cut_first { (before now : StoreTold) (first next : List Change)
        → MakesPrefix before now first → MakesPrefix before now (first ++ next) }
    ensures cut_next { (before between now : StoreTold) (first next : List Change)
        → Makes before first between → MakesPrefix between now next → MakesPrefix before now (first ++ next) }
    ensures names { (held : Holdings) (changes : List Change)
        → AreNames held → All (λ change. IsName (name_of change)) changes → AreNames (holdings_after held changes) }
{}

/// A count that has not reached its last value rose by at least one where it rose.
pub fn counts_with_a_bound()
    ensures { (before now : ℕ) → Rose before now → now < last_count → before + 1 ≤ now }
{}
