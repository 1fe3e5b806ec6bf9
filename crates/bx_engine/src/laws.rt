//! Laws of what a build comes to.

ghost use Rattle.std.specs.Prelude.{◌≡◌, ℕ, List, Option, false};
ghost use Rattle.bx_engine_front.specs.declared.limits.Limits.{Limits as AnyLimits};
ghost use Rattle.bx_engine_words.specs.declared.order.Order.{Order as AnyOrder};
ghost use Rattle.bx_engine.specs.Calls.{StoreChange};
ghost use Rattle.bx_engine.specs.Counting.{IsNoted, TellSameRuns};
ghost use Rattle.bx_engine.specs.Ending.{Ending};
ghost use Rattle.bx_engine.specs.Ends.{Ends, IsEndless};
ghost use Rattle.bx_engine.specs.Expected.{IsExpected};
ghost use Rattle.bx_engine.specs.Lives.{Comes, Deed};
ghost use Rattle.bx_engine.specs.Stores.{uses_store};
ghost use Rattle.bx_io.specs.Holdings.{Holdings};
ghost use Rattle.std.specs.FinMap.{empty};
ghost use Rattle.two_phase_meaning.specs.Honest.{Honest};

use crate::status::Status;
use cache_care::{repairs_stay_honest, trims_stay_honest};
use graph_check::one_answer;
use two_phase_meaning::{empty_is_honest, puts_stay_honest};

/// An input ends in one way at most, so one status and one output are expected of it; and where no store is used,
/// its notes differ in the late runs and the starved workers at most.
pub fn one_end()
    ensures ending { (limits : AnyLimits) (input : List ℕ) (d e : Ending)
        → Ends limits input d → Ends limits input e → d ≡ e }
    ensures status { (limits : AnyLimits) (input : List ℕ) (r s : Status) (a b : List ℕ)
        → IsExpected limits input r a → IsExpected limits input s b → r ≡ s }
    ensures bytes { (limits : AnyLimits) (input : List ℕ) (r s : Status) (a b : List ℕ)
        → IsExpected limits input r a → IsExpected limits input s b → a ≡ b }
    ensures notes { (order : AnyOrder) (input : List ℕ) (c d : StoreChange) (g h : Option StoreChange)
        (r s : Status) (m n : List ℕ) → uses_store order ≡ false → IsNoted order input c g r m
        → IsNoted order input d h s n → TellSameRuns m n }
    ensures endless { (limits : AnyLimits) (input : List ℕ) (e : Ending)
        → IsEndless limits input → Ends limits input e → ⊥ }
{
    one_answer();
}

/// An input ends in some way, unless its specification makes more pips than can be numbered: it is refuted
/// that it has no ending. So the definitions leave no other input out, to which only out of memory could be
/// answered.
pub fn some_end()
    ensures { (limits : AnyLimits) (input : List ℕ) → (IsEndless limits input → ⊥)
        → ((ending : Ending) → Ends limits input ending → ⊥) → ⊥ }
{}

/// What becomes of a store is honest: from the store that holds nothing, or any honest one, by any builds, trims and repairs, each
/// of them stopped after any of its changes, if there is no hash collision among the contents that each build compares.
pub fn stores_stay_honest()
    ensures honest { (S T : Holdings) (deeds : List Deed) → Honest S → Comes S deeds T → Honest T }
    ensures from_nothing { (T : Holdings) (deeds : List Deed) → Comes empty deeds T → Honest T }
{
    empty_is_honest();
    trims_stay_honest();
    repairs_stay_honest();
    puts_stay_honest();
}
