//! What a folder tells goes on being told at each answer that agrees.

ghost use Rattle.std.specs.Prelude.{◌≡◌, ℕ, Bool, ◌&&◌, List, [], ◌∷◌, Option, Some, IsSome, Result, Ok, Err};
ghost use Rattle.bx_io.specs.Answers.{IsAnswer, IsListing};
ghost use Rattle.bx_io.specs.Holdings.{Change, Holdings, after_told};
ghost use Rattle.bx_io.specs.declared.keeper.Got.{Got};
ghost use Rattle.bx_io.specs.declared.keeper.Listed.{Listed};
ghost use Rattle.bx_io.specs.declared.keeper.PutFault.{PutFault};
ghost use Rattle.bx_io_disk.specs.Answers.{alone_event, change_event, event_for, listed_event};
ghost use Rattle.bx_io_disk.specs.Events.{Event};
ghost use Rattle.bx_io_disk.specs.Telling.{tells, told};

/// A folder tells on at each answer and each listing that is that of what it tells, at each change, made or not, where it
/// is asked to work alone, and where a reader that tells is taken back. So it loses its telling only by an answer or a
/// listing that disagrees, or by such an answer of a reader.
pub fn folder_tells_on()
    ensures answer { (first held : Holdings) (events : List Event) (closed : Bool) (name : List ℕ)
        (answer : Got) → told first events closed ≡ Some held → IsAnswer held name answer
        → told first (event_for name answer ∷ events) closed ≡ Some held }
    ensures listed { (first held : Holdings) (events : List Event) (closed : Bool) (answer : Listed)
        → told first events closed ≡ Some held → IsListing held answer
        → told first (listed_event answer ∷ events) closed ≡ Some held }
    ensures made { (first : Holdings) (events : List Event) (closed : Bool) (change : Change)
        → told first (change_event change (Ok tt) ∷ events) closed
        ≡ after_told (told first events closed) (change ∷ []) }
    ensures refused { (first : Holdings) (events : List Event) (closed : Bool) (change : Change) (fault : PutFault)
        → told first (change_event change (Err fault) ∷ events) closed ≡ told first events closed }
    ensures alone { (first : Holdings) (events : List Event) (closed : Bool) (done : Result (Unit {0}) PutFault)
        → told first (alone_event done ∷ events) closed ≡ told first events closed }
    ensures joined { (first : Holdings) (events : List Event) (closed : Bool) (other : Option Holdings)
        → IsSome other → told first events (tells other && closed) ≡ told first events closed }
{}
