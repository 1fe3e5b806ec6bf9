//! What a source tells goes on being told at each piece that agrees.

ghost use Rattle.std.specs.Prelude.{◌≡◌, ℕ, List, [], ◌∷◌, ◌++◌, Some};
ghost use Rattle.bx_io_disk.specs.Events.{Event, left_of};
ghost use Rattle.bx_io_disk.specs.declared.kind.Kind.TheVariants as kinds;

/// A source tells on at each piece that is the next one, and at its end.
pub fn source_tells_on()
    ensures piece { (first bytes rest : List ℕ) (events : List Event)
        → left_of first events ≡ Some (bytes ++ rest)
        → left_of first ((kinds.Gave, [], bytes) ∷ events) ≡ Some rest }
    ensures end { (first : List ℕ) (events : List Event)
        → left_of first events ≡ Some [] → left_of first ((kinds.Ended, [], []) ∷ events) ≡ Some [] }
{}
