//! Sources of bytes.

ghost use Rattle.std.specs.Prelude.{◌≡◌, ℕ, ◌<◌, ◌≤◌, ◌++◌, Bool, true, false, List, Option, length, take};
ghost use Rattle.std.specs.Prelude.{IsErr, IfOk, OnOk, OnErr, Ok};
ghost use Rattle.bx_io.specs.Causes.{HasCause};
ghost use Rattle.bx_io.specs.Told.{Moves, NoneLeft, Stays};

use crate::fault::Failed;

/// Where bytes come from, in order and each once. What a source gave is always known. What it has left it
/// tells until an answer disagrees with that; then it tells no more.
pub trait Source {
    // The bytes that it gave.
    ghost given: { Self → List ℕ };

    // Whether the end was what it answered last when it was asked for bytes.
    ghost ended: { Self → Bool };

    // The bytes that are left, as long as no answer disagreed with them.
    ghost left: { Self → Option (List ℕ) };

    // How often the source has failed.
    ghost faults: { Self → ℕ };

    /// Moves the next bytes to the start of `into`, and answers how many. For a piece that is not empty, 0 is
    /// the end; a read for an empty piece leaves `ended` as it was. After a fault no byte was taken; what `into`
    /// has then is left open.
    fn read(&mut self, into: &mut [u8]) -> Result<usize, Failed>
        ensures at_most { IfOk result (λ n. n ≤ length into.old) }
        ensures gave { IfOk result (λ n. given self.new ≡ given self.old ++ take n into.new) }
        ensures moved { IfOk result (λ n. Moves (left self.old) (left self.new) (take n into.new)) }
        ensures goes_on { IfOk result (λ n. 0 < n → ended self.new ≡ false) }
        ensures end { 0 < length into.old → result ≡ Ok 0 → ended self.new ≡ true }
        ensures empty_piece { length into.old ≡ 0 → IfOk result (λ n. ended self.new ≡ ended self.old) }
        ensures none_left { 0 < length into.old → result ≡ Ok 0 → NoneLeft (left self.new) }
        ensures gave_none { OnErr result (given self.new ≡ given self.old) }
        ensures same_end { OnErr result (ended self.new ≡ ended self.old) }
        ensures failed { OnErr result (Stays (left self.old) (left self.new)) }
        ensures cause { HasCause (faults self.old) (faults self.new) (IsErr result) }
        ensures no_fault { OnOk result (faults self.new ≡ faults self.old) };
}
