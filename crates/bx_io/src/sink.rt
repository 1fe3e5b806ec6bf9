//! Sinks for bytes.

ghost use Rattle.std.specs.Prelude.{◌≡◌, ℕ, ◌<◌, ◌≤◌, ◌++◌, List, length, take, IsErr, IfOk, OnOk, OnErr};
ghost use Rattle.bx_io.specs.Causes.{HasCause};

use crate::fault::Failed;

/// Where bytes go, in order. What a sink said that it took is always known.
pub trait Sink {
    // The bytes that it said it took.
    ghost taken: { Self → List ℕ };

    // How often the sink has failed.
    ghost faults: { Self → ℕ };

    /// Takes the first bytes of `piece`, and answers how many: at least one, where there is one.
    /// After a fault none was taken.
    fn write(&mut self, piece: &[u8]) -> Result<usize, Failed>
        ensures at_most { IfOk result (λ n. n ≤ length piece.now) }
        ensures at_least { 0 < length piece.now → IfOk result (λ n. 1 ≤ n) }
        ensures appended { IfOk result (λ n. taken self.new ≡ taken self.old ++ take n piece.now) }
        ensures failed { OnErr result (taken self.new ≡ taken self.old) }
        ensures cause { HasCause (faults self.old) (faults self.new) (IsErr result) }
        ensures no_fault { OnOk result (faults self.new ≡ faults self.old) };
}
