//! A source in memory that never fails.

ghost use Rattle.std.specs.Prelude.{◌≡◌, ◌≤◌, ◌<◌, [], ◌++◌, length, take, drop, min, Some, Ok, IsOk, IfOk};
ghost use Rattle.std.specs.Prelude.{true, false};

use crate::fault::Failed;
use crate::source::Source;
use std::marker::Model;

/// Bytes in memory, given from the start, as many in a call as fit its buffer. It never fails.
#[derive(Drop)]
pub struct NoFaultSource {
    bytes: Vec<u8>,
    given: usize,
    ended: bool,
}

impl Model for NoFaultSource {
    ghost use Rattle.std.specs.Prelude.{◌≤◌, length, take, drop};
    ghost use Rattle.bx_io.specs.Memories.{Poured};

    ghost Value = { Poured };

    ghost view = { λ s. record {
      given = take s.given s.bytes.items;
      left = drop s.given s.bytes.items;
      ended = s.ended;
    } };

    ghost invariant = { λ s. s.given ≤ length s.bytes.items };
}

// Whether the end was answered last, after a read for so many bytes that gave so many.
fn is_ended(before: bool, wanted: usize, count: usize) -> bool
    ensures nothing { wanted ≡ 0 → result ≡ before }
    ensures end { 0 < wanted → count ≡ 0 → result ≡ true }
    ensures goes_on { 0 < wanted → 0 < count → result ≡ false }
{
    if wanted == 0 { before } else { count == 0 }
}

impl NoFaultSource {
    /// Gives these bytes.
    pub fn new(bytes: Vec<u8>) -> NoFaultSource
        ensures whole { result ≡ record { given = []; left = bytes.items; ended = false } }
        ensures left { ⟦<NoFaultSource as Source>⟧.left result ≡ Some bytes.items }
        ensures faults { ⟦<NoFaultSource as Source>⟧.faults result ≡ 0 }
    {
        NoFaultSource {
            bytes,
            given: 0,
            ended: false,
        }
    }
}

impl Source for NoFaultSource {
    ghost use Rattle.std.specs.Prelude.{Some};

    ghost given = { λ s. s.given };

    ghost ended = { λ s. s.ended };

    ghost left = { λ s. Some s.left };

    ghost faults = { λ _. 0 };

    fn read(&mut self, into: &mut [u8]) -> Result<usize, Failed>
        ensures count { result ≡ Ok (min (length into.old) (length self.old.left)) }
        ensures dropped { IfOk result (λ n. self.new.left ≡ drop n self.old.left) }
        ensures at_most { IfOk result (λ n. n ≤ length into.old) }
        ensures gave { IfOk result (λ n. self.new.given ≡ self.old.given ++ take n into.new) }
        ensures moved { IfOk result (λ n. self.old.left ≡ take n into.new ++ self.new.left) }
        ensures rest { IfOk result (λ n. drop n into.new ≡ drop n into.old) }
        ensures goes_on { IfOk result (λ n. 0 < n → self.new.ended ≡ false) }
        ensures end { 0 < length into.old → result ≡ Ok 0 → self.new.ended ≡ true }
        ensures none_left { 0 < length into.old → result ≡ Ok 0 → self.old.left ≡ [] }
        ensures same_end { length into.old ≡ 0 → self.new.ended ≡ self.old.ended }
        ensures never_fails { IsOk result }
    {
        let left = self.bytes.len() - self.given;
        let count = into.len().min(left);
        let end = self.given + count;
        into[..count].copy_from_slice(&self.bytes[self.given..end]);
        self.given = end;
        self.ended = is_ended(self.ended, into.len(), count);
        Ok(count)
    }
}
