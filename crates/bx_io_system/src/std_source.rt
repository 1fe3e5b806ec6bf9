//! The source of the program: any reader.

ghost use Rattle.std.specs.Prelude.{◌≡◌, ℕ, [], ◌∷◌, List, Some, false, length, take, MatchResult};
ghost use Rattle.std.specs.Io.KnownBytes.{ReadConsumes};
ghost use Rattle.std.specs.Io.{ReadsAtMost};
ghost use Rattle.bx_io_disk.specs.Events.{failures, gave};
ghost use Rattle.bx_io_disk.specs.declared.kind.Kind.TheVariants as kinds;

use bx_io::{Failed, Source};
use bx_io_disk::{Kind, Record};
use std::io::{self, Read};

/// Any reader as a source, with the record of what it gave. It had any bytes at first, and tells what is left of
/// them as long as each answer of the reader agrees. Each error of the reader is a fault, and the count of them is
/// that of the record: each raises it by one, up to the greatest `u64`.
#[derive(Drop)]
pub struct StdSource<R> {
    reader: R,
    log: Record,
    faults: u64,
    ghost counted: { faults ≡ failures log.events },
}

impl<R: Read> StdSource<R> {
    /// The source over this reader.
    pub fn new(reader: R) -> StdSource<R>
        ghost first: { List ℕ }
        ensures given { ⟦<StdSource<R> as Source>⟧.given result ≡ [] }
        ensures ended { ⟦<StdSource<R> as Source>⟧.ended result ≡ false }
        ensures left { ⟦<StdSource<R> as Source>⟧.left result ≡ Some first }
        ensures faults { ⟦<StdSource<R> as Source>⟧.faults result ≡ 0 }
    {
        StdSource {
            reader,
            log: Record::new(),
            faults: 0,
        }
    }
}

// Asks the reader for a piece, and notes what it gave, or that it failed.
fn ask<R: Read>(reader: &mut R, log: &mut Record, into: &mut [u8]) -> io::Result<usize>
    ensures bound { ReadsAtMost result into.new }
    ensures bytes { ReadConsumes (R.remaining reader.old) (R.remaining reader.new) result into.new }
    ensures first { log.new.first ≡ log.old.first }
    ensures noted { MatchResult result
        (λ n. log.new.events ≡ gave (length into.old) (take n into.new) ∷ log.old.events)
        (λ _. log.new.events ≡ (kinds.Failed, [], []) ∷ log.old.events) }
{
    let answer = reader.read(into);
    match answer {
        Ok(0) if !into.is_empty() => *log = Record::noted(log, &Kind::Ended, &[], &[]),
        Ok(count) => *log = Record::noted(log, &Kind::Gave, &[], &into[..count]),
        Err(_) => *log = Record::noted(log, &Kind::Failed, &[], &[]),
    }
    answer
}

impl<R: Read> Source for StdSource<R> {
    ghost use Rattle.bx_io_disk.specs.Events.{ended_of, given_of, left_of};

    ghost given = { λ s. given_of s.log.events };

    ghost ended = { λ s. ended_of s.log.events };

    ghost left = { λ s. left_of s.log.first s.log.events };

    ghost faults = { λ s. s.faults };

    fn read(&mut self, into: &mut [u8]) -> Result<usize, Failed> {
        match ask(&mut self.reader, &mut self.log, into) {
            Ok(count) => Ok(count),
            Err(_) => {
                self.faults = self.faults.saturating_add(1);
                Err(Failed)
            }
        }
    }
}
