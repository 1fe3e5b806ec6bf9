//! The sink of the program: any writer.

ghost use Rattle.std.specs.Prelude.{◌≡◌, [], ◌∷◌, length, take, MatchResult};
ghost use Rattle.std.specs.Io.KnownBytes.{WriteAppends};
ghost use Rattle.std.specs.Io.{WritesAtMost};
ghost use Rattle.bx_io_disk.specs.Events.{failures, took};
ghost use Rattle.bx_io_disk.specs.declared.kind.Kind.TheVariants as kinds;

use bx_io::{Failed, Sink};
use bx_io_disk::{Kind, Record};
use std::io::{self, Write};

/// Any writer as a sink, with the record of what it said it took. Each error of the writer is a fault, as is a
/// write of at least one byte that takes none. The count of faults is that of the record: each raises it by one, up
/// to the greatest `u64`.
#[derive(Drop)]
pub struct StdSink<W> {
    writer: W,
    log: Record,
    faults: u64,
    ghost counted: { faults ≡ failures log.events },
}

impl<W: Write> StdSink<W> {
    /// The sink over this writer.
    pub fn new(writer: W) -> StdSink<W>
        ensures taken { ⟦<StdSink<W> as Sink>⟧.taken result ≡ [] }
        ensures faults { ⟦<StdSink<W> as Sink>⟧.faults result ≡ 0 }
    {
        StdSink {
            writer,
            log: Record::new(),
            faults: 0,
        }
    }
}

// Hands a piece to the writer, and notes what it said it took, or that it failed.
fn hand<W: Write>(writer: &mut W, log: &mut Record, piece: &[u8]) -> io::Result<usize>
    ensures bound { WritesAtMost result piece.now }
    ensures bytes { WriteAppends (W.contents writer.old) (W.contents writer.new) result piece.now }
    ensures noted { MatchResult result
        (λ n. log.new.events ≡ took (length piece.now) (take n piece.now) ∷ log.old.events)
        (λ _. log.new.events ≡ (kinds.Failed, [], []) ∷ log.old.events) }
{
    let answer = writer.write(piece);
    match answer {
        Ok(0) if !piece.is_empty() => *log = Record::noted(log, &Kind::Failed, &[], &[]),
        Ok(count) => *log = Record::noted(log, &Kind::Took, &[], &piece[..count]),
        Err(_) => *log = Record::noted(log, &Kind::Failed, &[], &[]),
    }
    answer
}

impl<W: Write> Sink for StdSink<W> {
    ghost use Rattle.bx_io_disk.specs.Events.{taken_of};

    ghost taken = { λ s. taken_of s.log.events };

    ghost faults = { λ s. s.faults };

    fn write(&mut self, piece: &[u8]) -> Result<usize, Failed> {
        match hand(&mut self.writer, &mut self.log, piece) {
            Ok(count) if count > 0 || piece.is_empty() => Ok(count),
            _ => {
                self.faults = self.faults.saturating_add(1);
                Err(Failed)
            }
        }
    }
}
