//! A list of answers and changes that only clauses read.

ghost use Rattle.std.specs.Prelude.{◌≡◌, ℕ, Bool, true, ◌&&◌, List, [], ◌∷◌};
ghost use Rattle.std.specs.Borrow.{ftrue};
ghost use Rattle.bx_io.specs.Holdings.{Holdings};
ghost use Rattle.bx_io.specs.StoreCodes.{holdings_code};
ghost use Rattle.bx_io_disk.specs.Answers.{listed_event};
ghost use Rattle.bx_io_disk.specs.Events.{Event};
ghost use Rattle.bx_io_disk.specs.Telling.{told, tells};

use crate::kind::Kind;
use bx_io::Listed;
use std::marker::Model;

/// A record that takes no bytes: what was there at first, what happened, the newest first, and whether each
/// record that was joined to it tells.
#[derive(Drop)]
pub struct Record {
    pub ghost first: { List ℕ },
    pub ghost held: { Holdings } by { holdings_code },
    pub ghost events: { List Event },
    pub ghost closed: { Bool },
}

impl Model for Record {
    ghost also_owns = { λ _. ftrue };
}

// A struct with `also_owns` is not `Send` by itself. This one owns nothing.
unsafe impl Send for Record {}

impl Record {
    /// A record of nothing, after any first bytes and any first contents.
    pub fn new() -> Record
        ghost first: { List ℕ × Holdings }
        ensures { result ≡ record { first = first.0; held = first.1; events = []; closed = true } }
    {
        Record {}
    }

    /// The record with one more answer or change.
    pub fn noted(_before: &Record, _kind: &Kind, _name: &[u8], _bytes: &[u8]) -> Record
        ensures { result ≡ record _before.now {
          events = (_kind.now, _name.now, _bytes.now) ∷ _before.now.events;
        } }
    {
        Record {}
    }

    /// The record with one more listing.
    pub fn listed(_before: &Record, _answer: &Listed) -> Record
        ensures { result ≡ record _before.now { events = listed_event _answer.now ∷ _before.now.events } }
    {
        Record {}
    }

    /// The record with all that another one has.
    pub fn joined(_before: &Record, _other: &Record) -> Record
        ensures { result ≡ record _before.now {
          closed = tells (told _other.now.held _other.now.events _other.now.closed) && _before.now.closed;
        } }
    {
        Record {}
    }
}
