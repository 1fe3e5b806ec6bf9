//! Runs that may be saved.
ghost use Rattle.std.specs.Prelude.{◌≡◌, IfSome};
ghost use Rattle.bx_io.specs.Holdings.{held_in};
ghost use Rattle.two_phase.specs.Calls.{KeeperCall};
ghost use Rattle.two_phase.specs.Held.{AreHeld};
ghost use Rattle.two_phase.specs.Putting.{PutsAll, PutsUpTo};
ghost use Rattle.two_phase_meaning.specs.Saving.{IsGood};
ghost use Rattle.run_record.specs.Digests.{IsWeakOf};

use bx_io::Keeper;
use prints::Printed;
use run_record::Record;
use std::alloc::Global;
use std::marker::Model;
use two_phase::{HeldContents, SaveResult, keep, keep_with};

// The record of a run, with the weak text of its process where that was written for a lookup. Contracts see the record.
#[derive(Drop)]
pub(crate) struct Savable {
    ran: Record,
    weak: Option<Printed>,
}

impl Model for Savable {
    ghost use Rattle.std.specs.Prelude.{IfSome};
    ghost use Rattle.run_record.specs.Facts.{Facts};
    ghost use Rattle.run_record.specs.Digests.{IsWeakOf};

    ghost Value = { Facts };

    ghost view = { λ s. s.ran };

    ghost invariant = { λ s. IfSome s.weak (IsWeakOf s.ran.desc) };
}

impl Savable {
    pub(crate) fn of(ran: Record, weak: Option<Printed>) -> Savable
        requires { IfSome weak (IsWeakOf ran.desc) }
        ensures { result ≡ ran }
    {
        Savable { ran, weak }
    }

    pub(crate) fn record(&self) -> &Record
        ensures { result.now ≡ self.now }
    {
        &self.ran
    }

    // Saves it: its weak text is written and hashed only where that was not done before.
    pub(crate) fn save<K: Keeper>(
        &self,
        alloc: Global,
        keeper: &mut K,
        held: &mut HeldContents,
    ) -> SaveResult
        requires good { IsGood self.now }
        requires held { AreHeld (held_in (K.known keeper.old)) held.old }
        ensures saved { result ≡ SaveResult.Saved → PutsAll (K.known keeper.old) (K.known keeper.new) self.now }
        ensures first { PutsUpTo (K.known keeper.old) (K.known keeper.new) self.now }
        ensures held { AreHeld (held_in (K.known keeper.new)) held.new }
        ensures keeper { KeeperCall (K.bound keeper.old) (K.bound keeper.new) (K.faults keeper.old)
            (K.faults keeper.new) (result ≡ SaveResult.Fault) }
    {
        let Some(weak) = &self.weak else {
            return keep(alloc, keeper, held, &self.ran);
        };
        match weak.copy(alloc) {
            Ok(weak) => keep_with(alloc, keeper, held, &self.ran, weak),
            Err(_) => SaveResult::Memory,
        }
    }
}
