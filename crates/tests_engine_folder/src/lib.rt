//! Tests of `command` over a folder whose files are in memory, which tells always what it holds.
//!
//! The function is a call of `command`, and promises that the expected bytes are written, if what the folder holds is
//! fair. It has no premise on what is told after the call.
#![tactic(auto)]

ghost use Rattle.std.specs.Prelude.{◌≡◌, Some, map, string_bytes};
ghost use Rattle.bx_engine.specs.Expected.{Answers};
ghost use Rattle.bx_engine.specs.Statuses.{IsWhole};
ghost use Rattle.bx_engine_words.specs.Words.{OrdersPlainBuild};
ghost use Rattle.bx_engine_words.specs.declared.order.Order.{Order as TheOrder};
ghost use Rattle.bx_io.specs.Holdings.{Holdings, held_in};
ghost use Rattle.tests_engine_telling.specs.FairBuild.{IsFairBuild};

#[cfg(test)]
mod tests;

use bx_engine::{Status, command};
use bx_io::{Gate, Keeper, MemSink, MemSource};
use bx_io_disk::MemDisk;
use bx_io_folder::FolderKeeper;
use std::alloc::Global;
use std::sync::Wait;
use std::thread::Threads;

/// A build over a folder whose files are in memory.
pub fn over_files<H: Threads + Wait + Sync, G: Gate>(
    rt: &H,
    alloc: Global,
    words: &[String],
    source: &mut MemSource,
    out: &mut MemSink,
    notes: &mut MemSink,
    keeper: &mut FolderKeeper<MemDisk>,
    gate: &G,
) -> Status
    ensures { (order : TheOrder) (held : Holdings) → OrdersPlainBuild (map string_bytes words.now) order
        → held_in (⟦<FolderKeeper<MemDisk> as Keeper>⟧.known keeper.old) ≡ Some held
        → IsFairBuild order source.old.left held → IsWhole result
        → Answers order source.old.left result out.old.taken out.new.taken }
{
    let status = command(rt, alloc, words, source, out, notes, keeper, gate);
    keeper.goes_on_telling();
    status
}
