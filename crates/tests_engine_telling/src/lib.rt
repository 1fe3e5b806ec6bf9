//! Tests of `command` and of `command_graphs` over stores in memory, which tell always what they hold.
//!
//! Each function is a call of one, and promises that the expected bytes are written, if what the stores hold is
//! fair. It has no premise on what is told after the call.
#![tactic(auto)]

ghost use Rattle.std.specs.Prelude.{◌≡◌, Some, map, string_bytes};
ghost use Rattle.bx_engine.specs.Expected.{Answers};
ghost use Rattle.bx_engine.specs.Statuses.{IsWhole};
ghost use Rattle.bx_engine_words.specs.Words.{OrdersBuild, OrdersPlainBuild};
ghost use Rattle.bx_engine_words.specs.declared.order.Order.{Order as TheOrder};
ghost use Rattle.tests_engine_telling.specs.FairBuild.{AreFairGraphs, IsFairBuild};

#[cfg(test)]
mod tests;

use bx_engine::{Status, command, command_graphs};
use bx_io::{MemKeeper, MemSink, MemSource, OpenGate};
use std::alloc::Global;
use std::sync::Wait;
use std::thread::Threads;

/// A build over a store in memory.
pub fn over_memory<H: Threads + Wait + Sync>(
    rt: &H,
    alloc: Global,
    words: &[String],
    source: &mut MemSource,
    out: &mut MemSink,
    notes: &mut MemSink,
    keeper: &mut MemKeeper,
) -> Status
    ensures { (order : TheOrder) → OrdersPlainBuild (map string_bytes words.now) order
        → IsFairBuild order source.old.left keeper.old.kept.held → IsWhole result
        → Answers order source.old.left result out.old.taken out.new.taken }
{
    command(rt, alloc, words, source, out, notes, keeper, &OpenGate)
}

/// A build over a store of results and a store of graphs, both in memory.
pub fn over_memories<H: Threads + Wait + Sync>(
    rt: &H,
    alloc: Global,
    words: &[String],
    source: &mut MemSource,
    out: &mut MemSink,
    notes: &mut MemSink,
    keeper: &mut MemKeeper,
    graphs: &mut MemKeeper,
) -> Status
    ensures { (order : TheOrder) → OrdersBuild (map string_bytes words.now) order
        → IsFairBuild order source.old.left keeper.old.kept.held
        → AreFairGraphs order source.old.left graphs.old.kept.held → IsWhole result
        → Answers order source.old.left result out.old.taken out.new.taken }
{
    command_graphs(
        rt, alloc, words, source, out, notes, keeper, graphs, &OpenGate,
    )
}
