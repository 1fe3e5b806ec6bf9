//! A build, from the source's bytes to the sinks'.

ghost use Rattle.std.specs.Prelude.{◌≡◌, ◌≢◌, ◌⊎◌, [], false};
ghost use Rattle.bx_io.specs.Causes.{HasCause};
ghost use Rattle.bx_engine.specs.Calls.{change_of, given_of, graph_call_of, written_of};
ghost use Rattle.bx_engine.specs.Ended.{Ended};
ghost use Rattle.bx_engine.specs.Expected.{AppendsOrFails};
ghost use Rattle.bx_engine.specs.Known.{Appends, AppendsPrefix};
ghost use Rattle.bx_engine.specs.Statuses.{HasNoBuild, HasNoNotes, HasNoTree, IsSilent, IsWhole};
ghost use Rattle.bx_engine.specs.Stores.{uses_graphs, uses_store};
ghost use Rattle.bx_engine_words.specs.Words.{HasCrew};

use crate::reading::{ReadFault, read_all};
use crate::response::{Response, respond};
use crate::status::Status;
use crate::writing::write_all;
use bx_engine_words::Order;
use bx_io::{Gate, Keeper, Sink, Source};
use std::alloc::Global;
use std::sync::Wait;
use std::thread::Threads;

/// Writes the output, and then the notes.
fn deliver<O: Sink, N: Sink>(out: &mut O, notes: &mut N, response: &Response) -> Status
    requires { IsWhole response.now.status }
    ensures status { (result ≡ response.now.status) ⊎ (result ≡ Status.OutFailed) }
    ensures written { IsWhole result → Appends (O.taken out.old) (O.taken out.new) response.now.bytes.items }
    ensures begun { result ≡ Status.OutFailed
        → AppendsPrefix (O.taken out.old) (O.taken out.new) response.now.bytes.items }
    ensures noted { IsWhole result
        → AppendsOrFails response.now.notes.items (N.taken notes.old) (N.taken notes.new)
        (N.faults notes.old) (N.faults notes.new) }
    ensures cut { result ≡ Status.OutFailed → notes.new ≡ notes.old }
    ensures no_notes { response.now.notes.items ≡ [] → notes.new ≡ notes.old }
    ensures cause { HasCause (O.faults out.old) (O.faults out.new) (result ≡ Status.OutFailed) }
    ensures no_fault { result ≢ Status.OutFailed → O.faults out.new ≡ O.faults out.old }
{
    match write_all(out, &response.bytes) {
        Err(_) => Status::OutFailed,
        Ok(()) => {
            let _ = write_all(notes, &response.notes);
            response.status
        }
    }
}

/// Builds what the source gives. How it ends is said once, and what `command` promises follows from that.
pub(crate) fn build<
    H: Threads + Wait + Sync,
    S: Source,
    O: Sink,
    N: Sink,
    K: Keeper,
    M: Keeper,
    G: Gate,
>(
    rt: &H,
    alloc: Global,
    order: &Order,
    source: &mut S,
    out: &mut O,
    notes: &mut N,
    keeper: &mut K,
    graphs: &mut M,
    gate: &G,
) -> Status
    requires crew { HasCrew order.now }
    ensures begun { result ≢ Status.NoCommand }
    ensures ended { Ended order.now (graph_call_of result
        (given_of (S.given source.old) (S.given source.new) (S.left source.old) (S.left source.new)
        (S.ended source.new) (S.faults source.old) (S.faults source.new))
        (written_of (O.taken out.old) (O.taken out.new) (O.faults out.old) (O.faults out.new))
        (written_of (N.taken notes.old) (N.taken notes.new) (N.faults notes.old) (N.faults notes.new))
        (change_of (K.known keeper.old) (K.known keeper.new) (K.bound keeper.old) (K.faults keeper.old)
        (K.faults keeper.new))
        (change_of (M.known graphs.old) (M.known graphs.new) (M.bound graphs.old) (M.faults graphs.old)
        (M.faults graphs.new))) }

    // What is left as it was.
    ensures silent { IsSilent result → out.new ≡ out.old }
    ensures no_notes { HasNoNotes result → notes.new ≡ notes.old }
    ensures kept { HasNoBuild result → keeper.new ≡ keeper.old }
    ensures untouched { uses_store order.now ≡ false → keeper.new ≡ keeper.old }
    ensures bound { K.bound keeper.new ≡ K.bound keeper.old }
    ensures no_tree { HasNoTree result → graphs.new ≡ graphs.old }
    ensures no_graphs { uses_graphs order.now ≡ false → graphs.new ≡ graphs.old }
    ensures graph_bound { M.bound graphs.new ≡ M.bound graphs.old }
{
    let input = match read_all(alloc, source) {
        Ok(input) => input,
        Err(ReadFault::Failed) => return Status::SourceFailed,
        Err(ReadFault::Memory) => return Status::OutOfMemory,
    };
    match respond(rt, alloc, &input, order, keeper, graphs, gate) {
        Err(_) => Status::OutOfMemory,
        Ok(response) => deliver(out, notes, &response),
    }
}
