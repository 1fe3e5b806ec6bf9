//! The top calls.

ghost use Rattle.std.specs.Prelude.{◌≡◌, ◌≢◌, ℕ, MatchResult, false, map, string_bytes};
ghost use Rattle.bx_engine.specs.Beyond.{GoesBeyond};
ghost use Rattle.bx_engine.specs.Calls.{call_of, change_of, given_of, graph_call_of, written_of};
ghost use Rattle.bx_engine.specs.Ending.{usage_text};
ghost use Rattle.bx_engine.specs.Expected.{AppendsOrFails};
ghost use Rattle.bx_engine.specs.Headline.{KeepsHeadline};
ghost use Rattle.bx_engine.specs.Statuses.{HasNoBuild, HasNoNotes, HasNoTree, IsSilent};
ghost use Rattle.bx_engine.specs.Stores.{uses_graphs, uses_store};
ghost use Rattle.bx_engine_words.specs.Words.{HasCrew, IsBuild, IsCare, Orders, OrdersBuild};
ghost use Rattle.bx_engine_words.specs.Words.{OrdersPlain, OrdersPlainBuild};
ghost use Rattle.bx_engine_words.specs.declared.order.Order.TheVariants as TheOrders;
ghost use Rattle.bx_engine_words.specs.declared.order.Order.{Order as TheOrder};

use crate::build::build;
use crate::care::{check, repair, trim};
use crate::limits::asks_graphs;
use crate::status::Status;
use crate::workload::write_workload;
use crate::writing::write_all;
use bx_engine_words::{Order, WordFault, one_order, read_words, some_workers};
use bx_io::{Gate, Keeper, NoFaultKeeper, Sink, Source};
use std::alloc::Global;
use std::sync::Wait;
use std::thread::Threads;

/// The notes where the words are no command.
const USAGE: &str = "usage: bxl build|check|repair|trim|gen\n";

// Writes the usage: the words are no command.
fn refuse_words<N: Sink>(notes: &mut N) -> Status
    ensures status { result ≡ Status.NoCommand }
    ensures usage { AppendsOrFails usage_text (N.taken notes.old) (N.taken notes.new)
        (N.faults notes.old) (N.faults notes.new) }
{
    let _ = write_all(notes, USAGE.as_bytes());
    Status::NoCommand
}

// The order that words are, if it asks for no store of graphs.
fn read_plain(words: &[String]) -> Result<Order, WordFault>
    ensures { MatchResult result
        (λ order. OrdersPlain (map string_bytes words.now) order)
        (λ _. (order : TheOrder) → OrdersPlain (map string_bytes words.now) order → ⊥) }
{
    one_order();
    let order = read_words(words)?;
    if asks_graphs(&order) {
        return Err(WordFault::NoCommand);
    }
    Ok(order)
}

// Does what an order asks for.
fn carry_out<H: Threads + Wait + Sync, S: Source, O: Sink, N: Sink, K: Keeper, M: Keeper, G: Gate>(
    rt: &H,
    alloc: Global,
    order: &Order,
    source: &mut S,
    out: &mut O,
    notes: &mut N,
    keeper: &mut K,
    graphs: &mut M,
    gate: &G,
) -> Status
    requires crew { IsBuild order.now → HasCrew order.now }
    ensures begun { result ≢ Status.NoCommand }
    ensures headline { KeepsHeadline (λ o. (order.now ≡ o) × IsBuild o) (graph_call_of result
        (given_of (S.given source.old) (S.given source.new) (S.left source.old) (S.left source.new)
        (S.ended source.new) (S.faults source.old) (S.faults source.new))
        (written_of (O.taken out.old) (O.taken out.new) (O.faults out.old) (O.faults out.new))
        (written_of (N.taken notes.old) (N.taken notes.new) (N.faults notes.old) (N.faults notes.new))
        (change_of (K.known keeper.old) (K.known keeper.new) (K.bound keeper.old) (K.faults keeper.old)
        (K.faults keeper.new))
        (change_of (M.known graphs.old) (M.known graphs.new) (M.bound graphs.old) (M.faults graphs.old)
        (M.faults graphs.new))) }
    ensures beyond { GoesBeyond (λ o. order.now ≡ o) (graph_call_of result
        (given_of (S.given source.old) (S.given source.new) (S.left source.old) (S.left source.new)
        (S.ended source.new) (S.faults source.old) (S.faults source.new))
        (written_of (O.taken out.old) (O.taken out.new) (O.faults out.old) (O.faults out.new))
        (written_of (N.taken notes.old) (N.taken notes.new) (N.faults notes.old) (N.faults notes.new))
        (change_of (K.known keeper.old) (K.known keeper.new) (K.bound keeper.old) (K.faults keeper.old)
        (K.faults keeper.new))
        (change_of (M.known graphs.old) (M.known graphs.new) (M.bound graphs.old) (M.faults graphs.old)
        (M.faults graphs.new))) }
    ensures silent { IsSilent result → out.new ≡ out.old }
    ensures no_notes { HasNoNotes result → notes.new ≡ notes.old }
    ensures kept { HasNoBuild result → keeper.new ≡ keeper.old }
    ensures untouched { uses_store order.now ≡ false → keeper.new ≡ keeper.old }
    ensures bound { K.bound keeper.new ≡ K.bound keeper.old }
    ensures no_tree { HasNoTree result → graphs.new ≡ graphs.old }
    ensures no_graphs { uses_graphs order.now ≡ false → graphs.new ≡ graphs.old }
    ensures graph_bound { M.bound graphs.new ≡ M.bound graphs.old }
    ensures unasked { (IsBuild order.now → ⊥) → source.new ≡ source.old }
    ensures unwritten { IsCare order.now → out.new ≡ out.old }
    ensures untold { (seed pips : ℕ) → order.now ≡ TheOrders.Gen seed pips → notes.new ≡ notes.old }
{
    match order {
        Order::Build { .. } => build(rt, alloc, order, source, out, notes, keeper, graphs, gate),
        Order::Check => check(alloc, notes, keeper),
        Order::Repair => repair(alloc, notes, keeper),
        Order::Trim { keep } => trim(alloc, notes, keeper, *keep),
        Order::Gen { seed, pips } => write_workload(alloc, out, *seed, *pips),
    }
}

/// Does what the words ask for. The words are those after the program's name; docs/FORMATS.md has the
/// commands, the statuses, the bundles that are read and written, and the notes.
///
/// A build first reads `source` to its end, or to one byte past the limit on an input. Then as many workers as the
/// words say, but no more than there are pips, go ahead, each in a thread of its own; what they came to is collected in
/// order, and compared. Unless
/// the words say `--no-cache`, cached results of the store `keeper` are reused instead of running processes, and
/// after all pips are decided the records of the processes that ran and succeeded are saved there. It writes to
/// `out` once all of its output is composed, and to `notes` last. A fault of `notes` changes nothing else, and one
/// of `keeper` nothing but the counts in the notes and what is saved. Each run of a process passes `gate` once.
/// Nothing but a build needs `rt`.
///
/// Where the words say `--graph-cache`, and not `--no-cache`, the pips are taken from the store of graphs `graphs`
/// instead of evaluating the specifications, if an entry there is usable; otherwise they are evaluated and kept there. A
/// fault of `graphs` changes nothing but a line of the notes and what is kept.
///
/// A check, a repair and a trim touch `keeper` and `notes` alone, and stop at the first call of `keeper` that fails. A
/// repair and a trim ask `keeper` first to work alone, and do nothing where another one uses the store. A workload goes to
/// `out` alone.
pub fn command_graphs<
    H: Threads + Wait + Sync,
    S: Source,
    O: Sink,
    N: Sink,
    K: Keeper,
    M: Keeper,
    G: Gate,
>(
    rt: &H,
    alloc: Global,
    words: &[String],
    source: &mut S,
    out: &mut O,
    notes: &mut N,
    keeper: &mut K,
    graphs: &mut M,
    gate: &G,
) -> Status
    // The words are no order exactly where the status is `NoCommand`.
    ensures no_command { result ≡ Status.NoCommand
        → (order : TheOrder) → Orders (map string_bytes words.now) order → ⊥ }
    ensures command { result ≢ Status.NoCommand
        → (order : TheOrder) × Orders (map string_bytes words.now) order }

    // The promise of the program: of every input that the source gives, and of every order of the words to build.
    ensures headline { KeepsHeadline (OrdersBuild (map string_bytes words.now)) (graph_call_of result
        (given_of (S.given source.old) (S.given source.new) (S.left source.old) (S.left source.new)
        (S.ended source.new) (S.faults source.old) (S.faults source.new))
        (written_of (O.taken out.old) (O.taken out.new) (O.faults out.old) (O.faults out.new))
        (written_of (N.taken notes.old) (N.taken notes.new) (N.faults notes.old) (N.faults notes.new))
        (change_of (K.known keeper.old) (K.known keeper.new) (K.bound keeper.old) (K.faults keeper.old)
        (K.faults keeper.new))
        (change_of (M.known graphs.old) (M.known graphs.new) (M.bound graphs.old) (M.faults graphs.old)
        (M.faults graphs.new))) }

    // What goes beyond it.
    ensures beyond { GoesBeyond (Orders (map string_bytes words.now)) (graph_call_of result
        (given_of (S.given source.old) (S.given source.new) (S.left source.old) (S.left source.new)
        (S.ended source.new) (S.faults source.old) (S.faults source.new))
        (written_of (O.taken out.old) (O.taken out.new) (O.faults out.old) (O.faults out.new))
        (written_of (N.taken notes.old) (N.taken notes.new) (N.faults notes.old) (N.faults notes.new))
        (change_of (K.known keeper.old) (K.known keeper.new) (K.bound keeper.old) (K.faults keeper.old)
        (K.faults keeper.new))
        (change_of (M.known graphs.old) (M.known graphs.new) (M.bound graphs.old) (M.faults graphs.old)
        (M.faults graphs.new))) }

    // What is left as it was: the output, the notes, the source, the store where the words say `--no-cache` or no
    // build is begun, and the store of graphs where the words do not say to use it or no tree is read.
    ensures silent { IsSilent result → out.new ≡ out.old }
    ensures no_notes { HasNoNotes result → notes.new ≡ notes.old }
    ensures unread { result ≡ Status.NoCommand → source.new ≡ source.old }
    ensures kept { HasNoBuild result → keeper.new ≡ keeper.old }
    ensures untouched { (order : TheOrder) → Orders (map string_bytes words.now) order
        → uses_store order ≡ false → keeper.new ≡ keeper.old }
    ensures bound { K.bound keeper.new ≡ K.bound keeper.old }
    ensures no_tree { HasNoTree result → graphs.new ≡ graphs.old }
    ensures no_graphs { (order : TheOrder) → Orders (map string_bytes words.now) order
        → uses_graphs order ≡ false → graphs.new ≡ graphs.old }
    ensures graph_bound { M.bound graphs.new ≡ M.bound graphs.old }

    // What else than a build leaves alone: the source; the output, but for a workload; the notes, for a workload.
    ensures unasked { (order : TheOrder) → Orders (map string_bytes words.now) order → (IsBuild order → ⊥)
        → source.new ≡ source.old }
    ensures unwritten { (order : TheOrder) → Orders (map string_bytes words.now) order → IsCare order
        → out.new ≡ out.old }
    ensures untold { (seed pips : ℕ) → Orders (map string_bytes words.now) (TheOrders.Gen seed pips)
        → notes.new ≡ notes.old }

    // Words that are no command are answered by the usage.
    ensures usage { result ≡ Status.NoCommand
        → AppendsOrFails usage_text (N.taken notes.old) (N.taken notes.new)
        (N.faults notes.old) (N.faults notes.new) }
{
    one_order();
    some_workers();
    match read_words(words) {
        Err(WordFault::NoCommand) => refuse_words(notes),
        Ok(order) => carry_out(rt, alloc, &order, source, out, notes, keeper, graphs, gate),
    }
}

/// The same without a store of graphs: words that ask for one are no command.
pub fn command<H: Threads + Wait + Sync, S: Source, O: Sink, N: Sink, K: Keeper, G: Gate>(
    rt: &H,
    alloc: Global,
    words: &[String],
    source: &mut S,
    out: &mut O,
    notes: &mut N,
    keeper: &mut K,
    gate: &G,
) -> Status
    // The words are no order, or one that asks for a store of graphs, exactly where the status is `NoCommand`.
    ensures no_command { result ≡ Status.NoCommand
        → (order : TheOrder) → OrdersPlain (map string_bytes words.now) order → ⊥ }
    ensures command { result ≢ Status.NoCommand
        → (order : TheOrder) × OrdersPlain (map string_bytes words.now) order }

    // The promise of the program: of every input that the source gives, and of every order of the words to build.
    ensures headline { KeepsHeadline (OrdersPlainBuild (map string_bytes words.now)) (call_of result
        (given_of (S.given source.old) (S.given source.new) (S.left source.old) (S.left source.new)
        (S.ended source.new) (S.faults source.old) (S.faults source.new))
        (written_of (O.taken out.old) (O.taken out.new) (O.faults out.old) (O.faults out.new))
        (written_of (N.taken notes.old) (N.taken notes.new) (N.faults notes.old) (N.faults notes.new))
        (change_of (K.known keeper.old) (K.known keeper.new) (K.bound keeper.old) (K.faults keeper.old)
        (K.faults keeper.new))) }

    // What goes beyond it.
    ensures beyond { GoesBeyond (OrdersPlain (map string_bytes words.now)) (call_of result
        (given_of (S.given source.old) (S.given source.new) (S.left source.old) (S.left source.new)
        (S.ended source.new) (S.faults source.old) (S.faults source.new))
        (written_of (O.taken out.old) (O.taken out.new) (O.faults out.old) (O.faults out.new))
        (written_of (N.taken notes.old) (N.taken notes.new) (N.faults notes.old) (N.faults notes.new))
        (change_of (K.known keeper.old) (K.known keeper.new) (K.bound keeper.old) (K.faults keeper.old)
        (K.faults keeper.new))) }

    // What is left as it was: the output, the notes, the source, and the store where the words say `--no-cache`
    // or no build is begun.
    ensures silent { IsSilent result → out.new ≡ out.old }
    ensures no_notes { HasNoNotes result → notes.new ≡ notes.old }
    ensures unread { result ≡ Status.NoCommand → source.new ≡ source.old }
    ensures kept { HasNoBuild result → keeper.new ≡ keeper.old }
    ensures untouched { (order : TheOrder) → Orders (map string_bytes words.now) order
        → uses_store order ≡ false → keeper.new ≡ keeper.old }
    ensures bound { K.bound keeper.new ≡ K.bound keeper.old }

    // What else than a build leaves alone: the source; the output, but for a workload; the notes, for a workload.
    ensures unasked { (order : TheOrder) → Orders (map string_bytes words.now) order → (IsBuild order → ⊥)
        → source.new ≡ source.old }
    ensures unwritten { (order : TheOrder) → Orders (map string_bytes words.now) order → IsCare order
        → out.new ≡ out.old }
    ensures untold { (seed pips : ℕ) → Orders (map string_bytes words.now) (TheOrders.Gen seed pips)
        → notes.new ≡ notes.old }

    // Words that are no command are answered by the usage.
    ensures usage { result ≡ Status.NoCommand
        → AppendsOrFails usage_text (N.taken notes.old) (N.taken notes.new)
        (N.faults notes.old) (N.faults notes.new) }
{
    one_order();
    some_workers();
    match read_plain(words) {
        Err(WordFault::NoCommand) => refuse_words(notes),
        Ok(order) => {
            let mut graphs = NoFaultKeeper::new(alloc);
            carry_out(
                rt,
                alloc,
                &order,
                source,
                out,
                notes,
                keeper,
                &mut graphs,
                gate,
            )
        }
    }
}
