//! A workload, written to the output.

ghost use Rattle.std.specs.Prelude.{◌≡◌, ◌≢◌, ◌⊎◌};
ghost use Rattle.bx_io.specs.Causes.{HasCause};
ghost use Rattle.bx_engine.specs.Calls.{written_of};
ghost use Rattle.bx_engine.specs.Known.{Appends, AppendsPrefix};
ghost use Rattle.bx_engine.specs.Workloads.{WritesWorkload};

use crate::status::Status;
use crate::writing::write_all;
use bx_engine_generate::generate;
use bx_io::Sink;
use std::alloc::Global;

// Writes a text to the output.
fn write_text<O: Sink>(out: &mut O, text: &[u8]) -> Status
    ensures status { (result ≡ Status.Done) ⊎ (result ≡ Status.OutFailed) }
    ensures written { result ≡ Status.Done → Appends (O.taken out.old) (O.taken out.new) text.now }
    ensures begun { result ≡ Status.OutFailed → AppendsPrefix (O.taken out.old) (O.taken out.new) text.now }
    ensures cause { HasCause (O.faults out.old) (O.faults out.new) (result ≡ Status.OutFailed) }
    ensures no_fault { result ≢ Status.OutFailed → O.faults out.new ≡ O.faults out.old }
{
    match write_all(out, text) {
        Ok(()) => Status::Done,
        Err(_) => Status::OutFailed,
    }
}

/// Writes the bundle of a workload, once all of it is composed.
pub(crate) fn write_workload<O: Sink>(alloc: Global, out: &mut O, seed: u64, pips: u32) -> Status
    ensures written { WritesWorkload seed pips result
        (written_of (O.taken out.old) (O.taken out.new) (O.faults out.old) (O.faults out.new)) }
    ensures silent { result ≡ Status.OutOfMemory → out.new ≡ out.old }
    ensures cause { HasCause (O.faults out.old) (O.faults out.new) (result ≡ Status.OutFailed) }
    ensures no_fault { result ≢ Status.OutFailed → O.faults out.new ≡ O.faults out.old }
{
    match generate(alloc, seed, pips) {
        Ok(text) => write_text(out, text.as_slice()),
        Err(_) => Status::OutOfMemory,
    }
}
