//! Writes a whole text to a sink, which may take it in any number of pieces.

ghost use Rattle.std.specs.Prelude.{◌≡◌, [], IsErr, OnErr, OnOk};
ghost use Rattle.bx_io.specs.Causes.{HasCause};
ghost use Rattle.bx_engine.specs.Known.{Appends, AppendsPrefix};

use bx_io::{Failed, Sink};

/// Writes all the bytes, in as many calls as it takes.
pub(crate) fn write_all<O: Sink>(out: &mut O, bytes: &[u8]) -> Result<(), Failed>
    ensures whole { OnOk result (Appends (O.taken out.old) (O.taken out.new) bytes.now) }
    ensures prefix { OnErr result (AppendsPrefix (O.taken out.old) (O.taken out.new) bytes.now) }
    ensures nothing { bytes.now ≡ [] → out.new ≡ out.old }
    ensures cause { HasCause (O.faults out.old) (O.faults out.new) (IsErr result) }
    ensures no_fault { OnOk result (O.faults out.new ≡ O.faults out.old) }
{
    let mut rest = bytes;
    'pieces: while !rest.is_empty() {
        let count = out.write(rest)?;
        rest = &rest[count..];
    }
    Ok(())
}
