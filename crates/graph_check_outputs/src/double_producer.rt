//! The rule that no two pips declare one file.
ghost use Rattle.graph_check_outputs.specs.DoubleProducer.{DoubleProducerAt};
ghost use Rattle.graph_check_outputs.specs.Firsts.{IsFirst};
ghost use Rattle.std.specs.Prelude.{IfOk};

use crate::declared::files_of;
use crate::seen::{is_any_seen, see_all};
use bx_tree::Memory;
use bx_tree_paths::PathTable;
use pip_model_types::Pip;
use std::alloc::Global;

/// The first pip that declares a file that an earlier pip declares.
pub fn first_double_producer(alloc: Global, pips: &[Pip]) -> Result<Option<usize>, Memory>
    ensures { IfOk result (IsFirst (DoubleProducerAt pips.now)) }
{
    let mut seen = PathTable::new(alloc)?;
    'pips: for (number, pip) in pips.iter().enumerate() {
        let files = files_of(alloc, &pip.kind)?;
        if is_any_seen(&seen, files.as_slice()) {
            return Ok(Some(number));
        }
        see_all(alloc, &mut seen, files.as_slice())?;
    }
    Ok(None)
}
