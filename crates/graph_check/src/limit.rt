//! The rule that there are not too many pips.
ghost use Rattle.graph_check_outputs.specs.Firsts.{IsFirst};
ghost use Rattle.graph_check.specs.Limit.{LimitAt};

use pip_model::{MAX_PIPS, Pip};

// The first pip beyond the limit.
pub(crate) fn limit(pips: &[Pip]) -> Option<usize>
    ensures { IsFirst (LimitAt pips.now) result }
{
    if pips.len() > MAX_PIPS {
        Some(MAX_PIPS)
    } else {
        None
    }
}
