//! The rule that no two processes have one description.
ghost use Rattle.std.specs.Prelude.{◌≡◌, ◌↔◌, ◌⊎◌, Any, Contains, IfOk, OnOk, IsTrue};
ghost use Rattle.std.specs.Ordering.{as_partial_cmp, eq_by_cmp};
ghost use Rattle.pip_model_types.specs.declared.pip.ProcessDesc.{ProcessDesc as AnyProcess};
ghost use Rattle.graph_check_outputs.specs.Firsts.{IsFirst};
ghost use Rattle.graph_check.specs.Twin.{TwinAt, descriptions};
ghost use Rattle.graph_check.specs.Descriptions.{description};
ghost use Rattle.graph_check.specs.Described.{HasDescribed};
ghost use Rattle.std.proofs.Common.{rules};
ghost use Rattle.graph_check.specs.Described.{described_cmp, described_total, described_matches};
ghost use Rattle.graph_check.specs.Described.{described_equiv, described_partial_eq, described_partial};

use crate::descriptions::process_order;
use bx_tree::Memory;
use pip_model::{Pip, PipKind, ProcessDesc};
use std::alloc::{AllocError, Global};
use std::cmp::Ordering;
use std::collections::BTreeSet;

// A process, compared by its description.
#[derive(Drop)]
struct Described<'a> {
    process: &'a ProcessDesc,
}

impl<'a> PartialEq for Described<'a> {
    ghost eq = { eq_by_cmp described_cmp };

    ghost laws = { described_partial_eq };

    fn eq(&self, other: &Described<'a>) -> bool {
        process_order(self.process, other.process).is_eq()
    }
}

impl<'a> Eq for Described<'a> {
    ghost laws = { described_equiv };
}

impl<'a> Ord for Described<'a> {
    ghost cmp = { described_cmp };

    ghost total = { described_total };

    ghost matches_partial_cmp = { Prim.search rules };

    ghost matches_eq = { described_matches };

    fn cmp(&self, other: &Described<'a>) -> Ordering {
        process_order(self.process, other.process)
    }
}

impl<'a> PartialOrd for Described<'a> {
    ghost partial_cmp = { as_partial_cmp described_cmp };

    ghost laws = { described_partial };

    fn partial_cmp(&self, other: &Described<'a>) -> Option<Ordering> {
        Some(self.cmp(other))
    }
}

// Adds a process, and answers whether one of its description was there.
fn had<'a>(seen: &mut BTreeSet<Described<'a>>, process: &'a ProcessDesc) -> Result<bool, AllocError>
    ensures had { IfOk result
        (λ had. IsTrue had ↔ HasDescribed seen.old (description process.now)) }
    ensures added { OnOk result ((d : AnyProcess) → HasDescribed seen.new d
        ↔ (HasDescribed seen.old d ⊎ (description process.now ≡ d))) }
{
    Ok(!seen.insert(Described { process })?)
}

// Adds a pip, if it is a process. Whether a process of its description was there.
fn is_twin<'a>(seen: &mut BTreeSet<Described<'a>>, kind: &'a PipKind) -> Result<bool, AllocError>
    ensures twin { IfOk result
        (λ twin. IsTrue twin ↔ Any (HasDescribed seen.old) (descriptions kind.now)) }
    ensures added { OnOk result ((d : AnyProcess) → HasDescribed seen.new d
        ↔ (HasDescribed seen.old d ⊎ Contains (descriptions kind.now) d)) }
{
    match kind {
        PipKind::Process(process) => Ok(had(seen, process)?),
        _ => Ok(false),
    }
}

// The first process with the description of an earlier process.
pub(crate) fn twin(alloc: Global, pips: &[Pip]) -> Result<Option<usize>, Memory>
    ensures { IfOk result (IsFirst (TwinAt pips.now)) }
{
    let mut seen = BTreeSet::new(alloc);
    'pips: for (number, pip) in pips.iter().enumerate() {
        if is_twin(&mut seen, &pip.kind)? {
            return Ok(Some(number));
        }
    }
    Ok(None)
}
