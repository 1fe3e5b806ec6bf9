//! Changes of a store that are planned, made and counted.
ghost use Rattle.std.specs.Prelude.{◌≡◌, ◌+◌, ◌≤◌, [], ◌∷◌, All, Err, OnErr, OnOk, length, map};
ghost use Rattle.bx_io.specs.Holdings.{Keeps, Makes, MakesPrefix, name_of};
ghost use Rattle.bx_io.specs.Names.{IsName};
ghost use Rattle.two_phase.specs.Calls.{KeeperCall};
ghost use Rattle.cache_care.specs.Counts.{drop_count as count_of, one_drop};
ghost use Rattle.cache_care.specs.Planning.{planned_change};

use bx_io::{Keeper, PutFault};
use cache_care_check::CareFault;
use std::alloc::Global;

/// A change that is planned.
#[derive(Drop)]
pub(crate) enum Planned {
    /// These bytes are put under this name.
    Put(String, Vec<u8>),
    /// This name is dropped.
    Drop(String),
}

/// How many names of a store were kept, and how many were dropped.
#[derive(Clone, Copy, Debug, PartialEq, Eq)]
pub struct CareCount {
    pub kept: u64,
    pub dropped: u64,
}

// Makes a change.
fn apply<K: Keeper>(alloc: Global, keeper: &mut K, planned: &Planned) -> Result<(), PutFault>
    requires { IsName (name_of (planned_change planned.now)) }
    ensures made { OnOk result (Makes (K.known keeper.old) (planned_change planned.now ∷ []) (K.known keeper.new)) }
    ensures refused { OnErr result (Keeps (K.known keeper.old) (K.known keeper.new)) }
    ensures keeper { KeeperCall (K.bound keeper.old) (K.bound keeper.new) (K.faults keeper.old)
        (K.faults keeper.new) (result ≡ Err PutFault.Failed) }
{
    match planned {
        Planned::Put(name, bytes) => keeper.put(alloc, name.as_str(), bytes.as_slice()),
        Planned::Drop(name) => keeper.drop_name(alloc, name.as_str()),
    }
}

/// Makes changes in their order, up to the first that is refused.
pub(crate) fn apply_all<K: Keeper>(
    alloc: Global,
    keeper: &mut K,
    plan: &[Planned],
) -> Result<(), CareFault>
    requires { All (λ planned. IsName (name_of (planned_change planned))) plan.now }
    ensures made { OnOk result (Makes (K.known keeper.old) (map planned_change plan.now) (K.known keeper.new)) }
    ensures cut { OnErr result (MakesPrefix (K.known keeper.old) (K.known keeper.new) (map planned_change plan.now)) }
    ensures keeper { KeeperCall (K.bound keeper.old) (K.bound keeper.new) (K.faults keeper.old)
        (K.faults keeper.new) (result ≡ Err CareFault.Failed) }
{
    'plan: for planned in plan {
        match apply(alloc, keeper, planned) {
            Ok(()) => (),
            Err(PutFault::Failed) => return Err(CareFault::Failed),
            Err(PutFault::Memory) => return Err(CareFault::Memory),
        }
    }
    Ok(())
}

fn drops(planned: &Planned) -> u64
    ensures { result ≡ one_drop (planned_change planned.now) }
{
    match planned {
        Planned::Put(_, _) => 0,
        Planned::Drop(_) => 1,
    }
}

// How many names are dropped.
fn drop_count(plan: &[Planned]) -> u64
    ensures { result ≡ count_of (map planned_change plan.now) }
{
    let mut count = 0;
    'plan: for planned in plan {
        count += drops(planned);
    }
    count
}

/// How many of that many names stay, and how many the changes drop.
pub(crate) fn counted(names: usize, plan: &[Planned]) -> CareCount
    requires { count_of (map planned_change plan.now) ≤ names }
    ensures dropped { result.dropped ≡ count_of (map planned_change plan.now) }
    ensures all { result.kept + result.dropped ≡ names }
{
    let dropped = drop_count(plan);
    CareCount {
        kept: names as u64 - dropped,
        dropped,
    }
}
