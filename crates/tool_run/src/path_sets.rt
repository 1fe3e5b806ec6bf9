//! Path sets of runs.
ghost use Rattle.std.specs.Prelude.{◌≡◌, ◌++◌, [], ◌∷◌, IfOk, OnOk, is_some};
ghost use Rattle.tool_run.specs.Described.{described};
ghost use Rattle.tool_run.specs.Description.{given};
ghost use Rattle.tool_run.specs.Run.{asks_of as asks_among, path_set, with_ask};

use crate::running::declared;
use observed::{Access, Ask, AskKind, PathSet};
use pip_model_types::Desc;
use std::alloc::{AllocError, Global};

// Whether a declared file answers an ask.
fn is_given(desc: &Desc, ask: &Ask) -> bool
    ensures { result ≡ is_some (given (described desc.now) ask.now) }
{
    match &ask.kind {
        AskKind::Read | AskKind::Probe => declared(desc, &ask.path).is_some(),
        AskKind::List | AskKind::Match(_) => false,
    }
}

// Adds an ask, if no declared file answers it.
fn add_ask(asks: &mut Vec<Ask>, desc: &Desc, ask: &Ask) -> Result<(), AllocError>
    ensures { OnOk result (asks.new.items
        ≡ asks.old.items ++ with_ask (given (described desc.now) ask.now) ask.now []) }
{
    if is_given(desc, ask) {
        return Ok(());
    }
    let shared = ask.share()?;
    asks.push(shared)?;
    Ok(())
}

// Adds the ask of an access, if it has one that no declared file answers.
fn add_asked(asks: &mut Vec<Ask>, desc: &Desc, access: &Access) -> Result<(), AllocError>
    ensures { OnOk result (asks.new.items
        ≡ asks.old.items ++ asks_among (described desc.now) (access.now ∷ [])) }
{
    match access {
        Access::Asked(ask, _) => add_ask(asks, desc, ask),
        Access::Wrote(_) | Access::WriteDenied(_) => Ok(()),
    }
}

// The asks among accesses that no declared file answers, in order.
fn asks_of(alloc: Global, desc: &Desc, accesses: &[Access]) -> Result<Vec<Ask>, AllocError>
    ensures { IfOk result (λ asks. asks.items ≡ asks_among (described desc.now) accesses.now) }
{
    let mut asks = Vec::new(alloc);
    'accesses: for access in accesses {
        add_asked(&mut asks, desc, access)?;
    }
    Ok(asks)
}

/// The path set of the accesses of a run: all asks that no declared file answers.
pub fn path_set_of(alloc: Global, desc: &Desc, accesses: &[Access]) -> Result<PathSet, AllocError>
    ensures { IfOk result (λ set. set ≡ path_set (described desc.now) accesses.now) }
{
    Ok(PathSet::of(asks_of(alloc, desc, accesses)?))
}
