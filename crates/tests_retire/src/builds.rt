//! Plans of small builds, and whether a build is the reference.
ghost use Rattle.std.specs.Prelude.{◌≡◌, IfOk, length};
ghost use Rattle.graph_check.specs.Rules.{KeepsRules};

use build_report::report;
use bx_engine::{FrontEnd, Order, front};
use bx_io::{Keeper, OpenGate};
use bx_tree::read_bundle;
use one_thread::{build_all, outputs};
use pip_model::{Made, Plan, Sources};
use retire::{Retired, retire};
use sched_board_slots::{Finished, Held};
use std::alloc::{AllocError, Global};
use std::test::Fail;
use violations::Verdict;

/// How many processes hit, ran and ran late.
pub type Tally = (u64, u64, u64);

/// The plan and the sources of a bundle.
pub fn planned(alloc: Global, bundle: &str) -> Result<FrontEnd, Fail>
    ensures { IfOk result (λ end. KeepsRules end.plan.pips end.sources) }
{
    let Ok(tree) = read_bundle(alloc, bundle.as_bytes()) else {
        return Err("this is no bundle".into());
    };
    let order = Order::Build {
        workers: 1,
        cached: false,
        eval_budget: 10_000_000,
        tool_budget: 100_000,
        types: false,
        graphs: false,
    };
    match front(alloc, tree, &order) {
        Ok(end) => Ok(end),
        Err(_) => Err("the specification is refused".into()),
    }
}

// What a build came to, as one text: the report, and each file with its path.
fn text_of(
    alloc: Global,
    plan: &Plan,
    verdicts: &[Verdict],
    made: &Made,
) -> Result<Vec<u8>, AllocError> {
    if verdicts.len() != plan.pips().len() {
        return Ok(Vec::new(alloc));
    }
    let mut text = report(alloc, plan, verdicts)?;
    for file in made.files() {
        text.extend_from_slice(file.path.text().as_bytes())?;
        text.extend_from_slice(b" = ")?;
        text.extend_from_slice(file.blob.bytes())?;
    }
    Ok(text)
}

// What the reference build comes to.
fn reference(alloc: Global, plan: &Plan, sources: &Sources) -> Result<Vec<u8>, AllocError> {
    let built = build_all(alloc, plan, sources, &OpenGate)?;
    let made = outputs(alloc, built.slots.as_slice())?;
    text_of(alloc, plan, built.verdicts.as_slice(), &made)
}

/// Whether the build by these slots, over this store where it is used, is the reference build, with these counts.
pub fn is_reference<K: Keeper>(
    alloc: Global,
    plan: &Plan,
    sources: &Sources,
    slots: Vec<Held>,
    keeper: &mut K,
    cached: bool,
    tally: Tally,
) -> Result<bool, AllocError>
    requires { KeepsRules plan.now.pips sources.now }
{
    if slots.len() != plan.pips().len() {
        return Ok(false);
    }
    let finished = Finished {
        history: Vec::new(alloc),
        slots,
    };
    let Retired {
        verdicts,
        outputs,
        tally: counts,
    } = retire(alloc, plan, sources, keeper, finished, &OpenGate, cached)?;
    let text = text_of(alloc, plan, verdicts.as_slice(), &outputs)?;
    let expected = reference(alloc, plan, sources)?;
    Ok(
        !expected.is_empty()
            && text.as_slice() == expected.as_slice()
            && (counts.hits, counts.ran, counts.late) == tally
            && counts.faults == 0,
    )
}
