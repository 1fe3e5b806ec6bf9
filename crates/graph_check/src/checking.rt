//! All rules, one after the other.
ghost use Rattle.std.specs.Prelude.{◌≡◌, ◌<◌, ◌≤◌, IfOk, MatchResult, length};
ghost use Rattle.graph_check_outputs.specs.Firsts.{IsFirst};
ghost use Rattle.graph_check.specs.Rules.{FailsAt, IsRefusal, KeepsRules, RuleHolds, rank};
ghost use Rattle.graph_check.specs.declared.fault.GraphKind.{GraphKind as AnyRule};

use crate::fault::{GraphFault, GraphKind};
use crate::limit::limit;
use crate::no_such_source::no_such_source;
use crate::twin::twin;
use bx_tree::Memory;
use graph_check_outputs::{first_double_producer, first_outside, first_overlap};
use pip_model::{Pip, PipList, Plan, Sources};
use std::alloc::Global;

fn first_failure(
    alloc: Global,
    rule: GraphKind,
    pips: &[Pip],
    sources: &Sources,
) -> Result<Option<usize>, Memory>
    ensures { IfOk result (IsFirst (FailsAt rule pips.now sources.now)) }
{
    match rule {
        GraphKind::DoubleProducer => first_double_producer(alloc, pips),
        GraphKind::Overlap => first_overlap(alloc, pips),
        GraphKind::NoSuchSource => no_such_source(alloc, pips, sources),
        GraphKind::OutsideOut => first_outside(alloc, pips),
        GraphKind::Twin => twin(alloc, pips),
        GraphKind::Limit => Ok(limit(pips)),
    }
}

// Refuses pips for which a rule fails, where all rules before it hold.
fn keep_rule(
    alloc: Global,
    rule: GraphKind,
    pips: &[Pip],
    sources: &Sources,
) -> Result<(), GraphFault>
    requires few { length pips.now ≤ u32.MAX }
    requires earlier { (other : AnyRule) → rank other < rank rule → RuleHolds other pips.now sources.now }
    ensures { MatchResult result
        (λ _. RuleHolds rule pips.now sources.now)
        (λ fault. IsRefusal pips.now sources.now fault) }
{
    let Some(number) = first_failure(alloc, rule, pips, sources)? else {
        return Ok(());
    };
    let file = pips[number].spec.share()?;
    Err(GraphFault::Fault {
        kind: rule,
        pip: number as u32,
        file,
    })
}

// Refuses pips for which some rule fails.
fn keep_rules(alloc: Global, pips: &[Pip], sources: &Sources) -> Result<(), GraphFault>
    ensures { MatchResult result
        (λ _. KeepsRules pips.now sources.now)
        (λ fault. IsRefusal pips.now sources.now fault) }
{
    // A list of 2^32 pips or more does not fit into memory.
    if pips.len() > u32::MAX as usize {
        return Err(GraphFault::Memory);
    }
    keep_rule(alloc, GraphKind::DoubleProducer, pips, sources)?;
    keep_rule(alloc, GraphKind::Overlap, pips, sources)?;
    keep_rule(alloc, GraphKind::NoSuchSource, pips, sources)?;
    keep_rule(alloc, GraphKind::OutsideOut, pips, sources)?;
    keep_rule(alloc, GraphKind::Twin, pips, sources)?;
    keep_rule(alloc, GraphKind::Limit, pips, sources)?;
    Ok(())
}

/// The plan of these pips over these source files, or the first rule that fails. A tool may take
/// `tool_budget` steps.
pub fn check(
    alloc: Global,
    pips: PipList,
    sources: &Sources,
    tool_budget: u64,
) -> Result<Plan, GraphFault>
    ensures rules { MatchResult result
        (λ _. KeepsRules pips sources.now)
        (λ fault. IsRefusal pips sources.now fault) }
    ensures pips { IfOk result (λ plan. plan.pips ≡ pips) }
    ensures tool_budget { IfOk result (λ plan. plan.tool_budget ≡ tool_budget) }
{
    keep_rules(alloc, pips.pips(), sources)?;
    Ok(Plan::build(alloc, pips, tool_budget)?)
}
