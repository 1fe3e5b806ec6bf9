//! The report of a build whose pips were gone through.
ghost use Rattle.std.specs.Prelude.{◌≡◌, ◌++◌, ◌≤◌, IfOk, OnOk, length};
ghost use Rattle.std.specs.List.{list_all};
ghost use Rattle.build_report.specs.Reports as texts;
ghost use Rattle.violations.specs.Verdicts as ends;

use crate::names::{deed_name, end_name, pip_name, violation_name};
use bx_tree::Memory;
use pip_model::{Pip, PipKind, Plan};
use std::alloc::Global;
use violations::{Verdict, Violation};

// Adds the pip that a violation names beside its own, if it names one.
fn add_other(alloc: Global, text: &mut Vec<u8>, other: Option<u32>) -> Result<(), Memory>
    ensures { OnOk result (text.new.items ≡ text.old.items ++ texts.other_text other) }
{
    let Some(number) = other else {
        return Ok(());
    };
    let added = format!(in alloc; " pip {number}")?;
    text.extend_from_slice(added.as_bytes())
}

fn add_violation(alloc: Global, text: &mut Vec<u8>, violation: &Violation) -> Result<(), Memory>
    ensures { OnOk result (text.new.items ≡ text.old.items ++ texts.violation_text violation.now) }
{
    let kind = violation_name(violation.kind);
    let deed = deed_name(violation.deed);
    let path = violation.path.text();
    let added = format!(in alloc; "failed {kind} {deed} {path}")?;
    text.extend_from_slice(added.as_bytes())?;
    add_other(alloc, text, violation.other)
}

// Adds how a pip ended.
fn add_end(alloc: Global, text: &mut Vec<u8>, verdict: &Verdict) -> Result<(), Memory>
    ensures { OnOk result (text.new.items ≡ text.old.items ++ texts.end_text verdict.now) }
{
    match verdict {
        Verdict::Succeeded => text.extend_from_slice(b"succeeded"),
        Verdict::Skipped => text.extend_from_slice(b"skipped"),
        Verdict::Exit(code) => {
            let added = format!(in alloc; "failed exit {code}")?;
            text.extend_from_slice(added.as_bytes())
        }
        Verdict::Tool(end) => {
            text.extend_from_slice(b"failed tool ")?;
            text.extend_from_slice(end_name(*end).as_bytes())
        }
        Verdict::MissingOutput(path) => {
            text.extend_from_slice(b"failed missing-output ")?;
            text.extend_from_slice(path.text().as_bytes())
        }
        Verdict::Violated(violation) => add_violation(alloc, text, violation),
    }
}

fn add_pip(
    alloc: Global,
    text: &mut Vec<u8>,
    number: usize,
    kind: &PipKind,
    verdict: &Verdict,
) -> Result<(), Memory>
    ensures { OnOk result (text.new.items ≡ text.old.items ++ texts.pip_line number kind.now verdict.now) }
{
    let name = pip_name(kind);
    let added = format!(in alloc; "pip {number} {name} ")?;
    text.extend_from_slice(added.as_bytes())?;
    add_end(alloc, text, verdict)?;
    text.push(b'\n')?;
    Ok(())
}

/// Whether all pips succeeded.
pub fn all_succeeded(verdicts: &[Verdict]) -> bool
    ensures { result ≡ list_all ends.is_success verdicts.now }
{
    verdicts.iter().all(|verdict| verdict.is_success())
}

// The lines that say whether all pips succeeded.
fn head(verdicts: &[Verdict]) -> &'static str
    ensures { result.now ≡ texts.head_text verdicts.now }
{
    if all_succeeded(verdicts) {
        "report 1\nverdict succeeded\n"
    } else {
        "report 1\nverdict failed\n"
    }
}

fn report_of(alloc: Global, pips: &[Pip], verdicts: &[Verdict]) -> Result<Vec<u8>, Memory>
    requires { length verdicts.now ≤ length pips.now }
    ensures { IfOk result (λ text. text.items ≡ texts.report_text pips.now verdicts.now) }
{
    let mut text = Vec::from_slice(alloc, head(verdicts).as_bytes())?;
    'pips: for (number, verdict) in verdicts.iter().enumerate() {
        add_pip(alloc, &mut text, number, &pips[number].kind, verdict)?;
    }
    Ok(text)
}

/// The report of a build of this plan, with how each pip ended. docs/FORMATS.md has its form.
pub fn report(alloc: Global, plan: &Plan, verdicts: &[Verdict]) -> Result<Vec<u8>, Memory>
    requires { length verdicts.now ≡ length plan.now.pips }
    ensures { IfOk result (λ text. text.items ≡ texts.report_text plan.now.pips verdicts.now) }
{
    report_of(alloc, plan.pips(), verdicts)
}
