//! Runs that are made again on their answers, and gates.
ghost use Rattle.observed.specs.declared.access.Answer.TheVariants as answers;

use super::fixture::{ASKED, One, WEAK, desc, record};
use bx_io::Gate;
use bx_tree::Path;
use observed::{Answer, Ask, View};
use run_record::{Cause, Outcome, Record, execute};
use std::alloc::{AllocError, Global};
use std::sync::atomic::AtomicU32;
use std::sync::atomic::Ordering::Relaxed;
use std::test::Fail;

// A gate that adds up the numbers of the pips for which it is passed.
#[derive(Drop)]
struct SumGate {
    sum: AtomicU32,
}

impl Gate for SumGate {
    fn pass(&self, pip: u32) {
        self.sum.fetch_add(pip, Relaxed);
    }
}

// Runs the process as pip 7.
fn run_as_seven(alloc: Global, gate: &SumGate) -> Result<(), Fail> {
    let path = Path::read(alloc, b"b")?;
    let mut view = One {
        path: &path,
        answer: &Answer::File,
    };
    drop(execute(alloc, desc(alloc, WEAK)?, 7, &mut view, gate)?);
    Ok(())
}

#[test]
fn the_gate_is_passed_once_for_the_pip(rt: HostRuntime) -> Result<(), Fail> {
    let gate = SumGate {
        sum: AtomicU32::new(0),
    };
    run_as_seven(rt.alloc(), &gate)?;
    assert_eq!(rt; gate.sum.load(Relaxed), 7);
    Ok(())
}

// A view in which all is absent, and which counts what it is asked.
#[derive(Drop)]
struct CountView {
    asked: usize,
}

impl View for CountView {
    ghost answers = { λ v q. answers.Absent };

    fn ask(&mut self, _: Global, _: &Ask) -> Result<Answer, AllocError> {
        self.asked = self.asked.saturating_add(1);
        Ok(Answer::Absent)
    }
}

#[test]
fn each_ask_of_a_view_is_recorded(rt: HostRuntime) -> Result<(), Fail> {
    let alloc = rt.alloc();
    let gate = SumGate {
        sum: AtomicU32::new(0),
    };
    let mut view = CountView { asked: 0 };
    let record = execute(alloc, desc(alloc, WEAK)?, 7, &mut view, &gate)?;
    assert_eq!(rt; view.asked, 2);
    let accesses = record.accesses(alloc)?;
    assert_eq!(rt; accesses.len(), 2);
    assert_eq!(rt; record.paths().asks().len(), 2);
    Ok(())
}

// The code with which a run of two accesses ended.
fn code_of(alloc: Global, record: &Record) -> Result<Option<u8>, Fail> {
    let accesses = record.accesses(alloc)?;
    match record.outcome() {
        Outcome::Failed(Cause::Exit(code)) if accesses.len() == 2 => Ok(Some(*code)),
        _ => Ok(None),
    }
}

// The code of the run whose path set has this text and in which all asks have this answer.
fn code(alloc: Global, paths: &str, answer: &Answer) -> Result<Option<u8>, Fail> {
    match record(alloc, paths, answer)? {
        Some(again) => {
            let code = code_of(alloc, &again)?;
            drop(again);
            Ok(code)
        }
        None => Ok(None),
    }
}

#[test]
fn a_run_is_made_again_on_its_answers_alone(rt: HostRuntime) -> Result<(), Fail> {
    let rows: &[(&str, &Answer, Option<u8>)] = &[
        (ASKED, &Answer::Absent, Some(4)),
        (ASKED, &Answer::File, Some(5)),
        ("paths 1\nprobe a\nprobe c\n", &Answer::File, None),
        ("paths 1\nprobe a\nprobe b\nprobe c\n", &Answer::File, None),
    ];
    for (paths, answer, want) in rows {
        assert_eq!(rt; code(rt.alloc(), paths, answer)?, *want, "{paths}");
    }
    Ok(())
}
