//! The plan of a bundle, or why there is none.

ghost use Rattle.bx_tree.specs.Bundle.{IsInSize};

use crate::shown::Lines;
use build_report::refused_report;
use bundle_system::bundle_message;
use bx_engine_front::{FrontEnd, FrontFault, Limits, Refusal, plan_of};
use bx_tree::{BundleFault, Memory, Tree, lines_of, read_bundle, reserved};
use std::alloc::{AllocError, Global};

/// Why a bundle has no plan: a message, or there was no memory.
#[derive(Drop)]
pub enum Refused {
    Message(Vec<u8>),
    Memory,
}

fn refusing(message: Result<String, AllocError>) -> Refused {
    match message {
        Ok(message) => Refused::Message(message.into_bytes()),
        Err(_) => Refused::Memory,
    }
}

// Why a specification is refused, in one line: the lines of its report after the first two.
fn refusal_message(alloc: Global, refusal: &Refusal) -> Result<Vec<u8>, Memory> {
    let report = refused_report(alloc, refusal)?;
    let mut text = Lines::new(alloc);
    text.add("standard input: refused");
    'lines: for (number, line) in lines_of(alloc, report.as_slice())?.iter().enumerate() {
        if number >= 2 && !line.is_empty() {
            text.add(", ");
            text.shown(line);
        }
    }
    text.end()
}

fn refuse_specification(alloc: Global, refusal: &Refusal) -> Refused {
    match refusal_message(alloc, refusal) {
        Ok(text) => Refused::Message(text),
        Err(_) => Refused::Memory,
    }
}

fn refuse_bundle(alloc: Global, fault: BundleFault) -> Refused {
    match fault {
        BundleFault::Memory => Refused::Memory,
        _ => refusing(bundle_message(alloc, fault)),
    }
}

fn plan_of_tree(alloc: Global, tree: Tree, limits: &Limits) -> Result<FrontEnd, Refused>
    requires { IsInSize tree }
{
    if reserved(&tree) {
        let message = "standard input: a path begins with out or report.txt";
        return Err(refusing(String::from_str(alloc, message)));
    }
    match plan_of(alloc, tree, limits) {
        Ok(end) => Ok(end),
        Err(FrontFault::Refused(refusal)) => Err(refuse_specification(alloc, &refusal)),
        Err(FrontFault::Memory) => Err(Refused::Memory),
    }
}

/// The plan of a bundle, as a build makes it.
pub fn plan_of_text(alloc: Global, text: &[u8], limits: &Limits) -> Result<FrontEnd, Refused> {
    match read_bundle(alloc, text) {
        Ok(tree) => plan_of_tree(alloc, tree, limits),
        Err(fault) => Err(refuse_bundle(alloc, fault)),
    }
}
