//! The refusals of faults.

ghost use Rattle.std.specs.Prelude.{◌≡◌, IfOk};
ghost use Rattle.build_report.specs.declared.refusal.Refusal.TheVariants.{Specification};
ghost use Rattle.bx_engine_front.specs.Faults.{IsRefusal, ShowsEvaluation, ShowsFile, ShowsRule, ShowsTypes};

use crate::fault::FrontFault;
use crate::kinds::{evaluation_kind_name, file_kind_name, rule_name};
use build_report::Refusal;
use bx_tree::{Memory, Path, Text};
use dscript_eval::EvalFault;
use dscript_program::{Place, SpecFault};
use dscript_types::TypeFault;
use graph_check::GraphFault;
use std::alloc::Global;

fn text_of(alloc: Global, text: &str) -> Result<Text, Memory>
    ensures { IfOk result (λ shared. shared ≡ text.now) }
{
    Text::new(alloc, Vec::from_slice(alloc, text.as_bytes())?)
}

// The refusal with a kind that has this name.
fn refusal(
    alloc: Global,
    kind: &str,
    file: Path,
    message: Option<Text>,
    place: Option<Place>,
) -> FrontFault
    ensures { IsRefusal (Specification kind.now file message place) result }
{
    match text_of(alloc, kind) {
        Ok(kind) => FrontFault::Refused(Refusal::Specification {
            kind,
            file,
            message,
            place,
        }),
        Err(_) => FrontFault::Memory,
    }
}

/// The refusal of a tree whose files, or the names in them, have a fault.
pub(crate) fn file_refusal(alloc: Global, fault: SpecFault) -> FrontFault
    ensures { ShowsFile fault result }
{
    match fault {
        SpecFault::Fault { kind, file, place } => {
            refusal(alloc, file_kind_name(kind), file, None, place)
        }
        SpecFault::Memory => FrontFault::Memory,
    }
}

/// The refusal of a program in which some expression has no type.
pub(crate) fn type_refusal(alloc: Global, fault: TypeFault) -> FrontFault
    ensures { ShowsTypes fault result }
{
    match fault {
        TypeFault::Untyped { file } => refusal(alloc, "Type", file, None, None),
        TypeFault::Memory => FrontFault::Memory,
    }
}

/// The refusal of a program that has a fault.
pub(crate) fn evaluation_refusal(alloc: Global, fault: EvalFault) -> FrontFault
    ensures { ShowsEvaluation fault result }
{
    match fault {
        EvalFault::Fault {
            kind,
            file,
            message,
        } => refusal(alloc, evaluation_kind_name(kind), file, message, None),
        EvalFault::Memory => FrontFault::Memory,
    }
}

/// The refusal of pips for which a rule fails.
pub(crate) fn graph_refusal(alloc: Global, fault: GraphFault) -> FrontFault
    ensures { ShowsRule fault result }
{
    match fault {
        GraphFault::Fault { kind, file, .. } => refusal(alloc, rule_name(kind), file, None, None),
        GraphFault::Memory => FrontFault::Memory,
    }
}
