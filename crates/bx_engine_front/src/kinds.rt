//! The words that reports have for kinds of faults.

ghost use Rattle.std.specs.Prelude.{◌≡◌};
ghost use Rattle.bx_engine_front.specs.Refusals as texts;

use dscript_eval::EvalKind;
use dscript_program::SpecKind;
use graph_check::GraphKind;

pub(crate) fn file_kind_name(kind: SpecKind) -> &'static str
    ensures { result.now ≡ texts.file_kind_name kind }
{
    match kind {
        SpecKind::Lex => "Lex",
        SpecKind::Syntax => "Syntax",
        SpecKind::ModuleConfig => "ModuleConfig",
        SpecKind::DuplicateModule => "DuplicateModule",
        SpecKind::DuplicateName => "DuplicateName",
        SpecKind::UnknownName => "UnknownName",
        SpecKind::UnknownModule => "UnknownModule",
        SpecKind::NotPublic => "NotPublic",
        SpecKind::AssignCaptured => "AssignCaptured",
    }
}

pub(crate) fn evaluation_kind_name(kind: EvalKind) -> &'static str
    ensures { result.now ≡ texts.evaluation_kind_name kind }
{
    match kind {
        EvalKind::Kind => "Kind",
        EvalKind::Missing => "Missing",
        EvalKind::Cycle => "Cycle",
        EvalKind::Range => "Range",
        EvalKind::BadPath => "BadPath",
        EvalKind::Depth => "Depth",
        EvalKind::Budget => "Budget",
        EvalKind::BadArgument => "BadArgument",
        EvalKind::User => "User",
    }
}

pub(crate) fn rule_name(rule: GraphKind) -> &'static str
    ensures { result.now ≡ texts.rule_name rule }
{
    match rule {
        GraphKind::DoubleProducer => "DoubleProducer",
        GraphKind::Overlap => "Overlap",
        GraphKind::NoSuchSource => "NoSuchSource",
        GraphKind::OutsideOut => "OutsideOut",
        GraphKind::Twin => "Twin",
        GraphKind::Limit => "Limit",
    }
}
