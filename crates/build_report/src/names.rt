//! The words of a report.
ghost use Rattle.std.specs.Prelude.{◌≡◌};
ghost use Rattle.build_report.specs.Names as names;

use observed::End;
use pip_model::PipKind;
use violations::{DeedKind, ViolationKind};

pub(crate) fn pip_name(kind: &PipKind) -> &'static str
    ensures { result.now ≡ names.pip_name kind.now }
{
    match kind {
        PipKind::Process(_) => "process",
        PipKind::Copy(_) => "copy",
        PipKind::Write(_) => "write",
        PipKind::Seal(_) => "seal",
    }
}

pub(crate) fn end_name(end: End) -> &'static str
    ensures { result.now ≡ names.end_name end }
{
    match end {
        End::Exit(_) => "Exit",
        End::Denied => "Denied",
        End::BadProgram => "BadProgram",
        End::BadPath => "BadPath",
        End::Budget => "Budget",
        End::TooLong => "TooLong",
        End::NotADirectory => "NotADirectory",
    }
}

pub(crate) fn violation_name(kind: ViolationKind) -> &'static str
    ensures { result.now ≡ names.violation_name kind }
{
    match kind {
        ViolationKind::MissingSourceDependency => "MissingSourceDependency",
        ViolationKind::UndeclaredOrderedRead => "UndeclaredOrderedRead",
        ViolationKind::UndeclaredReadCycle => "UndeclaredReadCycle",
        ViolationKind::ReadRace => "ReadRace",
        ViolationKind::UndeclaredOutput => "UndeclaredOutput",
        ViolationKind::DoubleWrite => "DoubleWrite",
    }
}

pub(crate) fn deed_name(deed: DeedKind) -> &'static str
    ensures { result.now ≡ names.deed_name deed }
{
    match deed {
        DeedKind::Read => "read",
        DeedKind::Probe => "probe",
        DeedKind::Write => "write",
    }
}
