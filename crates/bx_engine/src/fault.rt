//! Why an input is refused.

ghost use Rattle.std.specs.Prelude.{◌≡◌};
ghost use Rattle.bx_engine.specs.Ending.{input_fault_name};

/// Why an input is refused. docs/FORMATS.md says when each comes.
#[derive(Clone, Copy, Debug, PartialEq, Eq)]
pub enum InputFault {
    BadBundle,
    BadPath,
    Unordered,
    Nested,
    TooManyFiles,
    TooLarge,
    /// A source file has a path that belongs to the output.
    Reserved,
}

/// The word that a report has for a fault.
pub(crate) fn input_name(fault: InputFault) -> &'static str
    ensures { result.now ≡ input_fault_name fault }
{
    match fault {
        InputFault::BadBundle => "BadBundle",
        InputFault::BadPath => "BadPath",
        InputFault::Unordered => "Unordered",
        InputFault::Nested => "Nested",
        InputFault::TooManyFiles => "TooManyFiles",
        InputFault::TooLarge => "TooLarge",
        InputFault::Reserved => "Reserved",
    }
}
