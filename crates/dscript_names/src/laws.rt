//! What is proved of the meaning of names itself. The functions do nothing: their clauses are the laws.

ghost use Rattle.std.specs.Prelude.{◌≡◌, ◌⊎◌, List, Ok, Err};
ghost use Rattle.dscript_names_scopes.specs.Declarations.{ParsedData};
ghost use Rattle.dscript_names.specs.Captures.{AllCaptureOuter};
ghost use Rattle.dscript_names.specs.Counting.{HasLocalsFromZero};
ghost use Rattle.dscript_names.specs.Named.{named};
ghost use Rattle.dscript_program.specs.Numbering.{HasConsecutiveLocals};
ghost use Rattle.dscript_program.specs.ProgramData.{ProgramData};
ghost use Rattle.dscript_program.specs.Workspaces.{ModuleData};
ghost use Rattle.dscript_program.specs.SpecFaults.{FaultData};

/// A workspace with its parsed files has one program at most and one first fault at most, and not both.
pub fn one_meaning()
    ensures one_program { (modules : List ModuleData) (files : List ParsedData) (p q : ProgramData)
        → named modules files ≡ Ok p → named modules files ≡ Ok q → p ≡ q }
    ensures one_fault { (modules : List ModuleData) (files : List ParsedData) (f g : FaultData)
        → named modules files ≡ Err f → named modules files ≡ Err g → f ≡ g }
    ensures not_both { (modules : List ModuleData) (files : List ParsedData) (p : ProgramData) (f : FaultData)
        → named modules files ≡ Ok p → named modules files ≡ Err f → ⊥ }
{}

/// Each workspace with its parsed files has a program or a first fault.
pub fn some_meaning()
    ensures { (modules : List ModuleData) (files : List ParsedData)
        → ((p : ProgramData) × (named modules files ≡ Ok p))
        ⊎ ((f : FaultData) × (named modules files ≡ Err f)) }
{}

/// The locals of each function of a program are numbered in one run: its parameters, and then, in the order
/// of the text, its other locals and those of the functions in it. So a frame is a table of as many slots.
/// Each declaration counts from 0.
pub fn locals_are_consecutive()
    ensures one_run { (modules : List ModuleData) (files : List ParsedData) (p : ProgramData)
        → named modules files ≡ Ok p → HasConsecutiveLocals p }
    ensures from_zero { (modules : List ModuleData) (files : List ParsedData) (p : ProgramData)
        → named modules files ≡ Ok p → HasLocalsFromZero p }
{}

/// What a function captures comes before its own locals, each local once. So a declared function captures
/// none.
pub fn captures_are_outer()
    ensures { (modules : List ModuleData) (files : List ParsedData) (p : ProgramData)
        → named modules files ≡ Ok p → AllCaptureOuter p }
{}
