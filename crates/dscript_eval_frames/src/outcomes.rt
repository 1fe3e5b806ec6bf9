//! What comes of operators, calls and members: a value, or a fault in the file of the running body.
ghost use Rattle.std.specs.Prelude.{◌≡◌};
ghost use Rattle.dscript_value.specs.Plain.{Plain, plain_of};
ghost use Rattle.dscript_sdk_values.specs.Outcomes.{Outcome};
ghost use Rattle.dscript_eval_meaning.specs.Evaluating.{answered, gives};
ghost use Rattle.dscript_eval_frames.specs.Made.{Answers};
ghost use Rattle.dscript_eval_frames.specs.Faults.{stop_in};
ghost use Rattle.dscript_eval_frames.specs.Keeps.{Comes, IsDone};
ghost use Rattle.dscript_eval_frames.specs.declared.work.StmtWork.TheVariants as stmt;
ghost use Rattle.dscript_eval_frames.specs.declared.work.Work.TheVariants as works;

use crate::machine::Machine;
use crate::stop::Stop;
use dscript_eval_meaning::EvalKind;
use dscript_sdk_values::SdkFault;
use dscript_value::Value;

/// A fault in a file.
pub fn stop_of(fault: SdkFault, file: u32) -> Stop
    ensures { result ≡ stop_in file fault }
{
    match fault {
        SdkFault::Kind => Stop::Fault(EvalKind::Kind, file, None),
        SdkFault::Missing => Stop::Fault(EvalKind::Missing, file, None),
        SdkFault::Range => Stop::Fault(EvalKind::Range, file, None),
        SdkFault::BadPath => Stop::Fault(EvalKind::BadPath, file, None),
        SdkFault::BadArgument => Stop::Fault(EvalKind::BadArgument, file, None),
        SdkFault::User(message) => Stop::Fault(EvalKind::User, file, Some(message)),
        SdkFault::Memory => Stop::Memory,
    }
}

impl<'a> Machine<'a> {
    /// A value comes.
    pub fn answer(&mut self, value: Value) -> Result<(), Stop>
        ensures { Comes result self.old self.new (λ v. gives (plain_of value)) }
    {
        self.give(value);
        Ok(())
    }

    /// A value comes, or the fault in its place.
    pub fn finish(&mut self, outcome: Result<Value, SdkFault>) -> Result<(), Stop>
        ensures { (o : Outcome Plain) → Answers outcome o
            → Comes result self.old self.new (λ v. answered o) }
    {
        match outcome {
            Ok(value) => self.answer(value),
            Err(fault) => Err(stop_of(fault, self.frame.file)),
        }
    }

    /// The value that is given is not used.
    pub fn forget(&mut self) -> Result<(), Stop>
        ensures { IsDone result self.old self.new (works.Stmt stmt.Forget) }
    {
        self.give_undefined();
        Ok(())
    }
}
