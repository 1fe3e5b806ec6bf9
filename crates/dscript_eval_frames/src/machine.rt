//! The machine: what is still to be done, the last value, and the state.
ghost use Rattle.std.specs.Prelude.{◌≡◌, ◌+◌, ◌-◌, ◌<◌, ◌∷◌, [], None, Some, MatchOption, MatchResult};
ghost use Rattle.dscript_eval_meaning.specs.Lookups.{function_at};
ghost use Rattle.dscript_eval_frames.specs.Codes.{code_data};
ghost use Rattle.dscript_eval_frames.specs.Frames.{frame_of};
ghost use Rattle.dscript_value.specs.Plain as plain;
ghost use Rattle.dscript_value.specs.Plain.{plain_of};
ghost use Rattle.dscript_eval_frames.specs.Views.{seen};
ghost use Rattle.dscript_eval_frames.specs.Steps.{Spent, Unspent};
ghost use Rattle.dscript_eval_frames.specs.declared.stop.Stop.TheVariants as stops;

use crate::code::Code;
use crate::frame::Frame;
use crate::status::Status;
use crate::stop::Stop;
use crate::work::Work;
use dscript_eval_meaning::EvalKind;
use dscript_program::Program;
use dscript_sdk::SdkState;
use dscript_value::Value;
use std::alloc::Global;
use std::mem;

/// The machine. The work that is next is the last.
#[derive(Drop)]
pub struct Machine<'a> {
    pub alloc: Global,
    pub program: &'a Program,
    /// The functions of the program, by number.
    pub codes: &'a [Code<'a>],
    pub work: Vec<Work<'a>>,
    pub given: Value,
    /// How many calls may still be opened.
    pub openable: u32,
    pub frame: Frame<'a>,
    pub constants: Vec<Vec<Status>>,
    pub calls: SdkState<'a>,
    pub left: u64,
}

impl<'a> Machine<'a> {
    /// A function of the program, by its number.
    pub fn code(&self, number: u32) -> Option<&'a Code<'a>>
        ensures { MatchOption result
            (function_at (seen self.now).program number ≡ None)
            (λ code. function_at (seen self.now).program number ≡ Some (code_data code.now)) }
    {
        self.codes.get(number as usize)
    }

    /// Does this first.
    pub fn push(&mut self, work: Work<'a>) -> Result<(), Stop>
        ensures { MatchResult result
            (λ _. seen self.new ≡ record (seen self.old) { work = work.entry ∷ (seen self.old).work })
            (λ stop. stop ≡ stops.Memory) }
    {
        self.work.push(work)?;
        Ok(())
    }

    /// Does the first, and then the second.
    pub fn push_two(&mut self, first: Work<'a>, second: Work<'a>) -> Result<(), Stop>
        ensures { MatchResult result
            (λ _. seen self.new
            ≡ record (seen self.old) { work = first.entry ∷ second.entry ∷ (seen self.old).work })
            (λ stop. stop ≡ stops.Memory) }
    {
        match self.push(second) {
            Ok(()) => self.push(first),
            Err(stop) => {
                drop(first);
                Err(stop)
            }
        }
    }

    /// Does the first, the second and the third.
    pub fn push_three(
        &mut self,
        first: Work<'a>,
        second: Work<'a>,
        third: Work<'a>,
    ) -> Result<(), Stop>
        ensures { MatchResult result
            (λ _. seen self.new ≡ record (seen self.old) {
              work = first.entry ∷ second.entry ∷ third.entry ∷ (seen self.old).work;
            })
            (λ stop. stop ≡ stops.Memory) }
    {
        match self.push(third) {
            Ok(()) => self.push_two(first, second),
            Err(stop) => {
                drop(first);
                drop(second);
                Err(stop)
            }
        }
    }

    /// Takes the work that is next, if any is left.
    pub fn next_work(&mut self) -> Option<Work<'a>>
        ensures { MatchOption result
            (((seen self.old).work ≡ []) × (seen self.new ≡ seen self.old))
            (λ work. seen self.old ≡ record (seen self.new) { work = work ∷ (seen self.new).work }) }
    {
        self.work.pop()
    }

    /// Hands a value on.
    pub fn give(&mut self, value: Value)
        ensures { seen self.new ≡ record (seen self.old) { given = plain_of value } }
    {
        drop(mem::replace(&mut self.given, value));
    }

    /// Hands `undefined` on.
    pub fn give_undefined(&mut self)
        ensures { seen self.new ≡ record (seen self.old) { given = plain.Undefined } }
    {
        self.give(Value::Undefined);
    }

    /// The value that was handed on.
    pub fn take(&mut self) -> Value
        ensures value { plain_of result ≡ (seen self.old).given }
        ensures taken { seen self.new ≡ record (seen self.old) { given = plain.Undefined } }
    {
        mem::replace(&mut self.given, Value::Undefined)
    }

    /// A call opens, whose body begins in this frame. The frame from before is handed back.
    pub fn enter(&mut self, frame: Frame<'a>) -> Frame<'a>
        requires { 0 < self.old.openable }
        ensures before { frame_of result ≡ (seen self.old).state.frame }
        ensures entered { seen self.new ≡ record (seen self.old) {
          openable = (seen self.old).openable - 1;
          state = record (seen self.old).state { frame = frame_of frame.entry };
        } }
    {
        self.openable -= 1;
        mem::replace(&mut self.frame, frame)
    }

    /// A call ends, so that one more may be opened.
    pub fn end_call(&mut self) -> Result<(), Stop>
        ensures { MatchResult result
            (λ _. seen self.new ≡ record (seen self.old) { openable = (seen self.old).openable + 1 })
            (λ stop. stop ≡ stops.Memory) }
    {
        if self.openable == u32::MAX {
            return Err(Stop::Memory);
        }
        self.openable += 1;
        Ok(())
    }

    /// The frame from before is back.
    pub fn restore(&mut self, frame: Frame<'a>)
        ensures { seen self.new ≡ record (seen self.old) {
          state = record (seen self.old).state { frame = frame_of frame.entry };
        } }
    {
        drop(mem::replace(&mut self.frame, frame));
    }

    /// A fault in the file of the running body.
    pub fn fault(&self, kind: EvalKind) -> Stop
        ensures { result ≡ stops.Fault kind self.now.frame.file None }
    {
        Stop::Fault(kind, self.frame.file, None)
    }

    /// Spends steps, of which enough must be left.
    pub fn spend(&mut self, steps: u64) -> Result<(), Stop>
        ensures { MatchResult result
            (λ _. Spent steps (seen self.old) (seen self.new))
            (λ stop. Unspent steps (seen self.old) stop) }
    {
        if steps > self.left {
            return Err(self.fault(EvalKind::Budget));
        }
        self.left -= steps;
        Ok(())
    }
}
