//! What the instructions do that take a number, an argument or a variable.
ghost use Rattle.std.specs.Prelude.{◌≡◌, ◌<◌, ◌^◌, IfOk, length, take, drop, slice_get, if◌then◌else◌};
ghost use Rattle.std.specs.Option.{option_copied};
ghost use Rattle.std.specs.Fmt.{decimal};
ghost use Rattle.std.specs.Str.{bytes_eq};
ghost use Rattle.tool_run.specs.declared.effect.Effect.TheVariants as effects;
ghost use Rattle.tool_run.specs.Values.{variables};
ghost use Rattle.tool_run.specs.States.{machine_of};

use crate::effect::Effect;
use crate::state::State;
use crate::values::{number_of, variable};
use bx_tree::Text;
use observed::End;
use pip_model_types::EnvPair;
use std::alloc::{AllocError, Global};
use tool_text::{Operand, Register};

// The bytes of an argument.
fn argument(arguments: &[Text], number: usize) -> Option<&[u8]>
    ensures { option_copied result ≡ slice_get arguments.entry.now number }
{
    match arguments.get(number) {
        Some(text) => Some(text.bytes()),
        None => None,
    }
}

impl State {
    ghost use Rattle.tool_run.specs.Machine.{at_place, effect_of, fitting, next};
    ghost use Rattle.tool_run.specs.Instructions.{or_jump as jumps_or_sets, value as value_in, with_number};
    ghost use Rattle.tool_run.specs.Values.{number_of as number_in, variable as variable_in};

    pub(crate) fn head(
        &mut self,
        alloc: Global,
        register: Register,
        x: &Operand,
        n: &Operand,
    ) -> Result<Effect, AllocError>
        requires { self.old.place < 2 ^ 63 }
        ensures { IfOk result (λ effect.
            (machine_of self.new, effect)
            ≡ with_number (machine_of self.old) (number_in (value_in (machine_of self.old) n.now))
            (λ k. effect_of (fitting (machine_of self.old) register
            (take k (value_in (machine_of self.old) x.now))))) }
    {
        match number_of(self.value(n)) {
            Some(count) => self.set_head(alloc, register, x, count),
            None => Ok(Effect::Stops(End::BadProgram)),
        }
    }

    pub(crate) fn tail(
        &mut self,
        alloc: Global,
        register: Register,
        x: &Operand,
        n: &Operand,
    ) -> Result<Effect, AllocError>
        requires { self.old.place < 2 ^ 63 }
        ensures { IfOk result (λ effect.
            (machine_of self.new, effect)
            ≡ with_number (machine_of self.old) (number_in (value_in (machine_of self.old) n.now))
            (λ k. effect_of (fitting (machine_of self.old) register
            (drop k (value_in (machine_of self.old) x.now))))) }
    {
        match number_of(self.value(n)) {
            Some(count) => self.set_tail(alloc, register, x, count),
            None => Ok(Effect::Stops(End::BadProgram)),
        }
    }

    // A register becomes these bytes, or the run jumps where there are none.
    fn set_or_jump(
        &mut self,
        alloc: Global,
        register: Register,
        label: usize,
        bytes: Option<&[u8]>,
    ) -> Result<Effect, AllocError>
        requires { self.old.place < 2 ^ 63 }
        ensures { IfOk result (λ effect.
            (machine_of self.new, effect)
            ≡ jumps_or_sets (machine_of self.old) register label (option_copied bytes.entry)) }
    {
        match bytes {
            Some(bytes) => self.copy(alloc, register, bytes),
            None => {
                self.place = label;
                Ok(Effect::Goes)
            }
        }
    }

    pub(crate) fn set_argument(
        &mut self,
        alloc: Global,
        arguments: &[Text],
        register: Register,
        n: &Operand,
        label: usize,
    ) -> Result<Effect, AllocError>
        requires { self.old.place < 2 ^ 63 }
        ensures { IfOk result (λ effect.
            (machine_of self.new, effect)
            ≡ with_number (machine_of self.old) (number_in (value_in (machine_of self.old) n.now))
            (λ k. jumps_or_sets (machine_of self.old) register label (slice_get arguments.now k))) }
    {
        match number_of(self.value(n)) {
            Some(number) => self.set_or_jump(alloc, register, label, argument(arguments, number)),
            None => Ok(Effect::Stops(End::BadProgram)),
        }
    }

    pub(crate) fn set_variable(
        &mut self,
        alloc: Global,
        pairs: &[EnvPair],
        register: Register,
        x: &Operand,
        label: usize,
    ) -> Result<Effect, AllocError>
        requires { self.old.place < 2 ^ 63 }
        ensures { IfOk result (λ effect.
            (machine_of self.new, effect)
            ≡ jumps_or_sets (machine_of self.old) register label
            (variable_in (variables pairs.now) (value_in (machine_of self.old) x.now))) }
    {
        let found = variable(pairs, self.value(x));
        self.set_or_jump(alloc, register, label, found)
    }

    #[inline(always)]
    fn are_equal(&self, x: &Operand, y: &Operand) -> bool
        ensures { result
            ≡ bytes_eq (value_in (machine_of self.now) x.now) (value_in (machine_of self.now) y.now) }
    {
        let x = self.value(x);
        let y = self.value(y);
        x.len() == y.len() && x == y
    }

    #[inline(always)]
    pub(crate) fn jump_if_equal(&mut self, x: &Operand, y: &Operand, label: usize) -> Effect
        requires { self.old.place < 2 ^ 63 }
        ensures machine { machine_of self.new
            ≡ (if bytes_eq (value_in (machine_of self.old) x.now) (value_in (machine_of self.old) y.now)
            then at_place (machine_of self.old) label else next (machine_of self.old)) }
        ensures goes { result ≡ effects.Goes }
    {
        if self.are_equal(x, y) {
            self.place = label;
        } else {
            self.place += 1;
        }
        Effect::Goes
    }

    pub(crate) fn jump(&mut self, label: usize) -> Effect
        ensures machine { machine_of self.new ≡ at_place (machine_of self.old) label }
        ensures goes { result ≡ effects.Goes }
    {
        self.place = label;
        Effect::Goes
    }

    pub(crate) fn set_length(
        &mut self,
        alloc: Global,
        register: Register,
        x: &Operand,
    ) -> Result<Effect, AllocError>
        requires { self.old.place < 2 ^ 63 }
        ensures { IfOk result (λ effect.
            (machine_of self.new, effect)
            ≡ effect_of (fitting (machine_of self.old) register
            (decimal (length (value_in (machine_of self.old) x.now))))) }
    {
        let length = self.value(x).len();
        self.set_number(alloc, register, length)
    }
}
