//! What the instructions on values do.
ghost use Rattle.std.specs.Prelude.{◌≡◌, ◌≢◌, ◌↔◌, ◌<◌, ◌++◌, ◌^◌, [], IfOk, IsTrue, false, take, drop};
ghost use Rattle.std.specs.Prelude.{slice_index_or};
ghost use Rattle.std.specs.Fmt.{decimal as decimal_text};
ghost use Rattle.tool_run.specs.declared.effect.Effect.TheVariants as effects;
ghost use Rattle.tool_run.specs.States.{machine_of};

use crate::content::Content;
use crate::effect::Effect;
use crate::limits::MAX_REGISTER;
use crate::state::{State, content_of, effect_of_end};
use crate::values::head;
use observed::End;
use std::alloc::{AllocError, Global};
use std::mem;
use tool_text::{Operand, Register};

// The digits of a number.
fn decimal(alloc: Global, number: usize) -> Result<Vec<u8>, AllocError>
    ensures { IfOk result (λ text. text.items ≡ decimal_text number) }
{
    let text = format!(in alloc; "{number}")?;
    Vec::from_slice(alloc, text.as_bytes())
}

// Whether an operand is the content of a register.
#[inline(always)]
fn is_register(operand: &Operand, register: Register) -> bool
    ensures { IsTrue result ↔ operand.now ≡ Operand.Register register }
{
    match operand {
        Operand::Register(other) => other.number() == register.number(),
        Operand::Constant(_) => false,
    }
}

impl State {
    ghost use Rattle.tool_run.specs.Machine.{effect_of, fitting, fitting_two};
    ghost use Rattle.tool_run.specs.Instructions.{value as value_in};
    ghost use Rattle.tool_run.specs.Values.{split_parts};

    // A register becomes a number's digits.
    pub(crate) fn set_number(
        &mut self,
        alloc: Global,
        register: Register,
        number: usize,
    ) -> Result<Effect, AllocError>
        requires { self.old.place < 2 ^ 63 }
        ensures { IfOk result (λ effect.
            (machine_of self.new, effect)
            ≡ effect_of (fitting (machine_of self.old) register (decimal_text number))) }
    {
        let content = Content::of(decimal(alloc, number)?);
        Ok(effect_of_end(self.fit(register, content)))
    }

    // A register becomes a value.
    pub(crate) fn set(
        &mut self,
        alloc: Global,
        register: Register,
        x: &Operand,
    ) -> Result<Effect, AllocError>
        requires { self.old.place < 2 ^ 63 }
        ensures { IfOk result (λ effect.
            (machine_of self.new, effect)
            ≡ effect_of (fitting (machine_of self.old) register (value_in (machine_of self.old) x.now))) }
    {
        let content = content_of(alloc, &mut self.registers, x)?;
        Ok(effect_of_end(self.fit(register, content)))
    }

    // Adds bytes at a register's end, in place, if they fit.
    #[inline(always)]
    fn add(&mut self, alloc: Global, register: Register, more: &[u8]) -> Result<bool, AllocError>
        requires { self.old.place < 2 ^ 63 }
        ensures added { IfOk result (λ fits. IsTrue fits →
            (machine_of self.new, effects.Goes)
            ≡ effect_of (fitting (machine_of self.old) register
            (slice_index_or self.old.registers.items register [] ++ more.now))) }
        ensures stays { IfOk result (λ fits. fits ≡ false → machine_of self.new ≡ machine_of self.old) }
    {
        let number = register.number();
        let length = self.registers[number].bytes().len() + more.len();
        if length > MAX_REGISTER {
            return Ok(false);
        }
        self.registers[number].add(alloc, more)?;
        self.place += 1;
        Ok(true)
    }

    // Adds a constant at a register's end, in place, if that is what is joined and it fits.
    #[inline(always)]
    pub(crate) fn add_constant(
        &mut self,
        alloc: Global,
        register: Register,
        x: &Operand,
        y: &Operand,
    ) -> Result<bool, AllocError>
        requires { self.old.place < 2 ^ 63 }
        ensures added { IfOk result (λ fits. IsTrue fits →
            (machine_of self.new, effects.Goes)
            ≡ effect_of (fitting (machine_of self.old) register
            (value_in (machine_of self.old) x.now ++ value_in (machine_of self.old) y.now))) }
        ensures stays { IfOk result (λ fits. fits ≡ false → machine_of self.new ≡ machine_of self.old) }
    {
        match y {
            Operand::Constant(text) if is_register(x, register) => {
                self.add(alloc, register, text.bytes())
            }
            _ => Ok(false),
        }
    }

    // A register becomes its bytes with those of another operand after them, in place.
    fn append(
        &mut self,
        alloc: Global,
        register: Register,
        y: &Operand,
    ) -> Result<Effect, AllocError>
        requires place { self.old.place < 2 ^ 63 }
        requires other { y.now ≢ Operand.Register register }
        ensures { IfOk result (λ effect.
            (machine_of self.new, effect)
            ≡ effect_of (fitting (machine_of self.old) register
            (slice_index_or self.old.registers.items register [] ++ value_in (machine_of self.old) y.now))) }
    {
        let number = register.number();
        let length = self.registers[number].bytes().len() + self.value(y).len();
        if length > MAX_REGISTER {
            return Ok(Effect::Stops(End::TooLong));
        }
        let mut content = mem::replace(&mut self.registers[number], Content::empty(alloc));
        content.add(alloc, self.value(y))?;
        self.registers[number] = content;
        self.place += 1;
        Ok(Effect::Goes)
    }

    // A register becomes one value after another.
    pub(crate) fn join(
        &mut self,
        alloc: Global,
        register: Register,
        x: &Operand,
        y: &Operand,
    ) -> Result<Effect, AllocError>
        requires { self.old.place < 2 ^ 63 }
        ensures { IfOk result (λ effect.
            (machine_of self.new, effect)
            ≡ effect_of (fitting (machine_of self.old) register
            (value_in (machine_of self.old) x.now ++ value_in (machine_of self.old) y.now))) }
    {
        if is_register(x, register) && !is_register(y, register) {
            return self.append(alloc, register, y);
        }
        let content = Content::of_both(alloc, self.value(x), self.value(y))?;
        Ok(effect_of_end(self.fit(register, content)))
    }

    // A register becomes the first bytes of a value, or all.
    pub(crate) fn set_head(
        &mut self,
        alloc: Global,
        register: Register,
        x: &Operand,
        count: usize,
    ) -> Result<Effect, AllocError>
        requires { self.old.place < 2 ^ 63 }
        ensures { IfOk result (λ effect.
            (machine_of self.new, effect)
            ≡ effect_of (fitting (machine_of self.old) register
            (take count (value_in (machine_of self.old) x.now)))) }
    {
        let content = Content::of(Vec::from_slice(alloc, head(self.value(x), count))?);
        Ok(effect_of_end(self.fit(register, content)))
    }

    // A register becomes a value without its first bytes.
    pub(crate) fn set_tail(
        &mut self,
        alloc: Global,
        register: Register,
        x: &Operand,
        count: usize,
    ) -> Result<Effect, AllocError>
        requires { self.old.place < 2 ^ 63 }
        ensures { IfOk result (λ effect.
            (machine_of self.new, effect)
            ≡ effect_of (fitting (machine_of self.old) register
            (drop count (value_in (machine_of self.old) x.now)))) }
    {
        let content = content_of(alloc, &mut self.registers, x)?;
        let rest = content.without(alloc, count)?;
        Ok(effect_of_end(self.fit(register, rest)))
    }

    // Two registers become what precedes a value in another, and what follows it there.
    #[inline(never)]
    pub(crate) fn cut(
        &mut self,
        alloc: Global,
        registers: (Register, Register),
        x: &Operand,
        y: &Operand,
    ) -> Result<Effect, AllocError>
        requires { self.old.place < 2 ^ 63 }
        ensures { IfOk result (λ effect.
            (machine_of self.new, effect)
            ≡ effect_of (fitting_two (machine_of self.old) registers.0 registers.1
            (split_parts (value_in (machine_of self.old) y.now) (value_in (machine_of self.old) x.now)).0
            (split_parts (value_in (machine_of self.old) y.now) (value_in (machine_of self.old) x.now)).1)) }
    {
        let whole = content_of(alloc, &mut self.registers, x)?;
        let (before, after) = whole.cut(alloc, self.value(y))?;
        Ok(effect_of_end(self.fit_two(registers.0, registers.1, before, after)))
    }
}
