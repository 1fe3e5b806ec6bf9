//! The machine that runs a tool.
ghost use Rattle.std.specs.Prelude.{◌≡◌, ◌<◌, ◌≤◌, ◌++◌, ◌^◌, [], IfOk, OnOk, codes, length};
ghost use Rattle.std.specs.Prelude.{if◌then◌else◌, replicate, vec_len};
ghost use Rattle.observed.specs.declared.access.End.TheVariants as ends;
ghost use Rattle.tool_run_writes.specs.Writes.{clashes};
ghost use Rattle.tool_run.specs.declared.effect.Effect.TheVariants as effects;
ghost use Rattle.tool_run.specs.Effects.{effect_for};
ghost use Rattle.tool_run.specs.Values.{value_of};
ghost use Rattle.tool_text.specs.declared.limits.TheConstants.{REGISTERS};
ghost use Rattle.tool_run.specs.declared.limits.TheConstants.{MAX_OUTPUT};

use crate::content::Content;
use crate::effect::Effect;
use crate::limits::{MAX_OUTPUT, MAX_REGISTER};
use bx_digest::Blob;
use bx_tree::Path;
use observed::End;
use std::alloc::{AllocError, Global};
use std::mem;
use tool_run_writes::Writes;
use tool_text::{Operand, REGISTERS, Register};

/// Where a run is: the place of its next instruction, its registers, what it wrote, what it said, and how many
/// bytes these are in all.
#[derive(Drop)]
pub struct State {
    pub place: usize,
    pub registers: Vec<Content>,
    pub writes: Writes,
    pub console: Vec<u8>,
    pub spent: usize,
    ghost sized: { vec_len registers ≡ REGISTERS },
    ghost bounded: { spent ≤ MAX_OUTPUT },
}

// What an instruction comes to that ends the run or goes on.
pub(crate) fn effect_of_end(end: Option<End>) -> Effect
    ensures { (result ≡ effect_for end) }
{
    match end {
        Some(end) => Effect::Stops(end),
        None => Effect::Goes,
    }
}

// As many registers as a tool has, all of them empty.
fn empty_registers(alloc: Global) -> Result<Vec<Content>, AllocError>
    ensures { IfOk result (λ registers. registers.items ≡ replicate REGISTERS []) }
{
    let mut registers = Vec::with_capacity(alloc, REGISTERS)?;
    'registers: while registers.len() < REGISTERS {
        registers.push(Content::empty(alloc))?;
    }
    Ok(registers)
}

// The bytes that an operand stands for.
#[inline(always)]
fn value_of_operand<'a>(registers: &'a [Content], operand: &'a Operand) -> &'a [u8]
    requires { REGISTERS ≤ length registers.now }
    ensures { result.now ≡ value_of registers.entry.now operand.entry.now }
{
    match operand {
        Operand::Register(register) => registers[register.number()].bytes(),
        Operand::Constant(text) => text.bytes(),
    }
}

fn add_line(text: &mut Vec<u8>, line: &[u8]) -> Result<(), AllocError>
    ensures { OnOk result (text.new.items ≡ text.old.items ++ line.now ++ codes "\n") }
{
    text.extend_from_slice(line)?;
    text.push(b'\n')?;
    Ok(())
}

// The bytes that an operand stands for, as the content of a register, which shares them.
pub(crate) fn content_of(
    alloc: Global,
    registers: &mut [Content],
    operand: &Operand,
) -> Result<Content, AllocError>
    requires { REGISTERS ≤ length registers.old }
    ensures content { IfOk result (λ content. content ≡ value_of registers.old operand.now) }
    ensures same { OnOk result (registers.new ≡ registers.old) }
{
    match operand {
        Operand::Register(register) => registers[register.number()].share(alloc),
        Operand::Constant(text) => Ok(Content::of_text(text.share()?)),
    }
}

impl State {
    ghost use Rattle.tool_run.specs.Machine.{effect_of, fitting, fitting_two, said, start, written};
    ghost use Rattle.tool_run.specs.States.{machine_of};
    ghost use Rattle.tool_run.specs.Instructions.{value as value_in};

    pub(crate) fn start(alloc: Global) -> Result<State, AllocError>
        ensures { IfOk result (λ state. machine_of state ≡ start) }
    {
        Ok(State {
            place: 0,
            registers: empty_registers(alloc)?,
            writes: Writes::new(alloc),
            console: Vec::new(alloc),
            spent: 0,
        })
    }

    // The bytes that an operand stands for.
    #[inline(always)]
    pub(crate) fn value<'a>(&'a self, operand: &'a Operand) -> &'a [u8]
        ensures { result.now ≡ value_in (machine_of self.entry.now) operand.entry.now }
    {
        value_of_operand(&self.registers, operand)
    }

    // What an operand stands for, as the bytes of a file.
    pub(crate) fn blob(&self, alloc: Global, operand: &Operand) -> Result<Blob, AllocError>
        ensures { IfOk result (λ blob. blob ≡ value_in (machine_of self.now) operand.now) }
    {
        match operand {
            Operand::Register(register) => self.registers[register.number()].blob(alloc),
            Operand::Constant(text) => Blob::new(alloc, Vec::from_slice(alloc, text.bytes())?),
        }
    }

    // A register becomes these bytes, if they fit.
    pub(crate) fn fit(&mut self, register: Register, content: Content) -> Option<End>
        requires { self.old.place < 2 ^ 63 }
        ensures { (machine_of self.new, result) ≡ fitting (machine_of self.old) register content }
    {
        if content.bytes().len() > MAX_REGISTER {
            return Some(End::TooLong);
        }
        self.registers[register.number()] = content;
        self.place += 1;
        None
    }

    // Two registers become these bytes, the second after the first, if both fit.
    pub(crate) fn fit_two(
        &mut self,
        first: Register,
        second: Register,
        before: Content,
        after: Content,
    ) -> Option<End>
        requires { self.old.place < 2 ^ 63 }
        ensures { (machine_of self.new, result)
            ≡ fitting_two (machine_of self.old) first second before after }
    {
        if before.bytes().len() > MAX_REGISTER || after.bytes().len() > MAX_REGISTER {
            return Some(End::TooLong);
        }
        self.registers[first.number()] = before;
        self.registers[second.number()] = after;
        self.place += 1;
        None
    }

    // A copy of these bytes becomes a register, if they fit.
    pub(crate) fn copy(
        &mut self,
        alloc: Global,
        register: Register,
        bytes: &[u8],
    ) -> Result<Effect, AllocError>
        requires { self.old.place < 2 ^ 63 }
        ensures { IfOk result (λ effect.
            (machine_of self.new, effect) ≡ effect_of (fitting (machine_of self.old) register bytes.now)) }
    {
        let content = Content::of(Vec::from_slice(alloc, bytes)?);
        Ok(effect_of_end(self.fit(register, content)))
    }

    // A value and a newline are said, if they fit.
    pub(crate) fn say(&mut self, x: &Operand) -> Result<Effect, AllocError>
        requires { self.old.place < 2 ^ 63 }
        ensures { IfOk result (λ effect.
            (machine_of self.new, effect)
            ≡ said (machine_of self.old) (value_in (machine_of self.old) x.now)) }
    {
        let bytes = value_of_operand(&self.registers, x);
        let length = bytes.len();
        if length >= MAX_OUTPUT - self.spent {
            return Ok(Effect::Stops(End::TooLong));
        }
        add_line(&mut self.console, bytes)?;
        self.spent += length + 1;
        self.place += 1;
        Ok(Effect::Goes)
    }

    // How a write ends that does not fit: a path that clashes with a file counts first.
    fn end_of_excess(&self, alloc: Global, path: &Path) -> Result<End, AllocError>
        ensures { IfOk result (λ end.
            end ≡ (if clashes self.now.writes path.now then ends.NotADirectory else ends.TooLong)) }
    {
        if self.writes.clashes(alloc, path)? {
            return Ok(End::NotADirectory);
        }
        Ok(End::TooLong)
    }

    // A file is written, if its path clashes with no file and it fits.
    pub(crate) fn write(
        &mut self,
        alloc: Global,
        path: Path,
        blob: Blob,
    ) -> Result<Effect, AllocError>
        requires { self.old.place < 2 ^ 63 }
        ensures { IfOk result (λ effect.
            (machine_of self.new, effect)
            ≡ (if clashes self.old.writes path then (machine_of self.old, effects.Stops ends.NotADirectory)
            else written (machine_of self.old) path blob)) }
    {
        let length = blob.bytes().len();
        if length > MAX_OUTPUT - self.spent {
            return Ok(Effect::Stops(self.end_of_excess(alloc, &path)?));
        }
        let writes = mem::replace(&mut self.writes, Writes::new(alloc));
        let (writes, is_written) = writes.put(alloc, path.share()?, blob)?;
        self.writes = writes;
        if !is_written {
            return Ok(Effect::Stops(End::NotADirectory));
        }
        self.spent += length;
        self.place += 1;
        Ok(Effect::Wrote(path))
    }
}
