//! The instructions that look at paths or write, and what an answer does to the machine.
ghost use Rattle.std.specs.Prelude.{◌≡◌, ◌<◌, ◌^◌, [], IfOk};
ghost use Rattle.tool_run.specs.Described.{described};
ghost use Rattle.tool_run.specs.Description.{resolved as resolved_path};
ghost use Rattle.tool_run.specs.States.{machine_of};

use crate::content::Content;
use crate::effect::Effect;
use crate::listing::with_own_names;
use crate::paths::{permits, resolved};
use crate::state::{State, effect_of_end};
use bx_digest::Blob;
use observed::{Answer, Ask, AskKind, End, Pattern};
use pip_model_types::Desc;
use std::alloc::{AllocError, Global};
use tool_text::{Instr, Operand, Register};

// A listing without names.
fn no_names(alloc: Global) -> Result<Blob, AllocError>
    ensures { IfOk result (λ names. names ≡ []) }
{
    Blob::new(alloc, Vec::new(alloc))
}

impl State {
    ghost use Rattle.tool_run.specs.Instructions.{list_with, looks, looks_by, probe_with, read_with};
    ghost use Rattle.tool_run.specs.Instructions.{value as value_in};
    ghost use Rattle.tool_run.specs.Instructions.{with_answer, writes_at};

    // A read is answered.
    pub(crate) fn take_read(
        &mut self,
        register: Register,
        label: usize,
        answer: &Answer,
    ) -> Result<Option<End>, AllocError>
        requires { self.old.place < 2 ^ 63 }
        ensures { IfOk result (λ end.
            (machine_of self.new, end) ≡ read_with (machine_of self.old) register label answer.now) }
    {
        match answer {
            Answer::Content(blob) => Ok(self.fit(register, Content::of_file(blob.share()?))),
            Answer::Denied => Ok(Some(End::Denied)),
            Answer::Absent | Answer::File | Answer::Directory | Answer::Names(_) => {
                self.place = label;
                Ok(None)
            }
        }
    }

    fn take_probe(
        &mut self,
        alloc: Global,
        register: Register,
        answer: &Answer,
    ) -> Result<Option<End>, AllocError>
        requires { self.old.place < 2 ^ 63 }
        ensures { IfOk result (λ end.
            (machine_of self.new, end) ≡ probe_with (machine_of self.old) register answer.now) }
    {
        let word = match answer {
            Answer::Content(_) | Answer::File => "file",
            Answer::Directory => "directory",
            Answer::Absent | Answer::Names(_) => "absent",
            Answer::Denied => return Ok(Some(End::Denied)),
        };
        let content = Content::of(Vec::from_slice(alloc, word.as_bytes())?);
        Ok(self.fit(register, content))
    }

    fn take_list(
        &mut self,
        alloc: Global,
        register: Register,
        ask: &Ask,
        answer: &Answer,
    ) -> Result<Option<End>, AllocError>
        requires { self.old.place < 2 ^ 63 }
        ensures { IfOk result (λ end.
            (machine_of self.new, end) ≡ list_with (machine_of self.old) register ask.now answer.now) }
    {
        let content = match answer {
            Answer::Names(names) => with_own_names(alloc, &self.writes, ask, names)?,
            Answer::Content(_)
            | Answer::Denied
            | Answer::Absent
            | Answer::File
            | Answer::Directory => with_own_names(alloc, &self.writes, ask, &no_names(alloc)?)?,
        };
        Ok(self.fit(register, content))
    }

    // An instruction that looked at a path gets its answer.
    pub(crate) fn take_answer(
        &mut self,
        alloc: Global,
        instr: &Instr,
        ask: &Ask,
        answer: &Answer,
    ) -> Result<Option<End>, AllocError>
        requires { self.old.place < 2 ^ 63 }
        ensures { IfOk result (λ end.
            (machine_of self.new, end) ≡ with_answer (machine_of self.old) instr.now ask.now answer.now) }
    {
        match instr {
            Instr::Read(register, _, label) => self.take_read(*register, *label, answer),
            Instr::Probe(register, _) => self.take_probe(alloc, *register, answer),
            Instr::List(register, _) | Instr::Match(register, _, _) => {
                self.take_list(alloc, *register, ask, answer)
            }
            Instr::Set(_, _)
            | Instr::Cat(_, _, _)
            | Instr::Len(_, _)
            | Instr::Head(_, _, _)
            | Instr::Tail(_, _, _)
            | Instr::Split(_, _, _, _)
            | Instr::Arg(_, _, _)
            | Instr::Args(_)
            | Instr::Env(_, _, _)
            | Instr::Eq(_, _, _)
            | Instr::Jump(_)
            | Instr::Exit(_)
            | Instr::Say(_)
            | Instr::Write(_, _) => Ok(None),
        }
    }

    // An instruction looks at a path: own writes answer, or the ask is put.
    #[inline(never)]
    pub(crate) fn look(
        &mut self,
        alloc: Global,
        desc: &Desc,
        instr: &Instr,
        kind: AskKind,
        x: &Operand,
    ) -> Result<Effect, AllocError>
        requires { self.old.place < 2 ^ 63 }
        ensures { IfOk result (λ effect.
            (machine_of self.new, effect)
            ≡ looks (machine_of self.old) instr.now kind
            (resolved_path (described desc.now).dir (value_in (machine_of self.old) x.now))) }
    {
        let Some(path) = resolved(alloc, &desc.process.dir, self.value(x))? else {
            return Ok(Effect::Stops(End::BadPath));
        };
        let ask = Ask { kind, path };
        let Some(answer) = self.writes.answer(alloc, &ask)? else {
            return Ok(Effect::Asks(ask));
        };
        let end = self.take_answer(alloc, instr, &ask, &answer)?;
        Ok(effect_of_end(end))
    }

    // An instruction looks at a path for the names that a pattern matches.
    #[inline(never)]
    pub(crate) fn look_by(
        &mut self,
        alloc: Global,
        desc: &Desc,
        instr: &Instr,
        x: &Operand,
        y: &Operand,
    ) -> Result<Effect, AllocError>
        requires { self.old.place < 2 ^ 63 }
        ensures { IfOk result (λ effect.
            (machine_of self.new, effect)
            ≡ looks_by (machine_of self.old) instr.now (value_in (machine_of self.old) y.now)
            (resolved_path (described desc.now).dir (value_in (machine_of self.old) x.now))) }
    {
        let Some(pattern) = Pattern::of(alloc, self.value(y))? else {
            return Ok(Effect::Stops(End::BadProgram));
        };
        self.look(alloc, desc, instr, AskKind::Match(pattern), x)
    }

    // A file is written, where its path and its size may be.
    #[inline(never)]
    pub(crate) fn write_value(
        &mut self,
        alloc: Global,
        desc: &Desc,
        x: &Operand,
        y: &Operand,
    ) -> Result<Effect, AllocError>
        requires { self.old.place < 2 ^ 63 }
        ensures { IfOk result (λ effect.
            (machine_of self.new, effect)
            ≡ writes_at (described desc.now) (machine_of self.old) (value_in (machine_of self.old) y.now)
            (resolved_path (described desc.now).dir (value_in (machine_of self.old) x.now))) }
    {
        let Some(path) = resolved(alloc, &desc.process.dir, self.value(x))? else {
            return Ok(Effect::Stops(End::BadPath));
        };
        if !permits(desc, &path) {
            return Ok(Effect::Refused(path));
        }
        let blob = self.blob(alloc, y)?;
        self.write(alloc, path, blob)
    }
}
