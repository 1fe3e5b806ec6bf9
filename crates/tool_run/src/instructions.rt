//! What each instruction does, up to an ask.
ghost use Rattle.std.specs.Prelude.{◌≡◌, ◌<◌, ◌^◌, IfOk, IsTrue, false};
ghost use Rattle.tool_run.specs.declared.effect.Effect.TheVariants as effects;
ghost use Rattle.tool_run.specs.Described.{described};
ghost use Rattle.tool_run.specs.Description.{Description};
ghost use Rattle.tool_run.specs.States.{machine_of};

use crate::effect::Effect;
use crate::state::State;
use observed::{AskKind, End};
use pip_model_types::Desc;
use std::alloc::{AllocError, Global};
use tool_text::Instr;

impl State {
    ghost use Rattle.tool_run.specs.Instructions.{act as act_of};

    // Takes an instruction if it leads to a place, or adds a constant at a register's end.
    #[inline(always)]
    pub(crate) fn go(&mut self, alloc: Global, instr: &Instr) -> Result<bool, AllocError>
        requires { self.old.place < 2 ^ 63 }
        ensures goes { IfOk result (λ taken. IsTrue taken → (d : Description)
            → (machine_of self.new, effects.Goes) ≡ act_of d (machine_of self.old) instr.now) }
        ensures stays { IfOk result (λ taken. taken ≡ false → machine_of self.new ≡ machine_of self.old) }
    {
        match instr {
            Instr::Eq(x, y, label) => {
                self.jump_if_equal(x, y, *label);
                Ok(true)
            }
            Instr::Jump(label) => {
                self.jump(*label);
                Ok(true)
            }
            Instr::Cat(register, x, y) => self.add_constant(alloc, *register, x, y),
            _ => Ok(false),
        }
    }

    // Takes an instruction, up to an ask.
    pub(crate) fn act(
        &mut self,
        alloc: Global,
        desc: &Desc,
        instr: &Instr,
    ) -> Result<Effect, AllocError>
        requires { self.old.place < 2 ^ 63 }
        ensures { IfOk result (λ effect.
            (machine_of self.new, effect) ≡ act_of (described desc.now) (machine_of self.old) instr.now) }
    {
        match instr {
            Instr::Set(r, x) => self.set(alloc, *r, x),
            Instr::Cat(r, x, y) => self.join(alloc, *r, x, y),
            Instr::Len(r, x) => self.set_length(alloc, *r, x),
            Instr::Head(r, x, n) => self.head(alloc, *r, x, n),
            Instr::Tail(r, x, n) => self.tail(alloc, *r, x, n),
            Instr::Split(r, s, x, y) => self.cut(alloc, (*r, *s), x, y),
            Instr::Arg(r, n, label) => {
                self.set_argument(alloc, desc.process.args.texts(), *r, n, *label)
            }
            Instr::Args(r) => self.set_number(alloc, *r, desc.process.args.texts().len()),
            Instr::Env(r, x, label) => {
                self.set_variable(alloc, desc.process.env.pairs(), *r, x, *label)
            }
            Instr::Eq(x, y, label) => Ok(self.jump_if_equal(x, y, *label)),
            Instr::Jump(label) => Ok(self.jump(*label)),
            Instr::Exit(code) => Ok(Effect::Stops(End::Exit(*code))),
            Instr::Say(x) => self.say(x),
            Instr::Read(_, x, _) => self.look(alloc, desc, instr, AskKind::Read, x),
            Instr::Probe(_, x) => self.look(alloc, desc, instr, AskKind::Probe, x),
            Instr::List(_, x) => self.look(alloc, desc, instr, AskKind::List, x),
            Instr::Match(_, x, y) => self.look_by(alloc, desc, instr, x, y),
            Instr::Write(x, y) => self.write_value(alloc, desc, x, y),
        }
    }
}
