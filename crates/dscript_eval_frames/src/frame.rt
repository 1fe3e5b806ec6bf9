//! The frame of the running body.
ghost use Rattle.std.specs.Prelude.{◌≡◌, ◌<◌, ◌≤◌, [], length, map, slice_set};
ghost use Rattle.std.specs.Prelude.{Some, None, IfOk, OnErr, OnOk};
ghost use Rattle.dscript_value.specs.Plain.{plain_of};
ghost use Rattle.dscript_eval_meaning.specs.Frames.{constant_frame, function_frame, local_value, with_local};
ghost use Rattle.dscript_eval_frames.specs.Codes.{code_data};
ghost use Rattle.dscript_eval_frames.specs.Frames.{frame_of, held_by};

use crate::code::Code;
use crate::own::{own_arguments, put_after, put_at, put_far, value_in};
use bx_tree::Memory;
use dscript_value::{FunctionRef, Value};
use std::alloc::Global;
use std::collections::BTreeMap;

/// The running body: its file, its code, which tells the locals that it captured, the function that holds their
/// values, and its own locals from the first one on. A constant has no code, no function and no locals.
#[derive(Drop)]
pub struct Frame<'a> {
    pub file: u32,
    pub code: Option<&'a Code<'a>>,
    pub function: Option<FunctionRef>,
    pub first: u32,
    /// How many own locals the body has.
    pub count: u32,
    /// Own locals from the first one on, as far as the list goes.
    pub own: Vec<Value>,
    /// Own locals that were bound far beyond the end of the list, by place.
    pub far: BTreeMap<usize, Value>,
    /// How many places before a local that is bound further on may still be filled.
    pub spare: usize,
}

// How many places a frame may fill before locals that are bound beyond the end of its list, and how many more
// each time that it keeps such a local by its place.
const SPARE: usize = 64;

const MORE_SPARE: usize = 16;

// The values that a function holds.
fn held_values(function: &Option<FunctionRef>) -> &[Value]
    ensures { map plain_of result.now ≡ held_by function.now }
{
    match function {
        Some(function) => function.held(),
        None => &[],
    }
}

impl<'a> Frame<'a> {
    /// The frame of a constant of a file.
    pub fn of_constant(alloc: Global, file: u32) -> Frame<'a>
        ensures { frame_of result ≡ constant_frame file }
    {
        Frame {
            file,
            code: None,
            function: None,
            first: 0,
            count: 0,
            own: Vec::new(alloc),
            far: BTreeMap::new(alloc),
            spare: SPARE,
        }
    }

    /// The frame in which a function begins that is called with these arguments.
    pub fn of_function(
        alloc: Global,
        code: &'a Code<'a>,
        held: Option<FunctionRef>,
        args: &[Value],
    ) -> Result<Frame<'a>, Memory>
        ensures { IfOk result (λ frame. frame_of frame
            ≡ function_frame (code_data code.now) (held_by held) (map plain_of args.now)) }
    {
        let function = code.function;
        let own = own_arguments(alloc, args, function.params.len(), function.local_count)?;
        Ok(Frame {
            file: function.file,
            code: Some(code),
            function: held,
            first: function.first_local,
            count: function.local_count,
            own,
            far: BTreeMap::new(alloc),
            spare: SPARE,
        })
    }

    /// What a local holds.
    pub fn local(&self, local: u32) -> Result<Value, Memory>
        ensures { IfOk result (λ value. plain_of value ≡ local_value (frame_of self.now) local) }
    {
        if local < self.first {
            match self.code {
                Some(code) => code.value(held_values(&self.function), local),
                None => Ok(Value::Undefined),
            }
        } else {
            let place = (local - self.first) as usize;
            value_in(self.own.as_slice(), &self.far, self.count, place)
        }
    }

    /// What these locals hold.
    pub fn locals(&self, alloc: Global, locals: &[u32]) -> Result<Vec<Value>, Memory>
        ensures { IfOk result (λ values. map plain_of values.items
            ≡ map (λ n. local_value (frame_of self.now) n) locals.now) }
    {
        let mut values = Vec::new(alloc);
        'locals: for local in locals {
            values.push(self.local(*local)?)?;
        }
        Ok(values)
    }

    // A local that is beyond the end of the list holds a value from now on.
    fn bind_further(&mut self, place: usize, value: Value) -> Result<(), Memory>
        requires { (length self.old.own.items ≤ place) × (place < self.old.count) }
        ensures bound { OnOk result (frame_of self.new ≡ record (frame_of self.old) {
          own = slice_set (frame_of self.old).own place (plain_of value);
        }) }
        ensures none { OnErr result (frame_of self.new ≡ frame_of self.old) }
    {
        let missing = place - self.own.len();
        if missing > self.spare {
            self.spare = self.spare.saturating_add(MORE_SPARE);
            put_far(&mut self.far, place, value)
        } else {
            self.spare -= missing;
            put_after(&mut self.own, &self.far, missing, value)
        }
    }

    /// A local of the body holds a value from now on. Nothing changes where memory is lacking.
    pub fn bind(&mut self, local: u32, value: Value) -> Result<(), Memory>
        ensures bound { IfOk result (λ _. frame_of self.new
            ≡ with_local local (plain_of value) (frame_of self.old)) }
        ensures none { OnErr result (frame_of self.new ≡ frame_of self.old) }
    {
        let place = local.saturating_sub(self.first) as usize;
        if place < self.own.len() {
            put_at(&mut self.own, place, value);
            Ok(())
        } else if place < self.count as usize {
            self.bind_further(place, value)
        } else {
            drop(value);
            Ok(())
        }
    }
}
