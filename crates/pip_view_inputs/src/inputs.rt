//! What the pips made for which a pip waits.
ghost use Rattle.std.specs.Prelude.{◌≡◌, ◌≢◌, ◌<◌, ◌≤◌, ◌++◌, ◌∷◌, [], All, IfOk, MatchOption, OnErr, OnOk, length, map};
ghost use Rattle.std.specs.List.{HoldsAt};
ghost use Rattle.std.specs.Option.{option_map_or};
ghost use Rattle.std.specs.List.Sorted.{IsStrictlyIncreasing};
ghost use Rattle.violations.specs.Slots.{slot_files};
ghost use Rattle.pip_view_inputs.specs.Results.{files_by, inputs_at};
ghost use Rattle.pip_view_inputs.specs.Views.{input_by, made_pair};

use crate::making::no_files;
use bx_tree::Memory;
use pip_model::{Made, Plan, Slot};
use std::alloc::Global;
use std::marker::Model;

// The files that one pip made.
#[derive(Drop)]
struct MadeBy {
    pip: u32,
    files: Made,
}

/// What the pips made for which a pip waits. Contracts see a list of pairs of a pip's number and the files
/// that it made, in which the numbers rise.
#[derive(Drop)]
pub struct Inputs {
    made: Vec<MadeBy>,
}

impl Model for Inputs {
    ghost use Rattle.std.specs.Prelude.{ℕ, List, map};
    ghost use Rattle.std.specs.List.Sorted.{IsStrictlyIncreasing};
    ghost use Rattle.bx_tree.specs.Trees.{Files};
    ghost use Rattle.pip_view_inputs.specs.Views.{made_pair};

    ghost Value = { List (ℕ × Files) };

    ghost view = { λ inputs. map made_pair inputs.made.items };

    ghost invariant = { λ inputs. IsStrictlyIncreasing (map (λ m. m.pip) inputs.made.items) };
}

// The files of a pip that succeeded, shared; any other made none.
fn files_of(alloc: Global, slot: &Slot) -> Result<Made, Memory>
    ensures { IfOk result (λ made. made ≡ slot_files slot.now) }
{
    match slot {
        Slot::Good(made) => made.share(),
        Slot::Empty | Slot::Bad => no_files(alloc),
    }
}

// What the pip with a number made.
fn made_by(alloc: Global, number: u32, slots: &[Slot]) -> Result<MadeBy, Memory>
    requires { number < length slots.now }
    ensures { IfOk result (λ made. made ≡ input_by slots.now number) }
{
    Ok(MadeBy {
        pip: number,
        files: files_of(alloc, &slots[number as usize])?,
    })
}

// What the pips with these numbers made.
fn all_made(alloc: Global, inputs: &[u32], slots: &[Slot]) -> Result<Vec<MadeBy>, Memory>
    requires { All (λ input. input < length slots.now) inputs.now }
    ensures { IfOk result (λ made. made.items ≡ map (input_by slots.now) inputs.now) }
{
    let mut made = Vec::new(alloc);
    'inputs: for input in inputs {
        made.push(made_by(alloc, *input, slots)?)?;
    }
    Ok(made)
}

// The place of the files of a pip.
fn place_of(made: &[MadeBy], pip: u32) -> Option<usize>
    requires { IsStrictlyIncreasing (map (λ m. m.pip) made.now) }
    ensures { MatchOption result
        (All (λ m. m.pip ≢ pip) made.now)
        (λ place. (place < length made.now) × HoldsAt (λ m. m.pip ≡ pip) made.now place) }
{
    made.binary_search_by(|m| m.pip.cmp(&pip)).ok()
}

// The files of a pip, if it is among them.
fn files_in(made: &[MadeBy], pip: u32) -> Option<&Made>
    requires { IsStrictlyIncreasing (map (λ m. m.pip) made.now) }
    ensures { option_map_or (λ made. made.now) result [] ≡ files_by (map made_pair made.entry.now) pip }
{
    match place_of(made, pip) {
        Some(place) => Some(&made[place].files),
        None => None,
    }
}

impl Inputs {
    /// What the pips made for which a pip waits, where the first pips ended with these slots.
    pub fn of(alloc: Global, plan: &Plan, pip: u32, slots: &[Slot]) -> Result<Inputs, Memory>
        requires there { pip < length plan.now.pips }
        requires slots { pip ≤ length slots.now }
        ensures { IfOk result (λ inputs. inputs ≡ inputs_at plan.now.pips pip (map slot_files slots.now)) }
    {
        let inputs = plan.inputs(pip);
        let made = all_made(alloc, inputs, slots)?;
        Ok(Inputs { made })
    }

    /// No pips yet.
    pub fn new(alloc: Global) -> Inputs
        ensures { result ≡ [] }
    {
        Inputs {
            made: Vec::new(alloc),
        }
    }

    /// Adds what a pip made, whose number is greater than those that are there.
    pub fn push(&mut self, pip: u32, files: Made) -> Result<(), Memory>
        requires { All (λ made. made.0 < pip) self.old }
        ensures ok { OnOk result (self.new ≡ self.old ++ (pip, files) ∷ []) }
        ensures err { OnErr result (self.new ≡ self.old) }
    {
        Ok(self.made.push(MadeBy { pip, files })?)
    }

    /// The files that a pip made, if the pip is among them.
    pub fn find(&self, pip: u32) -> Option<&Made>
        ensures { option_map_or (λ made. made.now) result [] ≡ files_by self.now pip }
    {
        files_in(self.made.as_slice(), pip)
    }
}
