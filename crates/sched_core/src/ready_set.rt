//! Sets of numbers whose least member is found quickly.
ghost use Rattle.std.specs.Prelude.{◌≡◌, ◌<◌, ◌≤◌, ℕ, true, false, IfOk, IfSome, IfNone, length, replicate, set};
ghost use Rattle.sched_core.specs.Sets.{IsLeast, IsNever, flag_at};

use std::alloc::{AllocError, Global};
use std::marker::Model;

// The numbers of a block. A block is marked where it may have a member.
pub(crate) const BLOCK: usize = 128;

// A set of numbers below a limit. Contracts see a flag for each number.
//
// The least member is sought among the marks of blocks and then in one block: at 16,384 numbers these are 128
// and 128 looks. A block that is found empty loses its mark, so that it is gone through once for each number
// that was added to it.
#[derive(Drop)]
pub(crate) struct ReadySet {
    flags: Vec<bool>,
    blocks: Vec<bool>,
}

impl Model for ReadySet {
    ghost use Rattle.std.specs.Prelude.{List, Bool};
    ghost use Rattle.sched_core.specs.Sets.{IsCovered};

    ghost Value = { List Bool };

    ghost view = { λ s. s.flags.items };

    ghost invariant = { λ s. IsCovered s.flags.items s.blocks.items };
}

// The least member from one number to before another.
fn first_between(flags: &[bool], from: usize, to: usize) -> Option<usize>
    requires { to ≤ length flags.now }
    ensures some { IfSome result (λ n. (n < to) × (from ≤ n) × (flag_at flags.now n ≡ true)
        × ((k : ℕ) → from ≤ k → k < n → flag_at flags.now k ≡ false)) }
    ensures none { IfNone result ((k : ℕ) → from ≤ k → k < to → flag_at flags.now k ≡ false) }
{
    'numbers: for number in from..to {
        if flags[number] {
            return Some(number);
        }
    }
    None
}

impl ReadySet {
    // The empty set of numbers below a limit.
    pub(crate) fn new(alloc: Global, limit: usize) -> Result<ReadySet, AllocError>
        ensures { IfOk result (λ set. set ≡ replicate limit false) }
    {
        Ok(ReadySet {
            flags: vec![in alloc; false; limit]?,
            blocks: vec![in alloc; false; limit / BLOCK + 1]?,
        })
    }

    pub(crate) fn contains(&self, number: usize) -> bool
        ensures { result ≡ flag_at self.now number }
    {
        match self.flags.get(number) {
            Some(flag) => *flag,
            None => false,
        }
    }

    // Adds a number or takes it away.
    pub(crate) fn set(&mut self, number: usize, is_member: bool)
        requires { number < length self.old }
        ensures { self.new ≡ set self.old number is_member }
    {
        let ReadySet { flags, blocks } = self;
        flags[number] = is_member;
        if is_member {
            blocks[number / BLOCK] = true;
        }
    }

    // The least member, if there is one.
    pub(crate) fn first(&mut self) -> Option<usize>
        ensures same { self.new ≡ self.old }
        ensures some { IfSome result (IsLeast (flag_at self.old)) }
        ensures none { IfNone result (IsNever (flag_at self.old)) }
    {
        let ReadySet { flags, blocks } = self;
        'marks: for block in 0..blocks.len() {
            if blocks[block] {
                let from = block * BLOCK;
                let to = flags.len().min(from + BLOCK);
                match first_between(flags.as_slice(), from, to) {
                    Some(number) => return Some(number),
                    None => blocks[block] = false,
                }
            }
        }
        None
    }
}
