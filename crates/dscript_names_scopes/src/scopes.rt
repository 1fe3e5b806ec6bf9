//! The blocks around a place in a function.

ghost use Rattle.std.specs.Prelude.{◌≡◌, ◌∷◌, [], IfOk, IsErr, drop};
ghost use Rattle.dscript_names_scopes.specs.Lookup.{assigned, assigned_local, declare_in, in_blocks, known};

use crate::found::Found;
use crate::indexed::IndexedBlock;
use crate::local::{Block, Local};
use bx_tree::{Memory, Text};
use dscript_program::{SpecKind, Target};
use std::alloc::Global;
use std::marker::Model;

/// The blocks around a place. Contracts see them as a list, the innermost first.
#[derive(Drop)]
pub struct Scopes {
    alloc: Global,
    blocks: Vec<IndexedBlock>,
}

impl Model for Scopes {
    ghost use Rattle.std.specs.Prelude.{List, reverse};
    ghost use Rattle.dscript_names_scopes.specs.Blocks.{Block as BlockData};

    ghost Value = { List BlockData };

    ghost view = { λ s. reverse s.blocks.items };
}

/// What the local is found to be: unknown before its declaration.
fn known(local: &Local) -> Result<Found, SpecKind>
    ensures { result ≡ known local.now.number }
{
    let Some(number) = local.number else {
        return Err(SpecKind::UnknownName);
    };
    Ok(Found {
        target: Target::Local(number),
        parts: 0,
    })
}

/// The number of a local that is assigned.
fn assigned_local(local: &Local) -> Result<u32, SpecKind>
    ensures { result ≡ assigned_local local.now }
{
    if !local.is_let {
        return Err(SpecKind::AssignCaptured);
    }
    match local.number {
        Some(number) => Ok(number),
        None => Err(SpecKind::UnknownName),
    }
}

impl Scopes {
    /// No blocks.
    pub fn new(alloc: Global) -> Scopes
        ensures { result ≡ [] }
    {
        Scopes {
            alloc,
            blocks: Vec::new(alloc),
        }
    }

    /// Enters a block, or stays where it is.
    pub fn enter(&mut self, block: Block) -> Result<(), Memory>
        ensures entered { IfOk result (λ _. self.new ≡ block ∷ self.old) }
        ensures kept { IsErr result → self.new ≡ self.old }
    {
        let indexed = IndexedBlock::new(self.alloc, block)?;
        self.blocks.push(indexed)?;
        Ok(())
    }

    /// Leaves the innermost block.
    pub fn leave(&mut self)
        ensures { self.new ≡ drop 1 self.old }
    {
        let _ = self.blocks.pop();
    }

    /// What the name is in the innermost block that declares it.
    #[tactic(auto, using(crate::proofs::Outwards::reverse_last))]
    pub fn find(&self, name: &Text) -> Option<Result<Found, SpecKind>>
        ensures { result ≡ in_blocks self.now name.now }
    {
        let mut left = self.blocks.as_slice();
        'outwards: while let Some((block, outer)) = left.split_last() {
            if let Some(local) = block.local(name) {
                return Some(known(local));
            }
            left = outer;
        }
        None
    }

    /// The number of the variable that an assignment to this name is to, among those of the function that the
    /// assignment is in.
    #[tactic(auto, using(crate::proofs::Outwards::reverse_last))]
    pub fn assigned(&self, name: &Text) -> Result<u32, SpecKind>
        ensures { result ≡ assigned self.now name.now }
    {
        let mut left = self.blocks.as_slice();
        'outwards: while let Some((block, outer)) = left.split_last() {
            if let Some(local) = block.local(name) {
                return assigned_local(local);
            }
            if block.is_body() {
                break;
            }
            left = outer;
        }
        Err(SpecKind::AssignCaptured)
    }

    /// Gives the local of the innermost block with this name its number, after its declaration.
    pub fn declare(&mut self, name: &Text, number: u32)
        ensures { self.new ≡ declare_in name.now number self.old }
    {
        let Some(last) = self.blocks.len().checked_sub(1) else {
            return;
        };
        let block = &mut self.blocks[last];
        block.declare(name, number);
    }
}
