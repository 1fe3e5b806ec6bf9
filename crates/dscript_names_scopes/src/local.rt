//! Blocks and their locals.

use bx_tree::Text;
use std::marker::Model;

/// A local of a block.
#[derive(Drop)]
pub struct Local {
    pub name: Text,
    /// Whether it is a variable, which may be assigned.
    pub is_let: bool,
    /// Its number, from the end of its declaration on.
    pub number: Option<u32>,
}

/// A block.
#[derive(Drop)]
pub struct Block {
    /// The locals that it declares anywhere.
    pub locals: Vec<Local>,
    /// Whether it is the whole body of a function.
    pub is_body: bool,
}

impl Model for Block {
    ghost use Rattle.dscript_names_scopes.specs.Blocks.{Block as BlockData};

    ghost Value = { BlockData };

    ghost view = { λ b. record { locals = b.locals.items; is_body = b.is_body } };
}
