//! HTML pages made of pieces.
//!
//! A page is a list of tags, attributes and texts. What a text holds is always escaped. This crate depends on `bx_tree`
//! for shared bytes. It carries the promise that a page has exactly the text of its definition, and that in every page
//! no byte of a given text opens a tag or ends the value of an attribute, and each is read as what it was.
#![tactic(auto)]

mod laws;
mod piece;
mod rendering;

pub use bx_tree::Memory;
pub use laws::{no_text_is_markup, text_is_read_back};
pub use piece::{Attr, Piece, Tag};
pub use rendering::render;
