//! The texts of words and punctuators, shared where they are met again.

ghost use Rattle.std.specs.Prelude.{◌≡◌, IfOk, IfSome};

use bx_tree::Text;
use std::alloc::{AllocError, Global};

/// How many slots there are: one for each hash.
const SLOTS: usize = 256;

/// In each slot the text with its hash that was met last.
#[derive(Drop)]
pub(crate) struct SharedTexts {
    slots: Vec<Option<Text>>,
}

/// The slot of a spelling. The factors give punctuators and frequent words different slots.
fn slot_of(spelling: &[u8]) -> usize {
    match (spelling.first(), spelling.last()) {
        (Some(first), Some(last)) => {
            let ends = first.wrapping_mul(30).wrapping_add(last.wrapping_mul(20));
            let len = (spelling.len() % 256) as u8;
            usize::from(ends.wrapping_add(len.wrapping_mul(29)))
        }
        _ => 0,
    }
}

impl SharedTexts {
    /// A table without texts.
    pub(crate) fn new(alloc: Global) -> Result<SharedTexts, AllocError> {
        let mut slots = Vec::with_capacity(alloc, SLOTS)?;
        'slots: for _ in 0..SLOTS {
            slots.push(None)?;
        }
        Ok(SharedTexts { slots })
    }

    /// The text in a slot, if it has these bytes.
    fn found(&self, slot: usize, spelling: &[u8]) -> Option<&Text>
        ensures { IfSome result (λ text. text.now ≡ spelling.now) }
    {
        match self.slots.get(slot) {
            Some(Some(text)) if text.bytes() == spelling => Some(text),
            _ => None,
        }
    }

    /// The text of a spelling, shared with those who asked for it before.
    pub(crate) fn text(&mut self, alloc: Global, spelling: &[u8]) -> Result<Text, AllocError>
        ensures { IfOk result (λ text. text ≡ spelling.now) }
    {
        let slot = slot_of(spelling);
        if let Some(text) = self.found(slot, spelling) {
            return text.share();
        }
        let text = Text::new(alloc, spelling.to_vec(alloc)?)?;
        if let Some(place) = self.slots.get_mut(slot) {
            *place = Some(text.share()?);
        }
        Ok(text)
    }
}
