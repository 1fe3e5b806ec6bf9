//! Shared byte strings.

ghost use Rattle.std.specs.Prelude.{◌≡◌, ◌==◌, IfOk};
ghost use Rattle.std.specs.List.{slice_split};
ghost use Rattle.bx_tree.specs.Lent.{texts_now};

use crate::Memory;
use std::alloc::Global;
use std::marker::Model;
use std::sync::Arc;

/// Bytes that are shared: any bytes, of any length. Contracts see them as the list of the bytes.
#[derive(Drop)]
pub struct Text {
    bytes: Arc<Vec<u8>>,
}

impl Model for Text {
    ghost use Rattle.std.specs.Prelude.{List, ℕ};
    ghost use Rattle.std.specs.Arc.{arc_value};

    ghost Value = { List ℕ };

    ghost view = { λ t. (arc_value t.bytes).items };
}

impl Text {
    /// The text of these bytes.
    pub fn new(alloc: Global, bytes: Vec<u8>) -> Result<Text, Memory>
        ensures { IfOk result (λ text. text ≡ bytes.items) }
    {
        Ok(Text {
            bytes: Arc::new(alloc, bytes)?,
        })
    }

    /// The bytes, in order.
    pub fn bytes(&self) -> &[u8]
        ensures { result.now ≡ self.now }
    {
        self.bytes.as_slice()
    }

    /// Another owner of this text. The bytes are not copied.
    pub fn share(&self) -> Result<Text, Memory>
        ensures { IfOk result (λ text. text ≡ self.now) }
    {
        Ok(Text {
            bytes: self.bytes.clone()?,
        })
    }
}

/// The lines of a text: its parts between newlines.
pub fn lines_of(alloc: Global, text: &[u8]) -> Result<Vec<&[u8]>, Memory>
    ensures { IfOk result (λ lines. texts_now lines.items ≡ slice_split (λ b. b == 10) text.entry.now) }
{
    text.split(|byte| *byte == b'\n').collect(alloc)
}
