//! The texts of operands, between commas.
ghost use Rattle.std.specs.Prelude.{◌≡◌, ◌≤◌, length, IfOk};
ghost use Rattle.tool_text.specs.Reading.{is_cut as cuts_at, operand_texts, part_len as len_of_part};
ghost use Rattle.tool_text.specs.Reading.{quoting_after, trimmed as trim};
ghost use Rattle.bx_tree.specs.Lent.{texts_now};

use std::alloc::{AllocError, Global};

/// Where in a line's operands a byte is: outside strings, in one, or after a `\` in one.
#[derive(Clone, Copy)]
pub enum Quoting {
    Outside,
    Inside,
    Escaped,
}

impl Quoting {
    // Where the byte after this one is.
    fn after(self, byte: u8) -> Quoting
        ensures { result ≡ quoting_after self byte }
    {
        match self {
            Quoting::Outside if byte == b'"' => Quoting::Inside,
            Quoting::Outside => Quoting::Outside,
            Quoting::Inside if byte == b'"' => Quoting::Outside,
            Quoting::Inside if byte == b'\\' => Quoting::Escaped,
            Quoting::Inside | Quoting::Escaped => Quoting::Inside,
        }
    }

    // Whether this byte is a comma between operands.
    fn is_cut(self, byte: u8) -> bool
        ensures { result ≡ cuts_at self byte }
    {
        match self {
            Quoting::Outside => byte == b',',
            Quoting::Inside | Quoting::Escaped => false,
        }
    }
}

// The length of the first operand's text.
fn part_len(text: &[u8]) -> usize
    ensures value { result ≡ len_of_part Quoting.Outside text.now }
    ensures within { result ≤ length text.now }
{
    let mut quoting = Quoting::Outside;
    'bytes: for (at, byte) in text.iter().enumerate() {
        if quoting.is_cut(*byte) {
            return at;
        }
        quoting = quoting.after(*byte);
    }
    text.len()
}

// A text without the spaces around it.
fn trimmed(text: &[u8]) -> &[u8]
    ensures { result.now ≡ trim text.entry.now }
{
    let mut rest = text;
    'start: while let Some((b' ', more)) = rest.split_first() {
        rest = more;
    }
    'end: while let Some((b' ', more)) = rest.split_last() {
        rest = more;
    }
    rest
}

/// The texts of the operands of a line, without the spaces around them.
pub fn texts_of(alloc: Global, text: &[u8]) -> Result<Vec<&[u8]>, AllocError>
    ensures { IfOk result (λ texts. texts_now texts.items ≡ operand_texts text.entry.now) }
{
    let mut texts = Vec::new(alloc);
    let mut rest = text;
    'texts: loop {
        let (part, after) = rest.split_at(part_len(rest));
        texts.push(trimmed(part))?;
        let Some((_, more)) = after.split_first() else {
            return Ok(texts);
        };
        rest = more;
    }
}
