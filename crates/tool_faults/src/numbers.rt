//! The numbers of lines.
ghost use Rattle.std.specs.Prelude.{◌≡◌, ◌++◌, ◌∷◌, [], IfOk, OnOk};
ghost use Rattle.bx_tree.specs.Lent.{texts_now};
ghost use Rattle.tool_faults.specs.Faults.{numbers_from, numbers_of, numbers_of_lines};

use bx_tree::{Memory, lines_of};
use std::alloc::Global;
use tool_text::says;

// Adds the number of a line, if it says something.
fn add_number(numbers: &mut Vec<usize>, line: &[u8], number: usize) -> Result<(), Memory>
    ensures { OnOk result (numbers.new.items ≡ numbers.old.items ++ numbers_from number (line.now ∷ [])) }
{
    if !says(line) {
        return Ok(());
    }
    numbers.push(number)?;
    Ok(())
}

// The numbers of the lines that say something, of which the first has the number 2.
pub(crate) fn numbers_after(alloc: Global, rest: &[&[u8]]) -> Result<Vec<usize>, Memory>
    ensures { IfOk result (λ numbers. numbers.items ≡ numbers_from 2 (texts_now rest.now)) }
{
    let mut numbers = Vec::new(alloc);
    'lines: for (place, line) in rest.iter().enumerate() {
        add_number(&mut numbers, line, place + 2)?;
    }
    Ok(numbers)
}

fn numbers_in(alloc: Global, lines: &[&[u8]]) -> Result<Vec<usize>, Memory>
    ensures { IfOk result (λ numbers. numbers.items ≡ numbers_of_lines (texts_now lines.now)) }
{
    match lines.split_first() {
        Some((_, rest)) => numbers_after(alloc, rest),
        None => Ok(Vec::new(alloc)),
    }
}

/// The numbers, from 1, of the lines of a tool's text that have its instructions, in their order.
pub fn line_numbers(alloc: Global, text: &[u8]) -> Result<Vec<usize>, Memory>
    ensures { IfOk result (λ numbers. numbers.items ≡ numbers_of text.now) }
{
    let lines = lines_of(alloc, text)?;
    numbers_in(alloc, lines.as_slice())
}
