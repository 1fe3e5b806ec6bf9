//! Kinds of lines, and lists of lines of one kind.
ghost use Rattle.std.specs.Prelude.{◌≡◌, ◌++◌, ℕ, true, false, Bool, List, [], OnOk, map};
ghost use Rattle.std.specs.List.{AllByRecursion, flat_map};
ghost use Rattle.prints.specs.Forms.{Anything, IsForm};
ghost use Rattle.prints.specs.Lines.{lines_at};
ghost use Rattle.prints.specs.Reading.{Taken, Takes, TakesItems};

use crate::cursor::Cursor;
use crate::fault::PrintFault;
use std::alloc::{AllocError, Global};

/// A kind of line, which is written of a `W` and read as an `R`.
pub trait Line<W, R> {
    // What the line of a value is read as.
    ghost says: { W → R };

    // The line.
    ghost line: { R → List ℕ };

    // What the line with which a text begins is read as.
    ghost line_at: { List ℕ → Taken R };

    // Whether a text begins with a line of this kind, by its first word.
    ghost starts: { List ℕ → Bool };

    // What has a line.
    ghost Fits: { R → Type 0 };

    /// Adds the line of a value to a text.
    fn append(alloc: Global, text: &mut Vec<u8>, value: &W) -> Result<(), AllocError>
        ensures text { OnOk result (text.new.items ≡ text.old.items ++ line (says value.now)) }
        ensures fits { OnOk result (Fits (says value.now)) };

    /// What is known of each value: that it has a line. It does nothing.
    fn has_line(value: &W)
        ensures { Fits (says value.now) };

    /// Whether a line of this kind comes next.
    fn is_next(cursor: &Cursor) -> bool
        ensures { result ≡ starts cursor.now };

    /// Reads a line.
    fn read(alloc: Global, cursor: &mut Cursor) -> Result<R, PrintFault>
        ensures { Takes result cursor.new (line_at cursor.old) };

    // A line is read back as it was written, whatever follows it, and no other text is read.
    ghost form: { IsForm Fits Anything line line_at };

    // A line is seen as one by its first word, and an empty text is none.
    ghost seen: { (x : R) (cursor : List ℕ) → starts (line x ++ cursor) ≡ true };

    ghost none: { starts [] ≡ false };
}

/// Adds the lines of values to a text.
pub fn append_lines<W, R, L: Line<W, R>>(
    alloc: Global,
    text: &mut Vec<u8>,
    values: &[W],
) -> Result<(), AllocError>
    ensures text { OnOk result (text.new.items ≡ text.old.items ++ flat_map L.line (map L.says values.now)) }
    ensures fit { OnOk result (AllByRecursion L.Fits (map L.says values.now)) }
{
    'values: for value in values {
        L::append(alloc, text, value)?;
    }
    Ok(())
}

/// What is known of values: that each has a line. It does nothing.
pub fn have_lines<W, R, L: Line<W, R>>(values: &[W])
    ensures { AllByRecursion L.Fits (map L.says values.now) }
{
    'values: for value in values {
        L::has_line(value);
    }
}

/// Reads lines of one kind, as long as one comes next.
pub fn read_lines<W, R: Drop, L: Line<W, R>>(
    alloc: Global,
    cursor: &mut Cursor,
) -> Result<Vec<R>, PrintFault>
    ensures { TakesItems result cursor.new (lines_at L.starts L.line_at cursor.old) }
{
    let mut lines = Vec::new(alloc);
    'lines: while L::is_next(cursor) {
        lines.push(L::read(alloc, cursor)?)?;
    }
    Ok(lines)
}
