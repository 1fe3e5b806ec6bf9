//! To which pips walks along edges lead.
ghost use Rattle.std.specs.Prelude.{◌≡◌, ◌↔◌, ◌<◌, ◌≤◌, ◌*◌, ◌⊎◌, ℕ, length, IfOk, All, Contains};
ghost use Rattle.std.specs.List.{HoldsAt};
ghost use Rattle.pip_model.specs.declared.bits.TheConstants.{WORD_BITS};
ghost use Rattle.pip_model.specs.Plans.{AreRows};
ghost use Rattle.pip_model.specs.Rows.{IsRowOf, PointBack};
ghost use Rattle.pip_model.specs.Walks.{ListEdge};

use crate::bits::{BitSet, WORD_BITS};
use crate::edges::Inputs;
use std::alloc::{AllocError, Global};

// The row of a number with these targets, whose rows are known and have at most so many words. It takes no memory
// where there is no target.
fn row_of(
    alloc: Global,
    words: usize,
    rows: &[BitSet],
    targets: &[u32],
) -> Result<BitSet, AllocError>
    requires size { All (λ row. length row ≤ words) rows.now }
    requires targets { All (λ target. target < length rows.now) targets.now }
    requires few { length rows.now < words * WORD_BITS }
    ensures size { IfOk result (λ row. length row ≤ words) }
    ensures row { IfOk result (IsRowOf rows.now targets.now) }
{
    if targets.is_empty() {
        return BitSet::empty(alloc, 0);
    }
    let mut row = BitSet::empty(alloc, words)?;
    'targets: for target in targets {
        let target = *target as usize;
        row.add(target);
        row.join(&rows[target]);
    }
    Ok(row)
}

// The row of each number, where edges lead to smaller numbers alone. It has room for smaller numbers alone.
pub(crate) fn all_rows(alloc: Global, inputs: &[Inputs]) -> Result<Vec<BitSet>, AllocError>
    requires { PointBack inputs.now }
    ensures size { IfOk result (λ rows. length rows.items ≡ length inputs.now) }
    ensures rows { IfOk result (λ rows. AreRows (ListEdge inputs.now) rows.items) }
{
    let mut rows = Vec::new(alloc);
    'inputs: for targets in inputs {
        let words = rows.len() / WORD_BITS + 1;
        let row = row_of(alloc, words, rows.as_slice(), targets.numbers())?;
        rows.push(row)?;
    }
    Ok(rows)
}
