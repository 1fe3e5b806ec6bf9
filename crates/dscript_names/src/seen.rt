//! Names that were seen, and elements that are there twice.

ghost use Rattle.std.specs.Prelude.{◌≡◌, ◌||◌, IfOk, OnOk};
ghost use Rattle.std.specs.BTreeSet.{contains};
ghost use Rattle.bx_tree.specs.Paths.{same_path};
ghost use Rattle.dscript_program.specs.ProgramData.{Dotted};
ghost use Rattle.dscript_names_scopes.specs.Duplicates.{has_repeat};
ghost use Rattle.dscript_names_scopes.specs.Orders.{name_cmp};

use bx_tree::Memory;
use dscript_names_scopes::DottedName;
use std::collections::BTreeSet;

/// Whether one of the two holds.
pub(crate) fn either(one: bool, other: bool) -> bool
    ensures { result ≡ (one || other) }
{
    one || other
}

/// Adds a name. Whether it was there.
pub(crate) fn see(seen: &mut BTreeSet<DottedName>, name: DottedName) -> Result<bool, Memory>
    ensures was { IfOk result (λ was. was ≡ contains name_cmp seen.old name) }
    ensures added { OnOk result ((q : Dotted)
        → contains name_cmp seen.new q ≡ (same_path name q || contains name_cmp seen.old q)) }
{
    Ok(!seen.insert(name)?)
}

/// Whether a list has an element twice.
pub(crate) fn has_repeat<T: Ord + Drop>(items: Vec<T>) -> bool
    ensures { result ≡ has_repeat T.eq items.items }
{
    let mut items = items;
    let count = items.len();
    items.sort_unstable();
    items.dedup();
    items.len() < count
}
