//! Vectors in rising order, each element once.
ghost use Rattle.std.specs.Prelude.{◌≡◌, true};
ghost use Rattle.bx_tree.specs.Sets.{IsSetUpTo};

// The elements in rising order, each once.
pub(crate) fn in_order<T: Ord + Drop>(items: Vec<T>) -> Vec<T>
    ensures { IsSetUpTo T.eq T.cmp items.items result.items }
{
    let mut items = items;
    items.sort_unstable();
    items.dedup();
    items
}
