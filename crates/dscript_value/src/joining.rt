//! Lists one after another, so that few steps lead to each item.
ghost use Rattle.std.specs.Prelude.{◌≡◌, ◌<◌, ◌+◌, ◌++◌, Some, None, length, map, IfOk, IfSome};
ghost use Rattle.dscript_value.specs.Inner.{AreHalves};
ghost use Rattle.dscript_value.specs.Plain.{item_list, plain_of, plain_values};

use crate::makers::larger;
use crate::value::{FlatValues, Join, Parts, Value, Values};
use std::alloc::{AllocError, Global};
use std::rc::Rc;

/// The most items that are copied into one piece where lists are joined.
pub(crate) const MAX_PIECE: usize = 32;

// The most items of a list that is joined, so that the sum of two counts fits.
const MAX_COUNT: usize = 0x7fff_ffff_ffff_ffff;

// Adds the items of a list to some items, each shared.
pub(crate) fn add_shares(values: &Values, items: &mut Vec<Value>) -> Result<(), AllocError>
    ensures { IfOk result (λ _. map plain_of items.new.items
        ≡ map plain_of items.old.items ++ item_list values.now.items) }
{
    match &values.parts {
        Parts::Flat(piece) => add_each(piece.items(), items),
        Parts::Joined(join) => {
            add_shares(&join.left, items)?;
            add_shares(&join.right, items)?;
            Ok(())
        }
    }
}

// Adds some items to others, each shared.
pub(crate) fn add_each(more: &[Value], items: &mut Vec<Value>) -> Result<(), AllocError>
    ensures { IfOk result (λ _. map plain_of items.new.items
        ≡ map plain_of items.old.items ++ map plain_of more.now) }
{
    'items: for item in more {
        items.push(item.share()?)?;
    }
    Ok(())
}

// The items of one list and of another, in one piece.
fn one_piece(alloc: Global, left: &Values, right: &Values) -> Result<Values, AllocError>
    ensures { IfOk result (λ values. item_list values.items
        ≡ item_list left.now.items ++ item_list right.now.items) }
{
    let mut items = Vec::new(alloc);
    add_shares(left, &mut items)?;
    add_shares(right, &mut items)?;
    let depth = larger(left.depth(), right.depth());
    Ok(Values::of(FlatValues::new(alloc, depth - 1, items)?))
}

// One list after another. Neither may be empty.
fn node(alloc: Global, left: Values, right: Values) -> Result<Values, AllocError>
    requires left { 0 < length (item_list left.items) }
    requires right { 0 < length (item_list right.items) }
    ensures { IfOk result (λ values. item_list values.items
        ≡ item_list left.items ++ item_list right.items) }
{
    let count = left.len() + right.len();
    if count > MAX_COUNT {
        return Err(AllocError);
    }
    let depth = larger(left.depth(), right.depth());
    let height = left.height().max(right.height()).saturating_add(1);
    let join = Join {
        left,
        right,
        count,
        depth,
        height,
    };
    Ok(Values {
        parts: Parts::Joined(Rc::new(alloc, join)?),
    })
}

// The two lists of a list that is higher than this.
fn halves_above(values: &Values, height: u32) -> Result<Option<(Values, Values)>, AllocError>
    ensures { IfOk result (λ halves. IfSome halves (λ two. AreHalves two.0 two.1 values.now)) }
{
    match &values.parts {
        Parts::Joined(join) if join.height > height => {
            Ok(Some((join.left.share()?, join.right.share()?)))
        }
        _ => Ok(None),
    }
}

// One list after another, of which the left one may be too high.
fn lean_left(alloc: Global, left: Values, right: Values) -> Result<Values, AllocError>
    requires left { 0 < length (item_list left.items) }
    requires right { 0 < length (item_list right.items) }
    ensures { IfOk result (λ values. item_list values.items
        ≡ item_list left.items ++ item_list right.items) }
{
    let Some((first, middle)) = halves_above(&left, right.height().saturating_add(1))? else {
        return node(alloc, left, right);
    };
    let Some((before, after)) = halves_above(&middle, first.height())? else {
        return node(alloc, first, node(alloc, middle, right)?);
    };
    let left = node(alloc, first, before)?;
    node(alloc, left, node(alloc, after, right)?)
}

// One list after another, of which the right one may be too high.
fn lean_right(alloc: Global, left: Values, right: Values) -> Result<Values, AllocError>
    requires left { 0 < length (item_list left.items) }
    requires right { 0 < length (item_list right.items) }
    ensures { IfOk result (λ values. item_list values.items
        ≡ item_list left.items ++ item_list right.items) }
{
    let Some((middle, last)) = halves_above(&right, left.height().saturating_add(1))? else {
        return node(alloc, left, right);
    };
    let Some((before, after)) = halves_above(&middle, last.height())? else {
        return node(alloc, node(alloc, left, middle)?, last);
    };
    let left = node(alloc, left, before)?;
    node(alloc, left, node(alloc, after, last)?)
}

// One list after another: in one piece where they are short, and otherwise so that the heights of two that
// are joined differ little.
fn join_some(alloc: Global, left: Values, right: Values) -> Result<Values, AllocError>
    requires left { 0 < length (item_list left.items) }
    requires right { 0 < length (item_list right.items) }
    ensures { IfOk result (λ values. item_list values.items
        ≡ item_list left.items ++ item_list right.items) }
{
    if let Some((first, middle)) = halves_above(&left, right.height())? {
        return lean_right(alloc, first, join_some(alloc, middle, right)?);
    }
    if let Some((middle, last)) = halves_above(&right, left.height())? {
        return lean_left(alloc, join_some(alloc, left, middle)?, last);
    }
    if left.len() + right.len() <= MAX_PIECE {
        return one_piece(alloc, &left, &right);
    }
    node(alloc, left, right)
}

/// One list after another. `AllocError` also where the items are too many to be counted.
pub(crate) fn join(alloc: Global, left: Values, right: Values) -> Result<Values, AllocError>
    ensures { IfOk result (λ values. item_list values.items
        ≡ item_list left.items ++ item_list right.items) }
{
    if left.len() == 0 {
        return Ok(right);
    }
    if right.len() == 0 {
        return Ok(left);
    }
    join_some(alloc, left, right)
}
