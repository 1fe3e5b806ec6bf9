//! Lists that grow by items and by whole lists.
ghost use Rattle.std.specs.Prelude.{◌≡◌, ◌<◌, ◌++◌, ◌∷◌, [], Some, None, length, map};
ghost use Rattle.std.specs.Prelude.{IfOk, MatchResult, OnErr, OnOk};
ghost use Rattle.dscript_value.specs.Depths.{greatest_depth, list_value};
ghost use Rattle.dscript_value.specs.Grown.{grown_items, items_before};
ghost use Rattle.dscript_value.specs.Plain.{item_list, plain_of, plain_values};

use crate::joining::{MAX_PIECE, add_each, add_shares, join};
use crate::makers::{DepthFault, MAX_DEPTH, deepest};
use crate::value::{FlatValues, Parts, Value, Values};
use std::alloc::{AllocError, Global};

/// A list that is being made. A list of more than 32 items that it takes over is shared whole, and of a
/// shorter one each item.
#[derive(Drop)]
pub struct GrowingList {
    before: Option<Values>,
    last: Vec<Value>,
}

// Some items and those of a list after them.
fn after(alloc: Global, before: &Option<Values>, more: Values) -> Result<Values, AllocError>
    ensures { IfOk result (λ values. item_list values.items
        ≡ items_before before.now ++ item_list more.items) }
{
    match before {
        None => Ok(more),
        Some(before) => join(alloc, before.share()?, more),
    }
}

impl GrowingList {
    /// A list without items.
    pub fn new(alloc: Global) -> GrowingList
        ensures { grown_items result ≡ [] }
    {
        GrowingList {
            before: None,
            last: Vec::new(alloc),
        }
    }

    /// How many items there are.
    pub fn len(&self) -> usize
        ensures { result ≡ length (grown_items self.now) }
    {
        match &self.before {
            None => self.last.len(),
            Some(before) => before.len() + self.last.len(),
        }
    }

    /// Adds an item. Where memory is lacking the list is as before.
    pub fn push(&mut self, item: Value) -> Result<(), AllocError>
        ensures items { OnOk result (grown_items self.new ≡ grown_items self.old ++ plain_of item ∷ []) }
        ensures none { OnErr result (grown_items self.new ≡ grown_items self.old) }
    {
        self.last.push(item)?;
        Ok(())
    }

    // Adds the items of a list, each shared.
    fn append_each(&mut self, alloc: Global, values: &Values) -> Result<(), AllocError>
        ensures items { OnOk result (grown_items self.new
            ≡ grown_items self.old ++ item_list (plain_values values.now).items) }
        ensures none { OnErr result (grown_items self.new ≡ grown_items self.old) }
    {
        let mut more = Vec::new(alloc);
        add_shares(values, &mut more)?;
        self.last.append(&mut more)?;
        Ok(())
    }

    // The items as one list.
    fn whole(&self, alloc: Global, depth: u32) -> Result<Values, AllocError>
        requires deepest { depth ≡ greatest_depth (map plain_of self.now.last.items) }
        requires within { depth < MAX_DEPTH }
        ensures { IfOk result (λ values. item_list values.items ≡ grown_items self.now) }
    {
        let mut items = Vec::new(alloc);
        add_each(self.last.as_slice(), &mut items)?;
        let last = Values::of(FlatValues::new(alloc, depth, items)?);
        after(alloc, &self.before, last)
    }

    /// Adds the items of a list. Where memory is lacking, and where the items are too many to be counted, the
    /// growing list is as before.
    pub fn append(&mut self, alloc: Global, values: &Values) -> Result<(), AllocError>
        ensures items { OnOk result (grown_items self.new
            ≡ grown_items self.old ++ item_list (plain_values values.now).items) }
        ensures none { OnErr result (grown_items self.new ≡ grown_items self.old) }
    {
        if values.len() <= MAX_PIECE {
            return self.append_each(alloc, values);
        }
        let depth = deepest(self.last.as_slice());
        // An item that is too deep is refused when the list is finished.
        if depth >= MAX_DEPTH {
            return self.append_each(alloc, values);
        }
        let before = self.whole(alloc, depth)?;
        let before = join(alloc, before, values.share()?)?;
        *self = GrowingList {
            before: Some(before),
            last: Vec::new(alloc),
        };
        Ok(())
    }

    /// The list. `Memory` also where its items are too many to be counted.
    pub fn finish(self, alloc: Global) -> Result<Value, DepthFault>
        ensures { MatchResult result
            (λ value. list_value (grown_items self) ≡ Some (plain_of value))
            (λ fault. fault ≡ DepthFault.TooDeep → list_value (grown_items self) ≡ None) }
    {
        let depth = deepest(self.last.as_slice());
        if depth >= MAX_DEPTH {
            return Err(DepthFault::TooDeep);
        }
        let last = Values::of(FlatValues::new(alloc, depth, self.last)?);
        let values = after(alloc, &self.before, last)?;
        Ok(values.list())
    }
}
