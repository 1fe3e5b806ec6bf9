//! The items of lists.

ghost use Rattle.std.specs.Prelude.{◌≡◌, ◌++◌, OnOk};
ghost use Rattle.dscript_ast.specs.Views.{element_tree, expr_tree};
ghost use Rattle.dscript_names_workspace.specs.Lists.{items_at, items_of};
ghost use Rattle.dscript_names_workspace.specs.ConfigViews.{item_trees};

use dscript_ast::{Element, Expr};
use std::alloc::AllocError;

/// An item of a list as it is written.
#[derive(Drop)]
pub(crate) enum ListItem<'a> {
    /// An element.
    One(&'a Expr),
    /// An expression all of whose elements are in the list.
    Many(&'a Expr),
}

/// Appends the items of a list, with those of each list that is spread in it.
#[cycle(items)]
pub(crate) fn push_items<'a>(
    list: &'a Expr,
    items: &mut Vec<ListItem<'a>>,
) -> Result<(), AllocError>
    ensures { OnOk result (item_trees items.new.items
        ≡ item_trees items.old.items ++ items_of (expr_tree list.entry.now)) }
{
    let Expr::List(elements) = list else {
        items.push(ListItem::Many(list))?;
        return Ok(());
    };
    'elements: for element in elements {
        push_element(element, items)?;
    }
    Ok(())
}

#[cycle(items)]
fn push_element<'a>(element: &'a Element, items: &mut Vec<ListItem<'a>>) -> Result<(), AllocError>
    ensures { OnOk result (item_trees items.new.items
        ≡ item_trees items.old.items ++ items_at (element_tree element.entry.now)) }
{
    if element.spread {
        push_items(&element.value, items)
    } else {
        items.push(ListItem::One(&element.value))?;
        Ok(())
    }
}
