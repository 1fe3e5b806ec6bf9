//! What is printed, by tables of texts.

mod layouts;
mod spellings;

use dscript_ast::{Expr, Item, Stmt};

#[test]
fn nodes_that_fill_lists_are_small(rt: HostRuntime) {
    assert_eq!(rt; size_of::<Item>(), 24);
    assert_eq!(rt; size_of::<Expr>(), 40);
    assert_eq!(rt; size_of::<Stmt>(), 80);
}
