//! The precedence levels of expressions, from the level that binds tightest to the level that binds loosest.
//!
//! An expression of a level needs no parentheses wherever this level or a looser one is allowed.

/// Literals, names, lists, objects, and whatever is in parentheses.
pub const PRIMARY: u32 = 0;
/// Members, indices and calls.
pub const POSTFIX: u32 = 1;
/// `!` and `-` before an operand.
pub const UNARY: u32 = 2;
/// `*`
pub const PRODUCT: u32 = 3;
/// `+` and `-`
pub const SUM: u32 = 4;
/// `<`, `<=`, `>` and `>=`
pub const RELATION: u32 = 5;
/// `===` and `!==`
pub const EQUALITY: u32 = 6;
/// `&&`
pub const AND: u32 = 7;
/// `||`
pub const OR: u32 = 8;
/// `? :`
pub const CONDITIONAL: u32 = 9;
/// `=>`, which is the level of any expression.
pub const ARROW: u32 = 10;
