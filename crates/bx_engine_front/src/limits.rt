//! How long what is read may run, and whether its types are checked.

/// The steps that evaluation may take, those that each tool may take, and whether a specification is evaluated only where
/// each expression in it has a type.
#[derive(Clone, Copy, Debug, PartialEq, Eq)]
pub struct Limits {
    pub eval_budget: u64,
    pub tool_budget: u64,
    pub types: bool,
}
