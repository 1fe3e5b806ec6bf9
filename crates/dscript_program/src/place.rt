//! Lines and columns.

/// Where in a text something is. Lines and columns are counted from 1, and columns in bytes.
#[derive(Clone, Copy, Debug, PartialEq, Eq)]
pub struct Place {
    pub line: u32,
    pub column: u32,
}
