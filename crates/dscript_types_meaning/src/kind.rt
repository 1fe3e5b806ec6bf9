//! Kinds of values.

/// A kind of values that have no items and no fields.
#[derive(Clone, Copy, Debug, PartialEq, Eq)]
pub enum Kind {
    Undefined,
    Boolean,
    Number,
    String,
    Path,
    File,
    Directory,
    RelativePath,
    PathAtom,
    /// A sealed directory.
    Seal,
    /// An output directory of a process.
    Opaque,
    Process,
    Artifact,
    Argument,
}
