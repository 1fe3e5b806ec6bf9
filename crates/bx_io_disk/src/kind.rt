//! What is noted of the calls of the system.

/// What a call of the system answered or did.
#[derive(Clone, Copy, Debug, PartialEq, Eq)]
pub enum Kind {
    /// These bytes are under this name.
    Found,
    /// Nothing is under this name.
    Absent,
    /// These bytes were put under this name.
    Put,
    /// This name was dropped.
    Dropped,
    /// These names were listed.
    Listed,
    /// The call failed.
    Failed,
    /// There was no memory.
    Memory,
    /// A reader of the store was made.
    Started,
    /// A stream gave these bytes.
    Gave,
    /// A stream is at its end.
    Ended,
    /// A stream took these bytes.
    Took,
    /// A plain file was seen at this path.
    Seen,
    /// A file was made at this path.
    Created,
    /// Bytes were written to the file at this path, or a part of them.
    Wrote,
    /// The file at the second path was given the first one.
    Renamed,
    /// The file at the second path was not given the first one, or nobody knows.
    Tried,
    /// The file at this path was removed.
    Removed,
    /// What lies at this path was stored by the disk.
    Synced,
    /// A folder was made at this path.
    Made,
    /// From here on the folder is to be locked alone.
    Asked,
    /// The folder was locked, as others may do too.
    Shared,
    /// The folder was locked, as nobody else may do.
    Alone,
    /// The folder is locked by another one, who excludes this handle.
    Excluded,
}
