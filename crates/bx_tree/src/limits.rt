//! The limits on bundles and paths, each with its one name. The definitions in specs/ cite these constants.

/// The largest number of bytes in the text of a bundle.
pub const MAX_BUNDLE_BYTES: usize = 67_108_864;

/// The largest number of files in a bundle.
pub const MAX_FILES: usize = 16_384;

/// The largest number of bytes in a file of a bundle.
pub const MAX_FILE_BYTES: usize = 16_777_216;

/// The largest number of bytes in the text of a path.
pub const MAX_PATH_BYTES: usize = 1024;

/// The largest number of bytes in an atom of a path.
pub const MAX_ATOM_BYTES: usize = 255;
