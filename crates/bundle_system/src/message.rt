//! The messages of the program, one line each. A place below a folder is written after the folder's name.

use bundle_folder::{PackFault, UnpackFault};
use bx_tree::{BundleFault, MAX_BUNDLE_BYTES, MAX_FILE_BYTES, MAX_FILES, MAX_PATH_BYTES};
use std::alloc::{AllocError, Global};

// The parts of a name as one, with each byte that would end or hide the line as `?`.
fn shown(alloc: Global, parts: &[&str]) -> Result<String, AllocError> {
    let mut text = String::new(alloc);
    for part in parts {
        for letter in part.chars() {
            text.push(if letter.is_control() { '?' } else { letter })?;
        }
    }
    Ok(text)
}

// The name of a place of a folder.
fn at(alloc: Global, folder: &str, place: &str) -> Result<String, AllocError> {
    if place == "." {
        return shown(alloc, &[folder]);
    }
    shown(alloc, &[folder, "/", place])
}

// Why a place was not packed.
fn place_message(alloc: Global, place: &str, fault: &PackFault) -> Result<String, AllocError> {
    match fault {
        PackFault::BadName(_) => format!(in alloc;
            "{place}: a name in it has a byte other than A-Z a-z 0-9 . _ -, or is too long"
        ),
        PackFault::NoText(_) => format!(in alloc; "{place}: a name in this directory is not text"),
        PackFault::LongPath(_) => {
            format!(in alloc; "{place}: the path has more than {MAX_PATH_BYTES} bytes")
        }
        PackFault::NoFile(_) => {
            format!(in alloc; "{place}: a link or another thing that is neither file nor directory")
        }
        PackFault::LargeFile(_) => {
            format!(in alloc; "{place}: the file has more than {MAX_FILE_BYTES} bytes")
        }
        PackFault::ManyFiles => format!(in alloc; "{place}: there are more than {MAX_FILES} files"),
        PackFault::LargeText => {
            format!(in alloc; "{place}: its bundle has more than {MAX_BUNDLE_BYTES} bytes")
        }
        PackFault::Changed => format!(in alloc; "{place}: changed while it was read"),
        PackFault::Unlisted(_) | PackFault::Unread(_) => {
            format!(in alloc; "{place}: cannot be read")
        }
        PackFault::Memory => String::from_str(alloc, "out of memory"),
    }
}

/// Why a folder was not packed.
pub fn pack_message(alloc: Global, folder: &str, fault: &PackFault) -> Result<String, AllocError> {
    let place = match fault {
        PackFault::BadName(text) | PackFault::NoText(text) => text.as_str(),
        PackFault::LongPath(text) | PackFault::Unlisted(text) => text.as_str(),
        PackFault::NoFile(path) | PackFault::LargeFile(path) => path.text(),
        PackFault::Unread(path) => path.text(),
        _ => ".",
    };
    place_message(alloc, at(alloc, folder, place)?.as_str(), fault)
}

/// Why a text is no bundle.
pub fn bundle_message(alloc: Global, fault: BundleFault) -> Result<String, AllocError> {
    let why = match fault {
        BundleFault::BadBundle => "no bundle: its form is broken",
        BundleFault::BadPath => "no bundle: a header names no path",
        BundleFault::Unordered => "no bundle: the paths do not rise",
        BundleFault::Nested => "no bundle: a file is a directory of another",
        BundleFault::TooManyFiles => "too many files",
        BundleFault::TooLarge => "too large, or with a file that is too large",
        BundleFault::Memory => return String::from_str(alloc, "out of memory"),
    };
    format!(in alloc; "standard input: {why}")
}

// Why a bundle was not unpacked at a place, and what was made.
fn stop_message(alloc: Global, place: &str, fault: &UnpackFault) -> Result<String, AllocError> {
    match fault {
        UnpackFault::Text(fault) => bundle_message(alloc, *fault),
        UnpackFault::Exists(_) => {
            format!(in alloc; "{place}: something is there, or in its way; nothing was changed")
        }
        UnpackFault::Unseen(_) => {
            format!(in alloc; "{place}: cannot be looked at; nothing was changed")
        }
        UnpackFault::Kept(_) => format!(in alloc; "{place}: cannot be removed; no file was made"),
        UnpackFault::Partly(count, _) => {
            format!(in alloc; "{place}: cannot be made; files made before it: {count}")
        }
        UnpackFault::Taken(count, _) => {
            format!(in alloc; "{place}: came to be there meanwhile; files made before it: {count}")
        }
        UnpackFault::Memory(count) => format!(in alloc; "out of memory; files made: {count}"),
    }
}

/// Why a bundle was not unpacked, and what was made.
pub fn unpack_message(
    alloc: Global,
    folder: &str,
    fault: &UnpackFault,
) -> Result<String, AllocError> {
    let place = match fault {
        UnpackFault::Exists(path) | UnpackFault::Unseen(path) => path.text(),
        UnpackFault::Kept(path) | UnpackFault::Partly(_, path) => path.text(),
        UnpackFault::Taken(_, path) => path.text(),
        _ => ".",
    };
    stop_message(alloc, at(alloc, folder, place)?.as_str(), fault)
}
