//! A store in a folder. What its calls answer is said by a text, a word for each.

use bx_io::{Got, Keeper, Listed, PutFault, is_name};
use bx_io_folder::{FolderKeeper, PLACES};
use bx_io_system::SystemDisk;
use std::alloc::{AllocError, Global};
use std::fs;
use std::rt::Files;
use std::test::Fail;

const BLOB: &str = "b/0000000000000000000000000000000000000000000000000000000000000000";

const LIST: &str = "w/abcdef0123456789abcdef0123456789abcdef0123456789abcdef0123456789";

const ENTRY: &str = "e/ffffffffffffffffffffffffffffffffffffffffffffffffffffffffffffffff";

fn word_of(made: Result<(), PutFault>) -> &'static str {
    match made {
        Ok(()) => "made ",
        Err(PutFault::Failed) => "failed ",
        Err(PutFault::Memory) => "memory ",
    }
}

fn put<K: Keeper>(
    alloc: Global,
    said: &mut Vec<u8>,
    keeper: &mut K,
    name: &str,
    bytes: &str,
) -> Result<(), AllocError> {
    if !is_name(name.as_bytes()) {
        return Ok(());
    }
    let made = keeper.put(alloc, name, bytes.as_bytes());
    said.extend_from_slice(word_of(made).as_bytes())
}

fn drop_name<K: Keeper>(
    alloc: Global,
    said: &mut Vec<u8>,
    keeper: &mut K,
    name: &str,
) -> Result<(), AllocError> {
    if !is_name(name.as_bytes()) {
        return Ok(());
    }
    let made = keeper.drop_name(alloc, name);
    said.extend_from_slice(word_of(made).as_bytes())
}

/// Says the bytes under a name.
fn get<K: Keeper>(
    alloc: Global,
    said: &mut Vec<u8>,
    keeper: &mut K,
    name: &str,
) -> Result<(), AllocError> {
    if !is_name(name.as_bytes()) {
        return Ok(());
    }
    match keeper.get(alloc, name) {
        Got::Found(bytes) => said.extend_from_slice(&bytes)?,
        Got::None => said.extend_from_slice(b"none")?,
        Got::Failed => said.extend_from_slice(b"failed")?,
        Got::Memory => said.extend_from_slice(b"memory")?,
    }
    said.extend_from_slice(b" ")
}

/// Says the kinds of the names.
fn names<K: Keeper>(alloc: Global, said: &mut Vec<u8>, keeper: &mut K) -> Result<(), AllocError> {
    let Listed::Names(names) = keeper.names(alloc) else {
        return said.extend_from_slice(b"failed ");
    };
    for name in &names {
        said.extend_from_slice(name.as_bytes().get(..1).unwrap_or(b"?"))?;
    }
    said.extend_from_slice(b" ")
}

/// Asks to work alone.
fn alone<K: Keeper>(alloc: Global, said: &mut Vec<u8>, keeper: &mut K) -> Result<(), AllocError> {
    let granted = keeper.alone(alloc);
    said.extend_from_slice(word_of(granted).as_bytes())
}

/// Puts a file at each place where the file of a name may be begun.
fn takes_places<R: Files>(rt: &R, alloc: Global) -> Result<bool, AllocError> {
    for place in 0..PLACES {
        let path = format!(in alloc; "test-folder/{BLOB}.new-{place}")?;
        if fs::write(rt, path.as_str(), "x").is_err() {
            return Ok(false);
        }
    }
    Ok(true)
}

/// Puts a link to a file at the place of a name, a file beside the names, and a folder at the place of another name.
fn adds_others<R: Files>(rt: &R, alloc: Global) -> Result<bool, AllocError> {
    let link = format!(in alloc; "test-folder/{ENTRY}")?;
    let list = format!(in alloc; "test-folder/{LIST}")?;
    Ok(
        fs::write(rt, "test-folder/b/notes", "x").is_ok()
            && fs::remove_file(rt, link.as_str()).is_ok()
            && rt.symlink("../b/notes", link.as_str()).is_ok()
            && fs::create_dir(rt, "test-folder/w").is_ok()
            && fs::create_dir(rt, list.as_str()).is_ok(),
    )
}

/// Puts, gets, drops and lists.
fn say_calls<K: Keeper>(
    alloc: Global,
    said: &mut Vec<u8>,
    keeper: &mut K,
) -> Result<(), AllocError> {
    put(alloc, said, keeper, BLOB, "one")?;
    get(alloc, said, keeper, BLOB)?;
    put(alloc, said, keeper, ENTRY, "two")?;
    drop_name(alloc, said, keeper, BLOB)?;
    names(alloc, said, keeper)?;
    get(alloc, said, keeper, BLOB)
}

/// Says what a store in a folder answers, then where each place to begin a file is taken, and then where there are other
/// things in it.
fn say_folder<R: Files, K: Keeper>(
    rt: &R,
    alloc: Global,
    said: &mut Vec<u8>,
    keeper: &mut K,
) -> Result<(), AllocError> {
    say_calls(alloc, said, keeper)?;
    put(alloc, said, keeper, BLOB, "abc")?;
    if takes_places(rt, alloc)? {
        put(alloc, said, keeper, BLOB, "new")?;
    }
    get(alloc, said, keeper, BLOB)?;
    if adds_others(rt, alloc)? {
        names(alloc, said, keeper)?;
        get(alloc, said, keeper, ENTRY)?;
        put(alloc, said, keeper, LIST, "new")?;
        get(alloc, said, keeper, LIST)?;
    }
    Ok(())
}

/// A store over the folder of these tests.
fn open_store(
    rt: &HostRuntime,
    alloc: Global,
    folder: &str,
) -> Result<FolderKeeper<SystemDisk<HostRuntime>>, AllocError> {
    let disk = SystemDisk::new(rt.clone()?, String::from_str(alloc, folder)?);
    Ok(FolderKeeper::new(disk))
}

/// A put that finds no place for its file loses nothing, and what was begun is no name, nor is a link or a folder. A put
/// replaces an empty folder.
#[test]
fn a_folder_keeps_what_was_put_in_plain_files(rt: HostRuntime) -> Result<(), Fail> {
    let alloc = rt.alloc();
    let mut said = Vec::new(alloc);
    let mut keeper = open_store(&rt, alloc, "test-folder")?;
    say_folder(&rt, alloc, &mut said, &mut keeper)?;
    let wanted = "made one made made e none made failed abc b none made new ";
    assert_eq!(rt; said.as_slice(), wanted.as_bytes());
    fs::remove_dir_all(&rt, "test-folder")?;
    Ok(())
}

/// Says what one store that wants to work alone answers while another one uses the folder.
fn say_alone<K: Keeper>(
    alloc: Global,
    said: &mut Vec<u8>,
    user: &mut K,
    other: &mut K,
) -> Result<(), AllocError> {
    put(alloc, said, user, ENTRY, "two")?;
    alone(alloc, said, other)?;
    get(alloc, said, other, ENTRY)?;
    put(alloc, said, other, ENTRY, "new")?;
    drop_name(alloc, said, other, ENTRY)?;
    names(alloc, said, other)?;
    get(alloc, said, user, ENTRY)
}

/// A store that wants a folder alone is refused while another one uses it, and does nothing; later it is granted.
#[test]
fn a_folder_is_alone_where_nobody_uses_it(rt: HostRuntime) -> Result<(), Fail> {
    let alloc = rt.alloc();
    let mut said = Vec::new(alloc);
    let mut user = open_store(&rt, alloc, "alone-folder")?;
    let mut other = open_store(&rt, alloc, "alone-folder")?;
    say_alone(alloc, &mut said, &mut user, &mut other)?;
    drop(user);
    drop(other);
    let mut last = open_store(&rt, alloc, "alone-folder")?;
    alone(alloc, &mut said, &mut last)?;
    get(alloc, &mut said, &mut last, ENTRY)?;
    let wanted = "made failed failed failed failed failed two made two ";
    assert_eq!(rt; said.as_slice(), wanted.as_bytes());
    fs::remove_dir_all(&rt, "alone-folder")?;
    Ok(())
}
