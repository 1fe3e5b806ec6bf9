//! Keepers in memory.

use bx_io::{
    FailKeeper, Got, KeepReader, Keeper, Listed, MemKeeper, NoFaultKeeper, PutFault, StopKeeper,
    is_name,
};
use std::alloc::{AllocError, Global};
use std::test::Fail;

const BLOB: &str = "b/0000000000000000000000000000000000000000000000000000000000000000";

const LIST: &str = "w/abcdef0123456789abcdef0123456789abcdef0123456789abcdef0123456789";

const ENTRY: &str = "e/ffffffffffffffffffffffffffffffffffffffffffffffffffffffffffffffff";

// Texts that are no names, a line each. The first is empty.
const NO_NAMES: &str = "
b/
c/0000000000000000000000000000000000000000000000000000000000000000
b-0000000000000000000000000000000000000000000000000000000000000000
b/000000000000000000000000000000000000000000000000000000000000000
b/00000000000000000000000000000000000000000000000000000000000000000
b/000000000000000000000000000000000000000000000000000000000000000F
b/000000000000000000000000000000000000000000000000000000000000000g
b/000000000000000000000000000000000000000000000000000000000000000/
b/000000000000000000000000000000000000000000000000000000000000000:
";

#[test]
fn names_are_a_kind_and_a_digest(rt: HostRuntime) {
    for text in [BLOB, LIST, ENTRY] {
        assert!(rt; is_name(text.as_bytes()), "{text}");
    }
    for text in NO_NAMES.lines() {
        assert!(rt; !is_name(text.as_bytes()), "{text}");
    }
}

fn say_made(said: &mut Vec<u8>, made: Result<(), PutFault>) -> Result<(), AllocError> {
    let word = match made {
        Ok(()) => "made",
        Err(PutFault::Failed) => "failed",
        Err(PutFault::Memory) => "memory",
    };
    said.extend_from_slice(word.as_bytes())
}

fn say_got(said: &mut Vec<u8>, got: Got) -> Result<(), AllocError> {
    match got {
        Got::Found(bytes) => said.extend_from_slice(&bytes),
        Got::None => said.extend_from_slice(b"none"),
        Got::Failed => said.extend_from_slice(b"failed"),
        Got::Memory => said.extend_from_slice(b"memory"),
    }
}

/// The kinds of the names.
fn say_names(said: &mut Vec<u8>, names: &[String]) -> Result<(), AllocError> {
    for name in names {
        said.extend_from_slice(name.as_bytes().get(..1).unwrap_or(b"?"))?;
    }
    Ok(())
}

fn say_listed(said: &mut Vec<u8>, listed: Listed) -> Result<(), AllocError> {
    match listed {
        Listed::Names(names) => say_names(said, &names),
        Listed::Failed => said.extend_from_slice(b"failed"),
        Listed::Memory => said.extend_from_slice(b"memory"),
    }
}

/// A call of a store.
#[derive(Clone, Copy)]
enum Call {
    Put,
    Get,
    Drop,
    Names,
}

/// Says what a call of a store answers.
fn say_call<K: Keeper>(
    alloc: Global,
    said: &mut Vec<u8>,
    keeper: &mut K,
    call: Call,
    name: &str,
    bytes: &str,
) -> Result<(), AllocError> {
    if !is_name(name.as_bytes()) {
        return Ok(());
    }
    match call {
        Call::Put => say_made(said, keeper.put(alloc, name, bytes.as_bytes()))?,
        Call::Get => say_got(said, keeper.get(alloc, name))?,
        Call::Drop => say_made(said, keeper.drop_name(alloc, name))?,
        Call::Names => say_listed(said, keeper.names(alloc))?,
    }
    said.extend_from_slice(b" ")
}

/// Six calls, with their names and bytes.
const CALLS: &[(Call, &str, &str)] = &[
    (Call::Put, BLOB, "one"),
    (Call::Get, BLOB, ""),
    (Call::Put, ENTRY, "two"),
    (Call::Drop, BLOB, ""),
    (Call::Names, BLOB, ""),
    (Call::Get, BLOB, ""),
];

/// Says what six calls of a store answer.
fn six_calls<K: Keeper>(
    alloc: Global,
    said: &mut Vec<u8>,
    keeper: &mut K,
) -> Result<(), AllocError> {
    for (call, name, bytes) in CALLS {
        say_call(alloc, said, keeper, *call, name, bytes)?;
    }
    Ok(())
}

/// Says what a reader finds under two names, of which only the first was put before it was made.
fn two_looks<K: Keeper>(
    alloc: Global,
    said: &mut Vec<u8>,
    keeper: &mut K,
) -> Result<(), AllocError> {
    let mut reader = keeper.reader(alloc)?;
    say_call(alloc, said, keeper, Call::Put, LIST, "new")?;
    for name in [ENTRY, LIST] {
        if is_name(name.as_bytes()) {
            say_got(said, reader.get(alloc, name))?;
            said.push(b' ')?;
        }
    }
    keeper.close(reader);
    Ok(())
}

/// Says what a store that never fails answers.
fn say_never_failing(alloc: Global, said: &mut Vec<u8>) -> Result<(), AllocError> {
    let mut keeper = NoFaultKeeper::new(alloc);
    six_calls(alloc, said, &mut keeper)?;
    two_looks(alloc, said, &mut keeper)
}

#[test]
fn a_keeper_holds_what_was_put_and_never_fails(rt: HostRuntime) -> Result<(), Fail> {
    let mut said = Vec::new(rt.alloc());
    say_never_failing(rt.alloc(), &mut said)?;
    let wanted = "made one made made e none made two none ";
    assert_eq!(rt; said.as_slice(), wanted.as_bytes());
    Ok(())
}

/// Says what six calls answer where the one with this number fails.
fn say_with_a_fault(alloc: Global, said: &mut Vec<u8>, failing: u64) -> Result<(), AllocError> {
    let mut keeper = MemKeeper::new(alloc, [failing].to_vec(alloc)?);
    six_calls(alloc, said, &mut keeper)?;
    said.extend_from_slice(if keeper.faults() == 1 { b"1" } else { b"0" })
}

/// Says what six calls answer where only so many go through, and what is left under the first name.
fn say_stopped(alloc: Global, said: &mut Vec<u8>, calls: u64) -> Result<(), AllocError> {
    let mut keeper = StopKeeper::new(MemKeeper::new(alloc, Vec::new(alloc)), calls);
    six_calls(alloc, said, &mut keeper)?;
    let inner = keeper.into_inner();
    said.extend_from_slice(inner.held(BLOB).unwrap_or(b"none"))
}

/// A number, what is said where the call with this number fails, and what is said where this is how many calls go
/// through.
const NUMBERS: &[(u64, &str, &str)] = &[
    (
        0,
        "made one made made e none 0",
        "failed failed failed failed failed failed none",
    ),
    (
        1,
        "failed none made made e none 1",
        "made failed failed failed failed failed one",
    ),
    (
        2,
        "made failed made made e none 1",
        "made one failed failed failed failed one",
    ),
    (
        3,
        "made one failed made  none 1",
        "made one made failed failed failed one",
    ),
    (
        4,
        "made one made failed be one 1",
        "made one made made failed failed none",
    ),
    (
        5,
        "made one made made failed none 1",
        "made one made made e failed none",
    ),
    (
        6,
        "made one made made e failed 1",
        "made one made made e none none",
    ),
];

#[test]
fn keepers_in_memory_fail_and_stop_where_they_are_asked_to(rt: HostRuntime) -> Result<(), Fail> {
    for (number, failing, stopping) in NUMBERS {
        let mut said = Vec::new(rt.alloc());
        say_with_a_fault(rt.alloc(), &mut said, *number)?;
        assert_eq!(rt; said.as_slice(), failing.as_bytes());
        said.clear();
        say_stopped(rt.alloc(), &mut said, *number)?;
        assert_eq!(rt; said.as_slice(), stopping.as_bytes());
    }
    Ok(())
}

/// Says what a store answers that holds an entry, and whose readers fail at the first call.
fn say_failing(alloc: Global, said: &mut Vec<u8>) -> Result<(), AllocError> {
    let mut inner = MemKeeper::new(alloc, Vec::new(alloc));
    if is_name(ENTRY.as_bytes()) {
        inner.set_raw(alloc, ENTRY, b"old".to_vec(alloc)?)?;
    }
    let mut keeper = FailKeeper::new(inner, [1].to_vec(alloc)?);
    two_looks(alloc, said, &mut keeper)?;
    six_calls(alloc, said, &mut keeper)
}

#[test]
fn readers_read_what_was_held_and_fail_where_asked(rt: HostRuntime) -> Result<(), Fail> {
    let mut said = Vec::new(rt.alloc());
    say_failing(rt.alloc(), &mut said)?;
    let wanted = "made failed none made one made made ew none ";
    assert_eq!(rt; said.as_slice(), wanted.as_bytes());
    Ok(())
}
