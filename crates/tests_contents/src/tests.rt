//! A content that is put and got by its digest, where calls of the store fail.

use bx_digest::{Blob, digest_of};
use bx_io::{FailKeeper, KeepReader, Keeper, MemKeeper, PutFault};
use content_store::{Fetched, get_blob, put_blob};
use recent_contents::RecentReader;
use std::alloc::Global;
use std::test::Fail;

fn is_failed(made: Result<(), PutFault>) -> bool {
    matches!(made, Err(PutFault::Failed))
}

/// What is found under the digest of these bytes: they, nothing well-formed, or a fault.
fn found<R: KeepReader>(alloc: Global, reader: &mut R, bytes: &[u8]) -> u8 {
    match get_blob(alloc, reader, &digest_of(bytes)) {
        Fetched::Found(blob) if blob.bytes() == bytes => b'=',
        Fetched::NotWell => b'-',
        Fetched::Fault => b'f',
        _ => b'?',
    }
}

#[test]
fn a_content_is_found_where_it_was_put(rt: HostRuntime) -> Result<(), Fail> {
    let alloc = rt.alloc();
    let mut keeper = MemKeeper::new(alloc, vec![in alloc; 1]?);
    let bytes = b"abc".to_vec(alloc).expect(&rt, "memory");
    let content = Blob::new(alloc, bytes).expect(&rt, "memory");
    assert!(rt; is_failed(put_blob(alloc, &mut keeper, &content)));
    assert!(rt; put_blob(alloc, &mut keeper, &content).is_ok());
    let name = "b/ba7816bf8f01cfea414140de5dae2223b00361a396177a9cb410ff61f20015ad";
    assert_eq!(rt; keeper.held(name).expect(&rt, "name"), b"abc".as_slice());
    let failing = vec![in alloc; 1].expect(&rt, "memory");
    let keeper = FailKeeper::new(keeper, failing);
    let mut reader = keeper.reader(alloc).expect(&rt, "memory");
    assert_eq!(rt; found(alloc, &mut reader, b"abc"), b'f');
    assert_eq!(rt; found(alloc, &mut reader, b"abc"), b'=');
    assert_eq!(rt; found(alloc, &mut reader, b"abd"), b'-');
    Ok(())
}

/// A store that holds a content for each number below this one: one byte, the number.
fn holding(alloc: Global, number: u8) -> Result<MemKeeper, Fail> {
    let mut keeper = MemKeeper::new(alloc, Vec::new(alloc));
    for byte in 0..number {
        let content = Blob::new(alloc, [byte].to_vec(alloc)?)?;
        if put_blob(alloc, &mut keeper, &content).is_err() {
            return Err("a content is not put".into());
        }
    }
    Ok(keeper)
}

#[test]
fn a_content_that_was_just_found_is_not_asked_for_again(rt: HostRuntime) -> Result<(), Fail> {
    let alloc = rt.alloc();
    let keeper = FailKeeper::new(holding(alloc, 2)?, [2].to_vec(alloc)?);
    let mut reader = RecentReader::new(alloc, keeper.reader(alloc)?);
    assert_eq!(rt; found(alloc, &mut reader, &[0]), b'=');
    assert_eq!(rt; found(alloc, &mut reader, &[0]), b'=');
    assert_eq!(rt; found(alloc, &mut reader, &[1]), b'f');
    assert_eq!(rt; found(alloc, &mut reader, &[0]), b'=');
    assert_eq!(rt; found(alloc, &mut reader, &[1]), b'=');
    assert_eq!(rt; found(alloc, &mut reader, &[2]), b'-');
    Ok(())
}

#[test]
fn more_than_thirty_two_contents_are_not_remembered(rt: HostRuntime) -> Result<(), Fail> {
    let alloc = rt.alloc();
    let keeper = FailKeeper::new(holding(alloc, 33)?, [34].to_vec(alloc)?);
    let mut reader = RecentReader::new(alloc, keeper.reader(alloc)?);
    for byte in 0..33 {
        assert_eq!(rt; found(alloc, &mut reader, &[byte]), b'=');
    }
    assert_eq!(rt; found(alloc, &mut reader, &[32]), b'=');
    assert_eq!(rt; found(alloc, &mut reader, &[0]), b'f');
    Ok(())
}
