use crate::over_files;
use bx_io::{MemSink, MemSource};
use bx_io_disk::MemDisk;
use bx_io_folder::FolderKeeper;
use std::alloc::Global;
use std::process::Abort;
use std::sync::Wait;
use std::test::Fail;
use std::thread::Threads;
use tests_with_engine::{ALL_HIT, ALL_RAN, CountGate, are_built};

/// The status of a build of a text that is no bundle.
fn refusal<H: Abort + Threads + Wait + Sync>(rt: &H, alloc: Global) -> u8 {
    let word = String::from_str(alloc, "build").expect(rt, "memory");
    let words = [word].to_vec(alloc).expect(rt, "memory");
    let text = b"no bundle".to_vec(alloc).expect(rt, "memory");
    let mut source = MemSource::new(text, 1000, Vec::new(alloc));
    let mut out = MemSink::new(alloc, 1000, 1000, Vec::new(alloc)).expect(rt, "memory");
    let mut notes = MemSink::new(alloc, 1000, 1000, Vec::new(alloc)).expect(rt, "memory");
    let disk = MemDisk::new(alloc);
    let mut keeper = FolderKeeper::new(disk);
    let gate = CountGate::new();
    let status = over_files(
        rt,
        alloc,
        &words,
        &mut source,
        &mut out,
        &mut notes,
        &mut keeper,
        &gate,
    );
    status.code()
}

#[test]
fn a_text_that_is_no_bundle_is_refused(rt: HostRuntime) -> Result<(), Fail> {
    assert_eq!(rt; refusal(&rt, rt.alloc()), 3);
    Ok(())
}

/// The second build takes all from the folder, whose files are in memory.
#[test]
fn a_folder_in_memory_keeps_what_a_build_made(rt: HostRuntime) -> Result<(), Fail> {
    let alloc = rt.alloc();
    let mut keeper = FolderKeeper::new(MemDisk::new(alloc));
    let gate = CountGate::new();
    let built = are_built(&rt, alloc, &mut keeper, &gate, &[ALL_RAN, ALL_HIT]);
    assert!(rt; built.expect(&rt, "memory"));
    assert_eq!(rt; gate.passed(), 3);
    Ok(())
}
