use crate::over_memory;
use bx_io::{MemKeeper, MemSink, MemSource};
use std::test::Fail;

#[test]
fn a_text_that_is_no_bundle_is_refused(rt: HostRuntime) -> Result<(), Fail> {
    let alloc = rt.alloc();
    let words = [String::from_str(alloc, "build").expect(&rt, "memory")]
        .to_vec(alloc)
        .expect(&rt, "memory");
    let text = b"no bundle".to_vec(alloc).expect(&rt, "memory");
    let mut source = MemSource::new(text, 1000, Vec::new(alloc));
    let mut out = MemSink::new(alloc, 1000, 1000, Vec::new(alloc)).expect(&rt, "memory");
    let mut notes = MemSink::new(alloc, 1000, 1000, Vec::new(alloc)).expect(&rt, "memory");
    let mut keeper = MemKeeper::new(alloc, Vec::new(alloc));
    let status = over_memory(
        &rt,
        alloc,
        &words,
        &mut source,
        &mut out,
        &mut notes,
        &mut keeper,
    );
    assert_eq!(rt; status.code(), 3);
    assert!(rt; notes.taken().is_empty());
    Ok(())
}
