use bx_io::StopKeeper;
use std::test::Fail;
use tests_with_engine::{ALL_HIT, CountGate, FIRST_CALLS, are_built, left_after};

/// Whether builds over what a build leaves that is cut off give its files, the last of them from the store alone.
#[test]
fn goes_on_over_what_another_build_left_half_done(rt: HostRuntime) -> Result<(), Fail> {
    let alloc = rt.alloc();
    for calls in 0..=FIRST_CALLS {
        let Some(left) = left_after(&rt, alloc, calls, "")? else {
            return Err("the build that is cut off gives something else".into());
        };
        let mut keeper = StopKeeper::new(left, u64::MAX);
        assert!(rt; are_built(&rt, alloc, &mut keeper, &CountGate::new(), &["", ALL_HIT])?);
    }
    Ok(())
}
