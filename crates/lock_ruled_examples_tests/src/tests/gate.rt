//! Visitors that sleep at a gate are woken. A lost wake-up makes the test hang.
use crate::tests::WRITER_ALONE;
use lock_api::Fault;
use lock_examples::gate::open_for_two;
use std::test::Fail;

/// With two places the keeper's downgrade admits one visitor, and a release the other. With three it admits both.
#[test]
fn opened_gate_wakes_all_that_wait(rt: HostRuntime) -> Result<(), Fail> {
    for run in 0..300u64 {
        let places = 2 + run % 2;
        let seen = open_for_two(&rt, rt.alloc(), places)?;
        assert_eq!(rt; seen.closed, WRITER_ALONE);
        assert!(rt; seen.is_empty);
        let (first, second) = seen.inside;
        assert!(rt; 1 <= first && first <= places && 1 <= second && second <= places);
    }
    assert!(rt; open_for_two(&rt, rt.alloc(), 0) == Err(Fault::BadLimits));
    Ok(())
}
