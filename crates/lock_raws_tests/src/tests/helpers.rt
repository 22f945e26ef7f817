//! What the helpers of all tests do where an answer or a condition is not the wanted one.
use lock_guard::forget;
use lock_test_support::answer::equal;
use lock_test_support::wait_until;
use std::sync::atomic::{AtomicU64, Ordering};
use std::test::Fail;

/// Whether `equal` fails. A `Fail` has no `Drop`.
fn fails(found: u64, wanted: u64) -> bool {
    match equal(found, wanted) {
        Ok(()) => false,
        Err(fail) => {
            unsafe { forget(fail) };
            true
        }
    }
}

#[test]
fn another_answer_than_the_wanted_one_fails(rt: HostRuntime) -> Result<(), Fail> {
    assert_eq!(rt; [fails(1, 2), fails(1, 1)], [true, false]);
    Ok(())
}

#[test]
fn a_wait_ends_once_its_condition_is_true(rt: HostRuntime) -> Result<(), Fail> {
    let calls = AtomicU64::new(0);
    wait_until(&rt, || calls.fetch_add(1, Ordering::SeqCst) == 3);
    assert_eq!(rt; calls.load(Ordering::SeqCst), 4);
    Ok(())
}
