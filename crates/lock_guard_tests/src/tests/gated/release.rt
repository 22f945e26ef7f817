//! The order in which a mutex unlocks the value's lock and its raw lock.
use super::Gated;
use lock_mutex::{Mutex, MutexGuard};
use lock_test_support::wait_for_flag;
use lock_traits::{RawMutex, RawMutexFair};
use std::sync::Wait;
use std::sync::atomic::{AtomicBool, Ordering};
use std::test::Fail;
use std::thread;

/// How a guard releases its mutex.
#[derive(Clone, Copy)]
enum HoldEnd {
    Drop,
    UnlockFair,
    Bump,
}

/// Writes the value, and releases the mutex.
fn write_and_end<R: RawMutexFair>(mutex: &Mutex<R, u64>, is_held: &AtomicBool, end: HoldEnd) {
    let mut guard = mutex.lock();
    is_held.store(true, Ordering::SeqCst);
    *guard = 5;
    match end {
        HoldEnd::Drop => drop(guard),
        HoldEnd::UnlockFair => MutexGuard::unlock_fair(guard),
        HoldEnd::Bump => {
            MutexGuard::bump(&mut guard);
            drop(guard);
        }
    }
}

/// What another thread reads, after which releases of the raw lock end.
fn read_before_release<W: Wait, R: RawMutex>(
    mutex: &Mutex<R, u64>,
    waiter: &W,
    is_held: &AtomicBool,
) -> u64 {
    wait_for_flag(waiter, is_held);
    let guard = mutex.lock();
    mutex.is_locked();
    *guard
}

/// It ends only if a guard's drop, and a bump, release the value's lock before the raw lock.
#[test]
fn the_value_is_given_back_before_the_raw_lock(rt: HostRuntime) -> Result<(), Fail> {
    for (name, end) in [
        ("drop", HoldEnd::Drop),
        ("unlock_fair", HoldEnd::UnlockFair),
        ("bump", HoldEnd::Bump),
    ] {
        let mutex: Mutex<Gated<HostRuntime>, u64> = Mutex::new(rt.alloc(), rt, 0)?;
        let is_held = AtomicBool::new(false);
        let ((), read) = thread::join(
            &rt,
            || write_and_end(&mutex, &is_held, end),
            || read_before_release(&mutex, &rt, &is_held),
        );
        assert_eq!(rt; read, 5, "{name}");
    }
    Ok(())
}
