//! The order in which a mutex locks its raw lock and the value's lock.
use lock_mutex::{Mutex, MutexGuard};
use lock_recorder::CallLog;
use lock_test_support::raw_lock::AdmitsAll;
use lock_test_support::{wait_for_calls, wait_for_flag};
use lock_traits::RawMutex;
use std::sync::Wait;
use std::sync::atomic::{AtomicBool, Ordering};
use std::test::Fail;
use std::thread;

/// Once the raw lock got this many calls, holds the value's lock until two more came, and then writes 5.
fn write_once_another_asked<W: Wait, R: RawMutex>(
    mutex: &Mutex<R, u64>,
    waiter: &W,
    calls: &CallLog,
    is_held: &AtomicBool,
    before: usize,
) {
    wait_for_calls(waiter, calls, before);
    let mut guard = mutex.lock();
    is_held.store(true, Ordering::SeqCst);
    wait_for_calls(waiter, calls, before.wrapping_add(2));
    *guard = 5;
}

/// What another thread reads, which acquires the mutex once the value's lock is held. It acquires it again if it did
/// before.
fn read_once_held<W: Wait, R: RawMutex>(
    mutex: &Mutex<R, u64>,
    waiter: &W,
    is_held: &AtomicBool,
    is_again: bool,
) -> u64 {
    if !is_again {
        wait_for_flag(waiter, is_held);
    }
    let mut guard = mutex.lock();
    if is_again {
        MutexGuard::unlocked(&mut guard, || wait_for_flag(waiter, is_held));
    }
    *guard
}

/// It ends only if a thread calls the raw lock before it locks the value's lock, also on its way back from `unlocked`.
#[test]
fn the_raw_lock_is_asked_before_the_value_is_taken(rt: HostRuntime) -> Result<(), Fail> {
    // by `unlocked`, the reader made two calls before
    for (is_again, before) in [(false, 0), (true, 2)] {
        let raw: AdmitsAll<HostRuntime> = RawMutex::new(rt.alloc(), rt)?;
        let calls = raw.log()?;
        let mutex = Mutex::from_raw(raw, 0)?;
        let is_held = AtomicBool::new(false);
        let ((), read) = thread::join(
            &rt,
            || write_once_another_asked(&mutex, &rt, &calls, &is_held, before),
            || read_once_held(&mutex, &rt, &is_held, is_again),
        );
        assert_eq!(rt; read, 5, "by unlocked: {is_again}");
    }
    Ok(())
}
