//! The order in which a lock locks and unlocks its raw lock and the value's lock.
use lock_guard::guard::Acquire;
use lock_modes::Mode::{self, Exclusive, Shared, Upgradable};
use lock_recorder::CallLog;
use lock_recorder::RawCall::{Lock, Unlock};
use lock_rwlock::{RwLock, RwLockGuard};
use lock_test_support::answer::equal;
use lock_test_support::raw_lock::{AdmitsAll, CallWatch};
use lock_test_support::{wait_for_calls, wait_for_flag};
use lock_traits::{RawRwLock, RawRwLockUpgrade};
use std::sync::Wait;
use std::sync::atomic::{AtomicBool, Ordering};
use std::test::Fail;
use std::thread;

fn add_one<R: RawRwLock>(lock: &RwLock<R, u64>) {
    lock.with_write(|value| *value = value.wrapping_add(1));
}

/// Adds 1 to the value while the guard, which was just acquired in the mode, is unlocked. It ends only if nothing is held
/// then.
fn add_while_unlocked<R: RawRwLock, L: Acquire>(
    lock: &RwLock<R, u64>,
    guard: RwLockGuard<L>,
    mode: Mode,
    watch: &mut CallWatch,
) {
    let mut guard = guard;
    watch.saw(&[Lock(mode)]);
    RwLockGuard::unlocked(&mut guard, || add_one(lock));
    watch.saw(&[Unlock(mode), Lock(Exclusive), Unlock(Exclusive), Lock(mode)]);
    drop(guard);
    watch.saw(&[Unlock(mode)]);
}

/// A guard in each mode is unlocked, of a lock of 5.
pub fn check<R: RawRwLockUpgrade>(
    lock: &RwLock<R, u64>,
    watch: &mut CallWatch,
) -> Result<(), Fail> {
    add_while_unlocked(lock, lock.read(), Shared, watch);
    add_while_unlocked(lock, lock.write(), Exclusive, watch);
    add_while_unlocked(lock, lock.upgradable_read(), Upgradable, watch);
    let value = lock.with_read(|value| *value);
    watch.saw(&[Lock(Shared), Unlock(Shared)]);
    equal(value, 8)
}

/// Holds the value's lock until the raw lock got one more call, and then writes the value.
fn write_once_another_asked<W: Wait, R: RawRwLock>(
    lock: &RwLock<R, u64>,
    waiter: &W,
    calls: &CallLog,
    is_held: &AtomicBool,
) {
    lock.with_write(|value| {
        is_held.store(true, Ordering::SeqCst);
        wait_for_calls(waiter, calls, 2);
        *value = 5;
    });
}

/// What another thread finds, which acquires exclusively once the value's lock is held.
fn find_once_held<W: Wait, R: RawRwLock>(
    lock: &RwLock<R, u64>,
    waiter: &W,
    is_held: &AtomicBool,
) -> u64 {
    wait_for_flag(waiter, is_held);
    lock.with_write(|value| *value)
}

/// It ends only if a thread calls the raw lock before it locks the value's lock.
#[test]
fn the_raw_lock_is_asked_before_the_value_is_taken(rt: HostRuntime) -> Result<(), Fail> {
    let raw: AdmitsAll<HostRuntime> = RawRwLock::new(rt.alloc(), rt, 1)?;
    let calls = raw.log()?;
    let is_held = AtomicBool::new(false);
    let lock = RwLock::from_raw(raw, 0)?;
    let ((), found) = thread::join(
        &rt,
        || write_once_another_asked(&lock, &rt, &calls, &is_held),
        || find_once_held(&lock, &rt, &is_held),
    );
    assert_eq!(rt; found, 5);
    Ok(())
}
