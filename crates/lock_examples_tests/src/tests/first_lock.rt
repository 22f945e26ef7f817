//! The first locks, by names that fix their raw lock.
use crate::tests::in_threads::twice;
use lock_api::raw::{LockCore, RawLock};
use lock_api::{FairMutex, RwLock, RwLockUpgradableReadGuard, WordMutex, WordRwLock};
use std::test::Fail;
use std::thread;

#[test]
fn a_value_is_locked(rt: HostRuntime) -> Result<(), Fail> {
    let count = WordMutex::new(rt.alloc(), rt, 0u64)?;
    let mut guard = count.lock();
    *guard = 5;
    assert!(rt; count.try_lock().is_none());
    drop(guard);
    assert_eq!(rt; *count.lock(), 5);
    Ok(())
}

#[test]
fn two_threads_share_a_mutex(rt: HostRuntime) -> Result<(), Fail> {
    let count = WordMutex::new(rt.alloc(), rt, 0u64)?;
    thread::join(
        &rt,
        || count.with(|value| *value = value.wrapping_add(2)),
        || count.with(|value| *value = value.wrapping_add(3)),
    );
    assert_eq!(rt; count.with(|value| *value), 5);
    Ok(())
}

#[test]
fn two_threads_share_a_fair_mutex(rt: HostRuntime) -> Result<(), Fail> {
    let count = FairMutex::new(rt.alloc(), rt, 0u64)?;
    assert_eq!(rt; twice(&rt, &count), (1_000, 1_000));
    assert_eq!(rt; count.into_inner(), 2_000);
    Ok(())
}

/// What a reader reads of a lock of 7 while another reader holds it, and what one reads after a write of 8. Then whether
/// the lock is held.
fn seen_around_a_write<C: LockCore>(lock: RwLock<RawLock<C>, u64>) -> ([u64; 2], bool) {
    let reader = lock.read();
    let before = lock.with_read(|value| *value);
    drop(reader);
    lock.with_write(|value| *value = 8);
    let after = lock.with_read(|value| *value);
    ([before, after], lock.is_locked())
}

#[test]
fn readers_and_a_writer_run_closures(rt: HostRuntime) -> Result<(), Fail> {
    let lock = WordRwLock::new(rt.alloc(), rt, 7u64)?;
    assert_eq!(rt; seen_around_a_write(lock), ([7, 8], false));
    Ok(())
}

/// What a downgraded guard reads. Then whether the lock admits a writer next to it, an upgradable reader next to it, and a
/// writer after its end.
fn next_to_a_downgraded_guard<C: LockCore>(lock: RwLock<RawLock<C>, u64>) -> (u64, [bool; 3]) {
    let reader = RwLockUpgradableReadGuard::downgrade(lock.upgradable_read());
    let writes = lock.try_write().is_some();
    let upgrades = lock.try_upgradable_read().is_some();
    let value = *reader;
    drop(reader);
    (value, [writes, upgrades, lock.try_write().is_some()])
}

#[test]
fn a_downgraded_guard_shows_the_value(rt: HostRuntime) -> Result<(), Fail> {
    let lock = WordRwLock::new(rt.alloc(), rt, 7u64)?;
    assert_eq!(rt; next_to_a_downgraded_guard(lock), (7, [false, true, true]));
    Ok(())
}
