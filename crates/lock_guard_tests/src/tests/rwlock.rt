//! The reader-writer lock and its guards.
mod arc;
mod makers;
mod order;
mod raw_calls;
mod texts;
mod threads;
mod upgrades;

use crate::tests::Table;
use lock_modes::Fault;
use lock_raws::{LockCore, RawLock};
use lock_recorder::Recorder;
use lock_rwlock::RwLock;
use lock_test_support::answer::equal;
use lock_test_support::project::Nested;
use lock_test_support::raw_lock::CallWatch;
use lock_traits::{RawRwLock, RawRwLockFair, RawRwLockUpgradeDowngrade, RawRwLockUpgradeTimed};
use std::alloc::Global;
use std::sync::Arc;
use std::test::Fail;

/// A lock over a raw lock whose calls are watched.
fn watched<R: RawRwLock + Drop, T: Drop>(
    alloc: Global,
    waiter: R::Waiter,
    value: T,
) -> Result<(RwLock<Recorder<R>, T>, CallWatch), Fault> {
    let raw: Recorder<R> = RawRwLock::new(alloc, waiter, 8)?;
    let watch = CallWatch::new(raw.log()?);
    Ok((RwLock::from_raw(raw, value)?, watch))
}

/// Guards of a pair in a pair, and the end of a lock.
fn check_pair<R>(
    alloc: Global,
    (mut lock, mut watch): (RwLock<R, Nested>, CallWatch),
) -> Result<(), Fail>
where
    R: RawRwLockFair
        + RawRwLockUpgradeDowngrade
        + RawRwLockUpgradeTimed<Duration = u64, Instant = u64>
        + Drop,
{
    let [read, written] = texts::parts_print(alloc, &lock, &mut watch);
    raw_calls::check(&lock, &mut watch);
    *lock.get_mut() = ((5, 2), 1);
    let (raw, value) = lock.into_inner_with_raw();
    let value = RwLock::from_raw(raw, value)?.into_inner();
    watch.saw(&[]);
    watch.verdict()?;
    let shown = [
        ("MappedRwLockReadGuard", read),
        ("MappedRwLockWriteGuard", written),
    ];
    let wanted = [
        ("MappedRwLockReadGuard", true),
        ("MappedRwLockWriteGuard", true),
    ];
    equal((shown, value), (wanted, ((5, 2), 1)))
}

/// Guards of a number, `Arc` guards among them, and the end of the last reference.
fn check_number<R>(
    alloc: Global,
    (lock, mut watch): (RwLock<R, u64>, CallWatch),
) -> Result<(), Fail>
where
    R: RawRwLockUpgradeDowngrade + RawRwLockUpgradeTimed<Duration = u64, Instant = u64> + Drop,
{
    let lock = Arc::new(alloc, lock)?;
    texts::check(alloc, &lock, &mut watch)?;
    arc::check(&lock, &mut watch)?;
    order::check(&lock, &mut watch)?;
    drop(lock);
    watch.saw(&[]);
    watch.verdict()
}

fn check<C: LockCore<Duration = (), Instant = ()>>(
    alloc: Global,
    makers: [C::Waiter; 4],
    [pair, number]: [C::Waiter; 2],
) -> Result<(), Fail> {
    makers::check::<RawLock<C>>(alloc, makers)?;
    check_pair(
        alloc,
        watched::<RawLock<C>, Nested>(alloc, pair, ((0, 0), 5))?,
    )?;
    check_number(alloc, watched::<RawLock<C>, u64>(alloc, number, 5)?)
}

#[test]
fn guards_on_one_thread(rt: HostRuntime) -> Result<(), Fail> {
    check::<Table>(rt.alloc(), [rt; 4], [rt; 2])
}
