//! Guards that own a reference to a reader-writer lock.
use super::raw_calls::UNDER_AN_UPGRADE;
use lock_modes::Fault;
use lock_modes::Mode::Shared;
use lock_recorder::RawCall::{Lock, Unlock};
use lock_rwlock::{ArcRwLockGuard, ArcRwLockReadGuard, RwLock};
use lock_test_support::answer::equal;
use lock_test_support::raw_lock::CallWatch;
use lock_traits::{RawRwLock, RawRwLockUpgradeDowngrade, RawRwLockUpgradeTimed};
use std::sync::Arc;
use std::test::Fail;

type Owned<R> = Arc<RwLock<R, u64>>;

/// The sum of what two guards read at a time. It ends only if neither holds the value's lock exclusively.
fn sum<R: RawRwLock + Drop>(
    first: &ArcRwLockReadGuard<R, u64>,
    second: &ArcRwLockReadGuard<R, u64>,
) -> u64 {
    ArcRwLockReadGuard::with(
        first,
        |one| ArcRwLockReadGuard::with(second, |other| one.wrapping_add(*other)),
    )
}

fn read_by_two<R: RawRwLock + Drop>(lock: &Owned<R>) -> Result<u64, Fault> {
    let first = RwLock::read_arc(lock)?;
    let second = RwLock::read_arc(lock)?;
    Ok(sum(&first, &second))
}

/// Calls under an upgraded guard, whose closure looks at the raw lock.
fn calls_under_an_upgrade<
    R: RawRwLockUpgradeTimed<Duration = u64, Instant = u64> + RawRwLockUpgradeDowngrade + Drop,
>(lock: &Owned<R>) -> Result<(), Fault> {
    let mut guard = RwLock::upgradable_read_arc(lock)?;
    ArcRwLockGuard::rwlock(&guard);
    let looks = |_: &mut u64| lock.is_locked();
    guard.with_upgraded(looks);
    guard.try_with_upgraded(looks);
    guard.try_with_upgraded_for(3, looks);
    guard.try_with_upgraded_until(4, looks);
    Ok(())
}

/// Guards of a lock of 5, whose calls are watched from here on.
pub fn check<
    R: RawRwLockUpgradeTimed<Duration = u64, Instant = u64> + RawRwLockUpgradeDowngrade + Drop,
>(lock: &Owned<R>, watch: &mut CallWatch) -> Result<(), Fail> {
    calls_under_an_upgrade(lock)?;
    watch.saw(&UNDER_AN_UPGRADE);
    let sum = read_by_two(lock)?;
    watch.saw(&[Lock(Shared), Lock(Shared), Unlock(Shared), Unlock(Shared)]);
    equal(sum, 10)
}
