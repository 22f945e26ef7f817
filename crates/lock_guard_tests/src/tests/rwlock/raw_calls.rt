//! What the raw lock is asked by guards that borrow the lock, where no script of `conform/` makes the call.
use lock_guard::guard::{AcquireFair, ValueGuard, ValueGuardMut};
use lock_modes::Mode::{self, Exclusive, Shared, Upgradable};
use lock_recorder::RawCall::{
    self, DowngradeToUpgradable, IsLocked, Lock, TryUpgrade, TryUpgradeFor, TryUpgradeUntil,
    Unlock, UnlockFair, Upgrade,
};
use lock_rwlock::{
    Mappable, RwLock, RwLockGuard, RwLockReadGuard, RwLockUpgradableReadGuard, RwLockWriteGuard,
};
use lock_test_support::project::{Item0, Nested, inner_item};
use lock_test_support::raw_lock::{
    AdmitsAll, CallWatch, MAPS, MapCall, watch_fair_end, watch_write,
};
use lock_traits::{
    RawRwLock, RawRwLockFair, RawRwLockUpgrade, RawRwLockUpgradeDowngrade, RawRwLockUpgradeFair,
    RawRwLockUpgradeTimed,
};
use std::alloc::Global;
use std::clone::Clone;
use std::sync::Wait;
use std::test::Fail;

/// A pair in a pair behind a lock.
type Paired<R> = RwLock<R, Nested>;

/// A guard names its lock.
fn names<R: RawRwLock>(lock: &Paired<R>, watch: &mut CallWatch) {
    let reader = lock.read();
    RwLockReadGuard::rwlock(&reader);
    watch.saw_hold(reader, Shared);
    let writer = lock.write();
    RwLockWriteGuard::rwlock(&writer);
    watch.saw_hold(writer, Exclusive);
}

/// Maps a guard, which was just acquired in the mode.
fn watch_map<L: Mappable + AcquireFair>(
    guard: RwLockGuard<L>,
    call: MapCall,
    mode: Mode,
    watch: &mut CallWatch,
)
where
    L::Shown: ValueGuard<Value = Nested>,
{
    match call {
        MapCall::Map => watch.saw_hold(RwLockGuard::map(guard, Item0), mode),
        MapCall::MapEnd => watch_fair_end(RwLockGuard::map(guard, Item0), mode, watch),
        MapCall::TryMap(index) => {
            watch.saw_hold(RwLockGuard::try_map(guard, inner_item(index)), mode);
        }
        MapCall::TryMapOrErr(index) => {
            watch.saw_hold(RwLockGuard::try_map_or_err(guard, inner_item(index)), mode);
        }
    }
}

/// Maps and writes such a guard.
fn map_and_write<L: Mappable>(guard: RwLockGuard<L>, mode: Mode, watch: &mut CallWatch)
where
    L::Shown: ValueGuard<Value = Nested> + ValueGuardMut,
{
    watch_write(RwLockGuard::map(guard, Item0), mode, watch);
}

/// Maps guards. What a mapped guard asks by itself is one code for all locks, and asked of a mutex.
fn maps<R: RawRwLockFair>(lock: &Paired<R>, watch: &mut CallWatch) {
    for call in MAPS {
        watch_map(lock.read(), call, Shared, watch);
    }
    map_and_write(lock.write(), Exclusive, watch);
}

/// Calls under an upgraded guard. Each closure looks at the raw lock.
fn calls_under_an_upgrade<
    R: RawRwLockUpgradeTimed<Duration = u64, Instant = u64> + RawRwLockUpgradeDowngrade,
>(lock: &Paired<R>) {
    let mut guard = lock.upgradable_read();
    RwLockUpgradableReadGuard::rwlock(&guard);
    let looks = |_: &mut Nested| lock.is_locked();
    guard.with_upgraded(looks);
    guard.try_with_upgraded(looks);
    guard.try_with_upgraded_for(3, looks);
    guard.try_with_upgraded_until(4, looks);
}

/// The raw calls of a guard and its calls under an upgrade, each of which looks at the raw lock.
pub const UNDER_AN_UPGRADE: [RawCall; 14] = [
    Lock(Upgradable),
    Upgrade,
    IsLocked,
    DowngradeToUpgradable,
    TryUpgrade,
    IsLocked,
    DowngradeToUpgradable,
    TryUpgradeFor(3),
    IsLocked,
    DowngradeToUpgradable,
    TryUpgradeUntil(4),
    IsLocked,
    DowngradeToUpgradable,
    Unlock(Upgradable),
];

/// All of these, on a lock that is free before and after each.
pub fn check<
    R: RawRwLockUpgradeTimed<Duration = u64, Instant = u64>
        + RawRwLockFair
        + RawRwLockUpgradeDowngrade,
>(lock: &Paired<R>, watch: &mut CallWatch) {
    names(lock, watch);
    maps(lock, watch);
    calls_under_an_upgrade(lock);
    watch.saw(&UNDER_AN_UPGRADE);
}

/// A lock, a bump and an unlock in the mode.
fn bumped(mode: Mode) -> [RawCall; 4] {
    [Lock(mode), UnlockFair(mode), Lock(mode), Unlock(mode)]
}

fn watch_bumps<R: RawRwLockUpgradeFair>(raw: &R, watch: &mut CallWatch) {
    raw.unlock_shared(raw.bump_shared(raw.lock_shared()));
    watch.saw(&bumped(Shared));
    raw.unlock_exclusive(raw.bump_exclusive(raw.lock_exclusive()));
    watch.saw(&bumped(Exclusive));
    raw.unlock_upgradable(raw.bump_upgradable(raw.lock_upgradable()));
    watch.saw(&bumped(Upgradable));
}

fn check_bumps<W: Wait + Clone + Drop>(alloc: Global, waiter: W) -> Result<(), Fail> {
    let raw: AdmitsAll<W> = RawRwLock::new(alloc, waiter, 1)?;
    let mut watch = CallWatch::new(raw.log()?);
    watch_bumps(&raw, &mut watch);
    watch.verdict()
}

#[test]
fn a_bump_by_default_is_a_fair_unlock_and_a_lock(rt: HostRuntime) -> Result<(), Fail> {
    check_bumps(rt.alloc(), rt)
}
