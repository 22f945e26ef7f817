//! An upgradable guard of a pair, beside a reader and then alone, which ends as the guard of a part.
use crate::tests::is_refused;
use lock_raws::WordRaw;
use lock_raws_monitor::TokenRaw;
use lock_rwlock::{RwLock, RwLockReadGuard, RwLockUpgradableReadGuard, RwLockWriteGuard};
use lock_test_support::answer::equal;
use lock_test_support::project::Item0;
use lock_traits::{RawRwLockUpgradeDowngrade, RawRwLockUpgradeTimed};
use std::alloc::Global;
use std::cell::Cell;
use std::test::Fail;

type Pair = (u64, u64);

/// The answers of `try_with_upgraded`, `try_with_upgraded_for` and `try_with_upgraded_until`, and how often the closure
/// was called so far.
type Applied = ([Option<u64>; 3], u64);

/// Adds 1 to the first item by each try, and counts the calls of the closure.
fn add_by_each_try<
    R: RawRwLockUpgradeTimed<Duration = (), Instant = ()> + RawRwLockUpgradeDowngrade,
>(guard: &mut RwLockUpgradableReadGuard<'_, R, Pair>, calls: &Cell<u64>) -> Applied {
    let add = |pair: &mut Pair| {
        calls.set(calls.get().wrapping_add(1));
        pair.0 = pair.0.wrapping_add(1);
        pair.0
    };
    let answers = [
        guard.try_with_upgraded(add),
        guard.try_with_upgraded_for((), add),
        guard.try_with_upgraded_until((), add),
    ];
    (answers, calls.get())
}

/// The guard, after each try to upgrade it was refused.
fn refused_by_each_try<'a, R: RawRwLockUpgradeTimed<Duration = (), Instant = ()>>(
    guard: RwLockUpgradableReadGuard<'a, R, Pair>,
) -> Option<RwLockUpgradableReadGuard<'a, R, Pair>> {
    let guard = RwLockUpgradableReadGuard::try_upgrade(guard).err()?;
    let guard = RwLockUpgradableReadGuard::try_upgrade_for(guard, ()).err()?;
    RwLockUpgradableReadGuard::try_upgrade_until(guard, ()).err()
}

/// The first item, by the guard of a part that the guard becomes.
fn item_after_upgrades<
    R: RawRwLockUpgradeTimed<Duration = (), Instant = ()> + RawRwLockUpgradeDowngrade,
>(guard: RwLockUpgradableReadGuard<'_, R, Pair>) -> Option<u64> {
    let writer = RwLockUpgradableReadGuard::upgrade(guard);
    let guard = RwLockWriteGuard::downgrade_to_upgradable(writer);
    let writer = RwLockUpgradableReadGuard::try_upgrade_for(guard, ()).ok()?;
    let part = RwLockReadGuard::map(RwLockWriteGuard::downgrade(writer), Item0);
    Some(*part)
}

/// What the tries answered beside a reader, the guard that each try to upgrade it returned, and whether another upgradable
/// guard was refused.
type Beside<'a, R> = (
    Applied,
    Option<RwLockUpgradableReadGuard<'a, R, Pair>>,
    bool,
);

fn beside_a_reader<
    'a,
    R: RawRwLockUpgradeTimed<Duration = (), Instant = ()> + RawRwLockUpgradeDowngrade,
>(
    lock: &'a RwLock<R, Pair>,
    guard: RwLockUpgradableReadGuard<'a, R, Pair>,
    calls: &Cell<u64>,
) -> Beside<'a, R> {
    let mut guard = guard;
    let reader = lock.read();
    let applied = add_by_each_try(&mut guard, calls);
    let back = refused_by_each_try(guard);
    let is_refused = is_refused(lock.try_upgradable_read());
    drop(reader);
    (applied, back, is_refused)
}

/// What the tries answered beside a reader and alone, whether another upgradable guard was refused, the part, and whether
/// the lock is held in the end.
type Seen = (Applied, bool, Applied, u64, bool);

fn upgrades<R: RawRwLockUpgradeTimed<Duration = (), Instant = ()> + RawRwLockUpgradeDowngrade>(
    lock: &RwLock<R, Pair>,
) -> Option<Seen> {
    let calls = Cell::new(0_u64);
    let (beside, back, is_refused) = beside_a_reader(lock, lock.upgradable_read(), &calls);
    let mut guard = back?;
    let alone = add_by_each_try(&mut guard, &calls);
    let item = item_after_upgrades(guard)?;
    Some((beside, is_refused, alone, item, lock.is_locked()))
}

const WANTED: Option<Seen> = Some((
    ([None; 3], 0),
    true,
    ([Some(2), Some(3), Some(4)], 3),
    4,
    false,
));

fn check<R>(name: &str, alloc: Global, waiter: R::Waiter) -> Result<(), Fail>
where
    R: RawRwLockUpgradeTimed<Duration = (), Instant = ()> + RawRwLockUpgradeDowngrade + Drop,
{
    let lock: RwLock<R, Pair> = RwLock::with_readers(alloc, waiter, 8, (1, 2))?;
    equal((name, upgrades(&lock)), (name, WANTED))
}

#[test]
fn a_refused_upgrade_calls_nothing(rt: HostRuntime) -> Result<(), Fail> {
    check::<TokenRaw<HostRuntime>>("over a table", rt.alloc(), rt)?;
    check::<WordRaw<HostRuntime>>("over a word", rt.alloc(), rt)
}
