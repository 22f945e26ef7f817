//! What a caller knows of a reader-writer lock.
ghost use Rattle.std.specs.Prelude.{◌≡◌, IfSome};

use lock_api::{
    RawRwLock, RawRwLockUpgradeDowngrade, RwLock, RwLockReadGuard, RwLockUpgradableReadGuard,
    RwLockWriteGuard,
};

/// What is written through a guard is what it reads next.
pub fn write_and_read<R: RawRwLock>(lock: &RwLock<R, u64>, value: u64) -> u64
    ensures { result ≡ value }
{
    let mut guard = lock.write();
    *guard = value;
    *guard
}

/// A read guard reads one value until it is released.
pub fn read_twice<R: RawRwLock>(guard: &RwLockReadGuard<'_, R, u64>) -> (u64, u64)
    ensures { result.0 ≡ result.1 }
{
    (**guard, **guard)
}

/// The closure's answer is returned.
pub fn answer_unlocked<R: RawRwLock>(lock: &RwLock<R, u64>, answer: u64) -> u64
    ensures { result ≡ answer }
{
    let mut guard = lock.read();
    RwLockReadGuard::unlocked(&mut guard, || answer)
}

/// The closure's answer is returned if the guard was upgraded.
pub fn swap_in<R: RawRwLockUpgradeDowngrade>(lock: &RwLock<R, u64>, value: u64) -> Option<u64>
    ensures { IfSome result (λ answer. answer ≡ value) }
{
    let mut guard = lock.upgradable_read();
    guard.try_with_upgraded(|held| {
        *held = value;
        *held
    })
}

/// The guard keeps its lock through all changes of mode.
pub fn same_lock_after_all<'a, R: RawRwLockUpgradeDowngrade>(
    lock: &'a RwLock<R, u64>,
) -> &'a RwLock<R, u64>
    ensures { result.ref_ptr ≡ lock.entry.ref_ptr }
{
    let guard = RwLockWriteGuard::downgrade_to_upgradable(lock.write());
    let mut guard = match RwLockUpgradableReadGuard::try_upgrade(guard) {
        Ok(writer) => RwLockWriteGuard::downgrade(writer),
        Err(same) => RwLockUpgradableReadGuard::downgrade(same),
    };
    RwLockReadGuard::unlocked(&mut guard, || ());
    RwLockReadGuard::rwlock(&guard)
}
