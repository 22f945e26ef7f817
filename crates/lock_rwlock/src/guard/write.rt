//! The write guard.
ghost use Rattle.std.specs.Prelude.{◌≡◌};
ghost use Rattle.lock_rwlock.specs.RwLockGuard.{SameLock};

use super::{RwLockGuard, RwLockReadGuard, RwLockUpgradableReadGuard, guard};
use crate::mode::{Exclusive, InMode};
use lock_traits::{RawRwLockDowngrade, RawRwLockUpgradeDowngrade};

/// A write guard: it reads and writes the value, and releases the lock on drop.
pub type RwLockWriteGuard<'a, R, T> = RwLockGuard<InMode<'a, Exclusive, R, T>>;

impl<'a, R: RawRwLockDowngrade, T> RwLockGuard<InMode<'a, Exclusive, R, T>> {
    /// Downgrades the guard to a read guard.
    pub fn downgrade(guard: Self) -> RwLockReadGuard<'a, R, T>
        ensures { SameLock guard.entry result }
    {
        let (rwlock, token) = guard.into_token();
        guard!(rwlock, rwlock.raw.downgrade(token))
    }
}

impl<'a, R: RawRwLockUpgradeDowngrade, T> RwLockGuard<InMode<'a, Exclusive, R, T>> {
    /// Downgrades the guard to an upgradable read guard.
    pub fn downgrade_to_upgradable(guard: Self) -> RwLockUpgradableReadGuard<'a, R, T>
        ensures { SameLock guard.entry result }
    {
        let (rwlock, token) = guard.into_token();
        guard!(rwlock, rwlock.raw.downgrade_to_upgradable(token))
    }
}
