//! The upgradable mode: one holder, who reads next to the shared ones.
use super::{FairMode, LockMode, ShowMode};
use crate::lock::RwLock;
use lock_traits::{RawRwLockUpgrade, RawRwLockUpgradeFair};
use std::sync;

/// The mode of an upgradable read guard.
#[derive(Clone, Copy, Debug)]
pub struct Upgradable;

impl<R: RawRwLockUpgrade> LockMode<R> for Upgradable {
    type Token = R::UpgradableGuard;

    ghost is_own = { R.owns_upgradable };

    fn acquire(raw: &R) -> R::UpgradableGuard {
        raw.lock_upgradable()
    }

    fn release(raw: &R, token: R::UpgradableGuard) {
        raw.unlock_upgradable(token);
    }
}

impl<R: RawRwLockUpgradeFair> FairMode<R> for Upgradable {
    fn release_fair(raw: &R, token: R::UpgradableGuard) {
        raw.unlock_upgradable_fair(token);
    }

    fn bump(raw: &R, token: R::UpgradableGuard) -> R::UpgradableGuard {
        raw.bump_upgradable(token)
    }
}

impl<'a, R: RawRwLockUpgrade, T: 'a> ShowMode<'a, R, T> for Upgradable {
    type Shown = sync::RwLockReadGuard<'a, T>;

    fn try_lock_value(rwlock: &'a RwLock<R, T>) -> Option<sync::RwLockReadGuard<'a, T>> {
        rwlock.value.try_read()
    }

    /// Kept off the uncontended path.
    #[cold]
    #[inline(never)]
    fn block_on_value(rwlock: &'a RwLock<R, T>) -> sync::RwLockReadGuard<'a, T> {
        rwlock.value.read(rwlock.raw.waiter())
    }
}
