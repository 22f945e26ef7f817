//! The exclusive mode: one holder, who reads and writes.
use super::{FairMode, LockMode, ShowMode};
use crate::lock::RwLock;
use lock_traits::{RawRwLock, RawRwLockFair};
use std::sync;

/// The mode of a write guard.
#[derive(Clone, Copy, Debug)]
pub struct Exclusive;

impl<R: RawRwLock> LockMode<R> for Exclusive {
    type Token = R::ExclusiveGuard;

    ghost is_own = { R.owns_exclusive };

    fn acquire(raw: &R) -> R::ExclusiveGuard {
        raw.lock_exclusive()
    }

    fn release(raw: &R, token: R::ExclusiveGuard) {
        raw.unlock_exclusive(token);
    }
}

impl<R: RawRwLockFair> FairMode<R> for Exclusive {
    fn release_fair(raw: &R, token: R::ExclusiveGuard) {
        raw.unlock_exclusive_fair(token);
    }

    fn bump(raw: &R, token: R::ExclusiveGuard) -> R::ExclusiveGuard {
        raw.bump_exclusive(token)
    }
}

impl<'a, R: RawRwLock, T: 'a> ShowMode<'a, R, T> for Exclusive {
    type Shown = sync::RwLockWriteGuard<'a, T>;

    fn try_lock_value(rwlock: &'a RwLock<R, T>) -> Option<sync::RwLockWriteGuard<'a, T>> {
        rwlock.value.try_write()
    }

    /// Kept off the uncontended path.
    #[cold]
    #[inline(never)]
    fn block_on_value(rwlock: &'a RwLock<R, T>) -> sync::RwLockWriteGuard<'a, T> {
        rwlock.value.write(rwlock.raw.waiter())
    }
}
