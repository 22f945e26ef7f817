//! The shared mode: many holders, who read.
use super::{FairMode, LockMode, ShowMode};
use crate::lock::RwLock;
use lock_traits::{RawRwLock, RawRwLockFair};
use std::sync;

/// The mode of a read guard.
#[derive(Clone, Copy, Debug)]
pub struct Shared;

impl<R: RawRwLock> LockMode<R> for Shared {
    type Token = R::SharedGuard;

    ghost is_own = { R.owns_shared };

    fn acquire(raw: &R) -> R::SharedGuard {
        raw.lock_shared()
    }

    fn release(raw: &R, token: R::SharedGuard) {
        raw.unlock_shared(token);
    }
}

impl<R: RawRwLockFair> FairMode<R> for Shared {
    fn release_fair(raw: &R, token: R::SharedGuard) {
        raw.unlock_shared_fair(token);
    }

    fn bump(raw: &R, token: R::SharedGuard) -> R::SharedGuard {
        raw.bump_shared(token)
    }
}

impl<'a, R: RawRwLock, T: 'a> ShowMode<'a, R, T> for Shared {
    type Shown = sync::RwLockReadGuard<'a, T>;

    fn try_lock_value(rwlock: &'a RwLock<R, T>) -> Option<sync::RwLockReadGuard<'a, T>> {
        rwlock.value.try_read()
    }

    /// Kept off the uncontended path.
    #[cold]
    #[inline(never)]
    fn block_on_value(rwlock: &'a RwLock<R, T>) -> sync::RwLockReadGuard<'a, T> {
        rwlock.value.read(rwlock.raw.waiter())
    }
}
