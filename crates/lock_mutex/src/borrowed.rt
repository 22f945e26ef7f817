//! A borrowed mutex.
use crate::Mutex;
use lock_guard::guard::{Acquire, AcquireFair, Release};
use lock_traits::{RawMutex, RawMutexFair};
use std::sync;

/// A reference to a mutex, as its guard sees it.
#[derive_where(Clone, Copy)]
pub struct BorrowedMutex<'a, R, T> {
    pub(crate) mutex: &'a Mutex<R, T>,
}

impl<R: RawMutex, T> Release for BorrowedMutex<'_, R, T> {
    type Token = R::Guard;

    type Waiter = R::Waiter;

    ghost is_own = { λ borrowed token. R.is_own borrowed.mutex.now.raw token };

    fn release(&self, token: R::Guard) {
        self.mutex.raw.unlock(token);
    }
}

impl<'a, R: RawMutex, T> Acquire for BorrowedMutex<'a, R, T> {
    type Shown = sync::MutexGuard<'a, T>;

    fn acquire(&self) -> R::Guard {
        self.mutex.raw.lock()
    }

    fn try_lock_value(&self) -> Option<sync::MutexGuard<'a, T>> {
        self.mutex.value.try_lock()
    }

    /// Kept off the uncontended path.
    #[cold]
    #[inline(never)]
    fn block_on_value(&self) -> sync::MutexGuard<'a, T> {
        self.mutex.value.lock(self.mutex.raw.waiter())
    }
}

impl<'a, R: RawMutexFair, T> AcquireFair for BorrowedMutex<'a, R, T> {
    fn release_fair(&self, token: R::Guard) {
        self.mutex.raw.unlock_fair(token);
    }

    fn bump(&self, token: R::Guard) -> R::Guard {
        self.mutex.raw.bump(token)
    }
}
