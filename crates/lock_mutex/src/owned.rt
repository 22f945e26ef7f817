//! A mutex that a guard owns a reference to.
ghost use Rattle.std.specs.Arc.{arc_value};

use crate::Mutex;
use lock_guard::guard::{Acquire, AcquireFair, Release};
use lock_traits::{RawMutex, RawMutexFair};
use std::sync::Arc;

/// One `Arc` of a mutex, as its guard sees it.
#[derive(Drop)]
pub struct OwnedMutex<R: RawMutex + Drop, T: Drop> {
    pub(crate) mutex: Arc<Mutex<R, T>>,
}

impl<R: RawMutex + Drop, T: Drop> Release for OwnedMutex<R, T> {
    type Token = R::Guard;

    type Waiter = R::Waiter;

    ghost is_own = { λ owned token. R.is_own (arc_value owned.mutex).raw token };

    fn release(&self, token: R::Guard) {
        self.mutex.raw.unlock(token);
    }
}

/// It keeps no guard of the value: std's guard would borrow from the mutex next to it in the same struct.
impl<R: RawMutex + Drop, T: Drop> Acquire for OwnedMutex<R, T> {
    type Shown = ();

    fn acquire(&self) -> R::Guard {
        self.mutex.raw.lock()
    }

    fn try_lock_value(&self) -> Option<()> {
        Some(())
    }

    fn block_on_value(&self) {}
}

impl<R: RawMutexFair + Drop, T: Drop> AcquireFair for OwnedMutex<R, T> {
    fn release_fair(&self, token: R::Guard) {
        self.mutex.raw.unlock_fair(token);
    }

    fn bump(&self, token: R::Guard) -> R::Guard {
        self.mutex.raw.bump(token)
    }
}
