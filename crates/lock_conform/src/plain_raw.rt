//! A raw mutex that has no fair release and no timed try.
use lock_modes::Fault;
use lock_traits::{RawMutex, RawMutexFair, RawMutexTimed};
use std::alloc::Global;

/// Gives a raw mutex the traits that scripts need: a fair release is a plain release, and a timed try is a plain try.
#[derive(Drop)]
pub struct PlainRaw<R> {
    raw: R,
}

impl<R> PlainRaw<R> {
    ghost use Rattle.std.specs.Prelude.{◌≡◌};
    ghost use Rattle.lock_conform.specs.PlainRaws.{raw_of};

    /// Wraps a raw mutex.
    pub fn over(raw: R) -> PlainRaw<R>
        ensures { raw_of result ≡ raw }
    {
        PlainRaw { raw }
    }
}

impl<R: RawMutex> RawMutex for PlainRaw<R> {
    type Guard = R::Guard;

    type Waiter = R::Waiter;

    ghost is_own = { λ plain token. R.is_own plain.raw token };

    fn new(alloc: Global, waiter: R::Waiter) -> Result<PlainRaw<R>, Fault> {
        Ok(PlainRaw::over(R::new(alloc, waiter)?))
    }

    fn waiter(&self) -> &R::Waiter {
        self.raw.waiter()
    }

    fn lock(&self) -> R::Guard {
        self.raw.lock()
    }

    fn try_lock(&self) -> Option<R::Guard> {
        self.raw.try_lock()
    }

    fn unlock(&self, token: R::Guard) {
        self.raw.unlock(token);
    }

    fn is_locked(&self) -> bool {
        self.raw.is_locked()
    }
}

impl<R: RawMutex> RawMutexFair for PlainRaw<R> {
    fn unlock_fair(&self, token: R::Guard) {
        self.raw.unlock(token);
    }
}

impl<R: RawMutex> RawMutexTimed for PlainRaw<R> {
    type Duration = ();

    type Instant = ();

    fn try_lock_for(&self, _timeout: ()) -> Option<R::Guard> {
        self.raw.try_lock()
    }

    fn try_lock_until(&self, _deadline: ()) -> Option<R::Guard> {
        self.raw.try_lock()
    }
}
