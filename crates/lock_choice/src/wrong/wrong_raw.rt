//! A raw lock with a mistake.
ghost use Rattle.std.specs.Prelude.{◌≡◌, Some, IfSome};
ghost use Rattle.lock_choice.specs.WrongTokens.{owns_if_some};

use super::mistake::Mistake;
use lock_guard::forget;
use lock_modes::Fault;
use lock_traits::{RawMutex, RawMutexFair, RawMutexTimed};
use std::alloc::Global;

/// A raw lock that makes its calls on another one, but for a mistake. Its exclusive token is `None` where the other one
/// gave none.
#[derive(Drop)]
pub struct WrongRaw<R> {
    pub(crate) raw: R,
    mistake: Mistake,
}

impl<R> WrongRaw<R> {
    /// Wraps a raw lock.
    pub fn over(raw: R, mistake: Mistake) -> WrongRaw<R> {
        WrongRaw { raw, mistake }
    }

    pub(crate) fn makes(&self, mistake: Mistake) -> bool {
        self.mistake == mistake
    }

    /// Returns the token to release. A lock whose mistake is to keep it forgets it.
    pub(crate) fn to_release<T>(&self, kept: Mistake, token: Option<T>) -> Option<T>
        ensures { IfSome result (λ released. token ≡ Some released) }
    {
        if self.makes(kept) {
            // SAFETY: the mistake is to keep the token.
            unsafe { forget(token) };
            return None;
        }
        token
    }

    /// Returns `None` if the mistake is to refuse timed tries.
    pub(crate) fn takes_timed_tries(&self) -> Option<()> {
        if self.makes(Mistake::TimedRefusal) {
            return None;
        }
        Some(())
    }
}

impl<R: RawMutex> RawMutex for WrongRaw<R> {
    type Guard = Option<R::Guard>;

    type Waiter = R::Waiter;

    ghost is_own = { λ wrong token. owns_if_some (R.is_own wrong.raw) token };

    /// Makes a lock whose plain release keeps the token.
    fn new(alloc: Global, waiter: R::Waiter) -> Result<WrongRaw<R>, Fault> {
        Ok(WrongRaw::over(R::new(alloc, waiter)?, Mistake::KeptToken))
    }

    fn waiter(&self) -> &R::Waiter {
        self.raw.waiter()
    }

    fn lock(&self) -> Option<R::Guard> {
        Some(self.raw.lock())
    }

    fn try_lock(&self) -> Option<Option<R::Guard>> {
        Some(Some(self.raw.try_lock()?))
    }

    fn unlock(&self, token: Option<R::Guard>) {
        if let Some(token) = self.to_release(Mistake::KeptToken, token) {
            self.raw.unlock(token);
        }
    }

    fn is_locked(&self) -> bool {
        self.raw.is_locked()
    }
}

impl<R: RawMutexFair> RawMutexFair for WrongRaw<R> {
    fn unlock_fair(&self, token: Option<R::Guard>) {
        if let Some(token) = self.to_release(Mistake::FairKeptToken, token) {
            self.raw.unlock_fair(token);
        }
    }

    fn bump(&self, token: Option<R::Guard>) -> Option<R::Guard> {
        let token = token?;
        if self.makes(Mistake::HalfBump) {
            self.raw.unlock(token);
            return None;
        }
        Some(self.raw.bump(token))
    }
}

impl<R: RawMutexTimed> RawMutexTimed for WrongRaw<R> {
    type Duration = R::Duration;

    type Instant = R::Instant;

    fn try_lock_for(&self, timeout: R::Duration) -> Option<Option<R::Guard>> {
        self.takes_timed_tries()?;
        Some(Some(self.raw.try_lock_for(timeout)?))
    }

    fn try_lock_until(&self, deadline: R::Instant) -> Option<Option<R::Guard>> {
        self.takes_timed_tries()?;
        Some(Some(self.raw.try_lock_until(deadline)?))
    }
}
