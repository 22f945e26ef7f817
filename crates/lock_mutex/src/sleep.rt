//! Waits that release a held lock and reacquire it.
ghost use Rattle.std.specs.Prelude.{◌≡◌, false, Bool, ⊤};
ghost use Rattle.lock_mutex.specs.Condvar.{HasWaited};

use crate::borrowed::BorrowedMutex;
use lock_guard::guard::{Acquire, Held};
use lock_traits::{RawCondvar, RawCondvarTimed, RawMutex, RawMutexTimed};

/// A wait with a held lock.
pub trait Sleep<L: Acquire>: Drop {
    /// Whether a wait may give this answer.
    ghost may_answer: { Bool → Type 0 };

    /// What a wait with this answer did.
    ghost slept: { Self → Bool → Type 0 };

    /// Releases the lock, waits, and reacquires the lock. Returns whether the wait timed out.
    fn sleep(&self, held: &mut Held<L>) -> bool
        ensures lock { held.new.lock ≡ held.old.lock }
        ensures answer { may_answer result }
        ensures slept { slept self.now result };
}

/// A wait for a notification.
#[derive_where(Clone, Copy)]
pub struct UntilNotified<'c, C> {
    pub raw: &'c C,
}

impl<'a, C: RawCondvar, T> Sleep<BorrowedMutex<'a, C::RawMutex, T>> for UntilNotified<'_, C> {
    ghost may_answer = { λ timed_out. timed_out ≡ false };

    ghost slept = { λ sleep _. HasWaited (C.waited sleep.raw.now) };

    fn sleep(&self, held: &mut Held<BorrowedMutex<'a, C::RawMutex, T>>) -> bool {
        let mutex = held.lock.mutex;
        let next = self.raw.wait(&mutex.raw, held.inner.empty());
        held.inner.fill(next, held.lock.lock_value());
        false
    }
}

/// A wait for a notification or an instant.
#[derive_where(Clone, Copy)]
pub struct UntilInstant<'c, C, I> {
    pub raw: &'c C,
    pub deadline: &'c I,
}

impl<'a, C: RawCondvarTimed, T> Sleep<BorrowedMutex<'a, C::RawMutex, T>>
    for UntilInstant<'_, C, <C::RawMutex as RawMutexTimed>::Instant>
where
    C::RawMutex: RawMutexTimed,
{
    ghost may_answer = { λ _. ⊤ };

    ghost slept = { λ sleep timed_out. HasWaited (λ token. C.waited_until sleep.raw.now token sleep.deadline.now timed_out) };

    fn sleep(&self, held: &mut Held<BorrowedMutex<'a, C::RawMutex, T>>) -> bool {
        let mutex = held.lock.mutex;
        let (next, timed_out) = self
            .raw
            .wait_until(&mutex.raw, held.inner.empty(), self.deadline);
        held.inner.fill(next, held.lock.lock_value());
        timed_out
    }
}
