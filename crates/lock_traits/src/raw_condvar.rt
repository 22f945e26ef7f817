//! Raw condition variables.
ghost use Rattle.std.specs.Prelude.{◌≡◌, ℕ, Bool, true, ⊤, IsOkUnless};
ghost use Rattle.lock_traits.specs.Waits.{WaitedFor};

use crate::{RawMutex, RawMutexTimed};
use lock_modes::Fault;
use std::alloc::Global;

/// A raw condition variable over raw locks of one type. A wait consumes a token of a raw lock, and returns another
/// token of that lock.
///
/// The trait is safe to implement. A wrong implementation can make calls block; it can never cause a data race. A wait
/// may end spuriously.
pub trait RawCondvar {
    type RawMutex: RawMutex;

    /// What a wait did with the token that it took. An implementation that states nothing leaves it at `⊤`.
    ghost waited: { Self → Self.RawMutex.Guard → Type 0 } = { λ _ _. ⊤ };

    /// What `notify_one` did, by its answer.
    ghost notified_one: { Self → Bool → Type 0 } = { λ _ _. ⊤ };

    /// What `notify_all` did, by its answer.
    ghost notified_all: { Self → ℕ → Type 0 } = { λ _ _. ⊤ };

    /// Makes a raw condition variable without waiters.
    fn new(alloc: Global) -> Result<Self, Fault>
    where
        Self: Sized,
        ensures { IsOkUnless result Fault.OutOfMemory };

    /// Releases the raw lock, blocks until a notification, and reacquires the raw lock.
    fn wait(
        &self,
        mutex: &Self::RawMutex,
        token: <Self::RawMutex as RawMutex>::Guard,
    ) -> <Self::RawMutex as RawMutex>::Guard
        requires { Self.RawMutex.is_own mutex.now token ≡ true }
        ensures own { Self.RawMutex.is_own mutex.now result ≡ true }
        ensures waited { waited self.now token };

    /// Wakes one waiter, and returns whether one was woken. An implementation with spurious wake-ups returns false.
    fn notify_one(&self) -> bool
        ensures { notified_one self.now result };

    /// Wakes all waiters, and returns how many were woken. An implementation with spurious wake-ups returns 0.
    fn notify_all(&self) -> usize
        ensures { notified_all self.now result };
}

/// A raw condition variable whose waits have timeouts.
pub trait RawCondvarTimed: RawCondvar
where
    Self::RawMutex: RawMutexTimed,
{
    /// What a wait with a deadline did with the token that it took, by whether it timed out.
    ghost waited_until: { Self → Self.RawMutex.Guard → Self.RawMutex.Instant → Bool → Type 0 } = { λ _ _ _ _. ⊤ };

    /// Returns the instant that is `timeout` from now, or `None` if it cannot be represented.
    fn checked_duration_to_instant(
        timeout: &<Self::RawMutex as RawMutexTimed>::Duration,
    ) -> Option<<Self::RawMutex as RawMutexTimed>::Instant>;

    /// Returns the instant that is `timeout` from now, or `None` if it cannot be represented. The mutex's waiter may
    /// provide the clock.
    fn instant_after(
        _mutex: &Self::RawMutex,
        timeout: &<Self::RawMutex as RawMutexTimed>::Duration,
    ) -> Option<<Self::RawMutex as RawMutexTimed>::Instant> {
        Self::checked_duration_to_instant(timeout)
    }

    /// `wait`, with a deadline. The second answer is whether the deadline passed.
    fn wait_until(
        &self,
        mutex: &Self::RawMutex,
        token: <Self::RawMutex as RawMutex>::Guard,
        deadline: &<Self::RawMutex as RawMutexTimed>::Instant,
    ) -> (<Self::RawMutex as RawMutex>::Guard, bool)
        requires { Self.RawMutex.is_own mutex.now token ≡ true }
        ensures own { Self.RawMutex.is_own mutex.now result.0 ≡ true }
        ensures waited { waited_until self.now token deadline.now result.1 };

    /// `wait`, with a timeout. If the deadline cannot be represented, it waits without one and answers false.
    fn wait_for(
        &self,
        mutex: &Self::RawMutex,
        token: <Self::RawMutex as RawMutex>::Guard,
        timeout: &<Self::RawMutex as RawMutexTimed>::Duration,
    ) -> (<Self::RawMutex as RawMutex>::Guard, bool)
        requires { Self.RawMutex.is_own mutex.now token ≡ true }
        ensures own { Self.RawMutex.is_own mutex.now result.0 ≡ true }
        ensures waited { WaitedFor (Self.waited self.now token) (waited_until self.now token) result.1 }
    {
        match Self::instant_after(mutex, timeout) {
            Some(deadline) => self.wait_until(mutex, token, &deadline),
            None => (self.wait(mutex, token), false),
        }
    }
}
