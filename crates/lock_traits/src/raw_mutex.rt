//! Raw mutexes.
ghost use Rattle.std.specs.Prelude.{◌≡◌, Bool, true, ⊤, Option, IsOkUnless, IfSome};

use lock_modes::Fault;
use std::alloc::Global;
use std::clone::Clone;
use std::sync::Wait;

/// A mutex without a value. Each acquisition returns a token, and the release consumes it.
///
/// The trait is safe to implement. A raw lock that admits too many threads can make calls block; it can never cause a
/// data race.
pub trait RawMutex {
    /// The token of one acquisition.
    type Guard;

    /// The permission to block, for the raw lock and the guards over it.
    type Waiter: Wait + Clone + Drop;

    /// Whether the token is one of this lock's acquisitions. A raw lock that takes any token leaves it at `true`.
    ghost is_own: { Self → Self.Guard → Bool } = { λ _ _. true };

    /// What `try_lock` did, by its answer. An implementation that states nothing leaves it at `⊤`. Code over any raw lock
    /// can have it from `try_lock` alone.
    ghost tried: { Self → Option Self.Guard → Type 0 } = { λ _ _. ⊤ };

    /// Makes an unlocked raw lock, which keeps `waiter`.
    fn new(alloc: Global, waiter: Self::Waiter) -> Result<Self, Fault>
    where
        Self: Sized,
        ensures { IsOkUnless result Fault.OutOfMemory };

    /// Returns the permission to block that the lock was made with.
    fn waiter(&self) -> &Self::Waiter;

    /// Acquires the lock, blocking until it is available.
    fn lock(&self) -> Self::Guard
        ensures { is_own self.now result ≡ true };

    /// Acquires the lock without blocking, or returns `None` if it is held.
    fn try_lock(&self) -> Option<Self::Guard>
        ensures own { IfSome result (λ token. is_own self.now token ≡ true) }
        ensures tried { tried self.now result };

    /// Releases the lock.
    fn unlock(&self, token: Self::Guard)
        requires { is_own self.now token ≡ true };

    /// Returns whether the lock is held. The answer may be stale at once.
    fn is_locked(&self) -> bool;
}

/// A raw mutex with a fair release.
pub trait RawMutexFair: RawMutex {
    /// Releases the lock, preferring threads that wait for it.
    fn unlock_fair(&self, token: Self::Guard)
        requires { Self.is_own self.now token ≡ true };

    /// Releases the lock by a fair release, and reacquires it, so that a waiter can go first.
    fn bump(&self, token: Self::Guard) -> Self::Guard
        requires { Self.is_own self.now token ≡ true }
        ensures { Self.is_own self.now result ≡ true }
    {
        self.unlock_fair(token);
        self.lock()
    }
}

/// A raw mutex whose tries have timeouts.
pub trait RawMutexTimed: RawMutex {
    type Duration: Drop;

    type Instant: Drop;

    /// What `try_lock_for` did, by its answer.
    ghost tried_for: { Self → Self.Duration → Option Self.Guard → Type 0 } = { λ _ _ _. ⊤ };

    /// What `try_lock_until` did, by its answer.
    ghost tried_until: { Self → Self.Instant → Option Self.Guard → Type 0 } = { λ _ _ _. ⊤ };

    /// Tries to acquire the lock for at most `timeout`.
    fn try_lock_for(&self, timeout: Self::Duration) -> Option<Self::Guard>
        ensures own { IfSome result (λ token. Self.is_own self.now token ≡ true) }
        ensures tried { tried_for self.now timeout result };

    /// Tries to acquire the lock until `deadline`.
    fn try_lock_until(&self, deadline: Self::Instant) -> Option<Self::Guard>
        ensures own { IfSome result (λ token. Self.is_own self.now token ≡ true) }
        ensures tried { tried_until self.now deadline result };
}
