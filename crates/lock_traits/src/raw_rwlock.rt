//! Raw reader-writer locks.
ghost use Rattle.std.specs.Prelude.{◌≡◌, ◌↔◌, Bool, true, ⊤, Option, IfErr, IfOk, IfSome};
ghost use Rattle.std.specs.Result.{result_ok};
ghost use Rattle.lock_modes.specs.Limits.{IsLimit, IsMakerFault};

use lock_modes::Fault;
use std::alloc::Global;
use std::clone::Clone;
use std::sync::Wait;

/// A reader-writer lock without a value. Each acquisition returns a token, and the release consumes it.
///
/// The trait is safe to implement. A raw lock that admits too many threads can make calls block; it can never cause a
/// data race.
pub trait RawRwLock {
    /// The token of a shared acquisition.
    type SharedGuard;

    /// The token of an exclusive acquisition.
    type ExclusiveGuard;

    /// The permission to block, for the raw lock and the guards over it.
    type Waiter: Wait + Clone + Drop;

    /// Whether the token is one of this lock's shared acquisitions. A raw lock that takes any token leaves it at `true`.
    ghost owns_shared: { Self → Self.SharedGuard → Bool } = { λ _ _. true };

    /// Whether the token is one of this lock's exclusive acquisitions.
    ghost owns_exclusive: { Self → Self.ExclusiveGuard → Bool } = { λ _ _. true };

    /// What `try_lock_shared` did, by its answer. An implementation that states nothing leaves it at `⊤`. Code over any raw
    /// lock can have it from `try_lock_shared` alone.
    ghost tried_shared: { Self → Option Self.SharedGuard → Type 0 } = { λ _ _. ⊤ };

    /// What `try_lock_exclusive` did, by its answer.
    ghost tried_exclusive: { Self → Option Self.ExclusiveGuard → Type 0 } = { λ _ _. ⊤ };

    /// Makes an unlocked raw lock, which keeps `waiter`. At most `readers` tokens are shared or upgradable at a time.
    fn new(alloc: Global, waiter: Self::Waiter, readers: u64) -> Result<Self, Fault>
    where
        Self: Sized,
        ensures limits { (result ≡ Err Fault.BadLimits) ↔ (IsLimit readers → ⊥) }
        ensures in_range { IfOk result (λ _. IsLimit readers) }
        ensures fault { IfErr result IsMakerFault };

    /// Returns the permission to block that the lock was made with.
    fn waiter(&self) -> &Self::Waiter;

    /// Acquires the lock shared, blocking while it is held exclusively or the readers' limit is reached.
    fn lock_shared(&self) -> Self::SharedGuard
        ensures { owns_shared self.now result ≡ true };

    /// Acquires the lock shared without blocking, or returns `None` where `lock_shared` would block.
    fn try_lock_shared(&self) -> Option<Self::SharedGuard>
        ensures own { IfSome result (λ token. owns_shared self.now token ≡ true) }
        ensures tried { tried_shared self.now result };

    /// Releases a shared token.
    fn unlock_shared(&self, token: Self::SharedGuard)
        requires { owns_shared self.now token ≡ true };

    /// Acquires the lock exclusively, blocking while it is held in any mode.
    fn lock_exclusive(&self) -> Self::ExclusiveGuard
        ensures { owns_exclusive self.now result ≡ true };

    /// Acquires the lock exclusively without blocking, or returns `None` where `lock_exclusive` would block.
    fn try_lock_exclusive(&self) -> Option<Self::ExclusiveGuard>
        ensures own { IfSome result (λ token. owns_exclusive self.now token ≡ true) }
        ensures tried { tried_exclusive self.now result };

    /// Releases an exclusive token.
    fn unlock_exclusive(&self, token: Self::ExclusiveGuard)
        requires { owns_exclusive self.now token ≡ true };

    /// Returns whether the lock is held in any mode. The answer may be stale at once.
    fn is_locked(&self) -> bool;

    /// Returns whether the lock is held exclusively. The answer may be stale at once.
    fn is_locked_exclusive(&self) -> bool;
}

/// A raw reader-writer lock with fair releases.
pub trait RawRwLockFair: RawRwLock {
    /// Releases a shared token, preferring threads that wait.
    fn unlock_shared_fair(&self, token: Self::SharedGuard)
        requires { Self.owns_shared self.now token ≡ true };

    /// Releases an exclusive token, preferring threads that wait.
    fn unlock_exclusive_fair(&self, token: Self::ExclusiveGuard)
        requires { Self.owns_exclusive self.now token ≡ true };

    /// Releases the lock by a fair release, and reacquires it shared, so that a waiter can go first.
    fn bump_shared(&self, token: Self::SharedGuard) -> Self::SharedGuard
        requires { Self.owns_shared self.now token ≡ true }
        ensures { Self.owns_shared self.now result ≡ true }
    {
        self.unlock_shared_fair(token);
        self.lock_shared()
    }

    /// Releases the lock by a fair release, and reacquires it exclusively, so that a waiter can go first.
    fn bump_exclusive(&self, token: Self::ExclusiveGuard) -> Self::ExclusiveGuard
        requires { Self.owns_exclusive self.now token ≡ true }
        ensures { Self.owns_exclusive self.now result ≡ true }
    {
        self.unlock_exclusive_fair(token);
        self.lock_exclusive()
    }
}

/// A raw lock that downgrades an exclusive token to a shared one, without releasing it in between.
pub trait RawRwLockDowngrade: RawRwLock {
    /// Makes an exclusive token shared. It never blocks.
    fn downgrade(&self, token: Self::ExclusiveGuard) -> Self::SharedGuard
        requires { Self.owns_exclusive self.now token ≡ true }
        ensures { Self.owns_shared self.now result ≡ true };
}

/// A raw reader-writer lock whose tries have timeouts.
pub trait RawRwLockTimed: RawRwLock {
    type Duration: Drop;

    type Instant: Drop;

    /// What `try_lock_shared_for` did, by its answer.
    ghost tried_shared_for: { Self → Self.Duration → Option Self.SharedGuard → Type 0 } = { λ _ _ _. ⊤ };

    /// What `try_lock_shared_until` did, by its answer.
    ghost tried_shared_until: { Self → Self.Instant → Option Self.SharedGuard → Type 0 } = { λ _ _ _. ⊤ };

    /// What `try_lock_exclusive_for` did, by its answer.
    ghost tried_exclusive_for: { Self → Self.Duration → Option Self.ExclusiveGuard → Type 0 } = { λ _ _ _. ⊤ };

    /// What `try_lock_exclusive_until` did, by its answer.
    ghost tried_exclusive_until: { Self → Self.Instant → Option Self.ExclusiveGuard → Type 0 } = { λ _ _ _. ⊤ };

    /// Tries to acquire the lock shared for at most `timeout`.
    fn try_lock_shared_for(&self, timeout: Self::Duration) -> Option<Self::SharedGuard>
        ensures own { IfSome result (λ token. Self.owns_shared self.now token ≡ true) }
        ensures tried { tried_shared_for self.now timeout result };

    /// Tries to acquire the lock shared until `deadline`.
    fn try_lock_shared_until(&self, deadline: Self::Instant) -> Option<Self::SharedGuard>
        ensures own { IfSome result (λ token. Self.owns_shared self.now token ≡ true) }
        ensures tried { tried_shared_until self.now deadline result };

    /// Tries to acquire the lock exclusively for at most `timeout`.
    fn try_lock_exclusive_for(&self, timeout: Self::Duration) -> Option<Self::ExclusiveGuard>
        ensures own { IfSome result (λ token. Self.owns_exclusive self.now token ≡ true) }
        ensures tried { tried_exclusive_for self.now timeout result };

    /// Tries to acquire the lock exclusively until `deadline`.
    fn try_lock_exclusive_until(&self, deadline: Self::Instant) -> Option<Self::ExclusiveGuard>
        ensures own { IfSome result (λ token. Self.owns_exclusive self.now token ≡ true) }
        ensures tried { tried_exclusive_until self.now deadline result };
}

/// A raw lock with upgradable tokens. One may be held at a time, next to shared ones, and it can become exclusive.
pub trait RawRwLockUpgrade: RawRwLock {
    /// The token of an upgradable acquisition.
    type UpgradableGuard;

    /// Whether the token is one of this lock's upgradable acquisitions.
    ghost owns_upgradable: { Self → Self.UpgradableGuard → Bool } = { λ _ _. true };

    /// What `try_lock_upgradable` did, by its answer.
    ghost tried_upgradable: { Self → Option Self.UpgradableGuard → Type 0 } = { λ _ _. ⊤ };

    /// What `try_upgrade` did, by the token that it made.
    ghost tried_upgrade: { Self → Option Self.ExclusiveGuard → Type 0 } = { λ _ _. ⊤ };

    /// Acquires the lock upgradable, blocking while it is held exclusively or upgradable, or the readers' limit is
    /// reached.
    fn lock_upgradable(&self) -> Self::UpgradableGuard
        ensures { owns_upgradable self.now result ≡ true };

    /// Acquires the lock upgradable without blocking, or returns `None` where `lock_upgradable` would block.
    fn try_lock_upgradable(&self) -> Option<Self::UpgradableGuard>
        ensures own { IfSome result (λ token. owns_upgradable self.now token ≡ true) }
        ensures tried { tried_upgradable self.now result };

    /// Releases an upgradable token.
    fn unlock_upgradable(&self, token: Self::UpgradableGuard)
        requires { owns_upgradable self.now token ≡ true };

    /// Makes the token exclusive, blocking while any other token is held.
    fn upgrade(&self, token: Self::UpgradableGuard) -> Self::ExclusiveGuard
        requires { owns_upgradable self.now token ≡ true }
        ensures { Self.owns_exclusive self.now result ≡ true };

    /// Makes the token exclusive without blocking, or returns it unchanged where `upgrade` would block.
    fn try_upgrade(
        &self,
        token: Self::UpgradableGuard,
    ) -> Result<Self::ExclusiveGuard, Self::UpgradableGuard>
        requires { owns_upgradable self.now token ≡ true }
        ensures own { IfOk result (λ upgraded. Self.owns_exclusive self.now upgraded ≡ true) }
        ensures back { IfErr result (λ back. back ≡ token) }
        ensures tried { tried_upgrade self.now (result_ok result) };
}

/// A raw lock with fair releases of upgradable tokens.
pub trait RawRwLockUpgradeFair: RawRwLockUpgrade + RawRwLockFair {
    /// Releases an upgradable token, preferring threads that wait.
    fn unlock_upgradable_fair(&self, token: Self::UpgradableGuard)
        requires { Self.owns_upgradable self.now token ≡ true };

    /// Releases the lock by a fair release, and reacquires it upgradable, so that a waiter can go first.
    fn bump_upgradable(&self, token: Self::UpgradableGuard) -> Self::UpgradableGuard
        requires { Self.owns_upgradable self.now token ≡ true }
        ensures { Self.owns_upgradable self.now result ≡ true }
    {
        self.unlock_upgradable_fair(token);
        self.lock_upgradable()
    }
}

/// A raw lock with downgrades to and from the upgradable mode.
pub trait RawRwLockUpgradeDowngrade: RawRwLockUpgrade + RawRwLockDowngrade {
    /// Makes an upgradable token shared. It never blocks.
    fn downgrade_upgradable(&self, token: Self::UpgradableGuard) -> Self::SharedGuard
        requires { Self.owns_upgradable self.now token ≡ true }
        ensures { Self.owns_shared self.now result ≡ true };

    /// Makes an exclusive token upgradable. It never blocks.
    fn downgrade_to_upgradable(&self, token: Self::ExclusiveGuard) -> Self::UpgradableGuard
        requires { Self.owns_exclusive self.now token ≡ true }
        ensures { Self.owns_upgradable self.now result ≡ true };
}

/// A raw lock with upgradable tokens whose tries have timeouts.
pub trait RawRwLockUpgradeTimed: RawRwLockUpgrade + RawRwLockTimed {
    /// What `try_lock_upgradable_for` did, by its answer.
    ghost tried_upgradable_for: { Self → Self.Duration → Option Self.UpgradableGuard → Type 0 } = { λ _ _ _. ⊤ };

    /// What `try_lock_upgradable_until` did, by its answer.
    ghost tried_upgradable_until: { Self → Self.Instant → Option Self.UpgradableGuard → Type 0 } = { λ _ _ _. ⊤ };

    /// What `try_upgrade_for` did, by the token that it made.
    ghost tried_upgrade_for: { Self → Self.Duration → Option Self.ExclusiveGuard → Type 0 } = { λ _ _ _. ⊤ };

    /// What `try_upgrade_until` did, by the token that it made.
    ghost tried_upgrade_until: { Self → Self.Instant → Option Self.ExclusiveGuard → Type 0 } = { λ _ _ _. ⊤ };

    /// Tries to acquire the lock upgradable for at most `timeout`.
    fn try_lock_upgradable_for(&self, timeout: Self::Duration) -> Option<Self::UpgradableGuard>
        ensures own { IfSome result (λ token. Self.owns_upgradable self.now token ≡ true) }
        ensures tried { tried_upgradable_for self.now timeout result };

    /// Tries to acquire the lock upgradable until `deadline`.
    fn try_lock_upgradable_until(&self, deadline: Self::Instant) -> Option<Self::UpgradableGuard>
        ensures own { IfSome result (λ token. Self.owns_upgradable self.now token ≡ true) }
        ensures tried { tried_upgradable_until self.now deadline result };

    /// Tries to make the token exclusive for at most `timeout`, or returns it unchanged.
    fn try_upgrade_for(
        &self,
        token: Self::UpgradableGuard,
        timeout: Self::Duration,
    ) -> Result<Self::ExclusiveGuard, Self::UpgradableGuard>
        requires { Self.owns_upgradable self.now token ≡ true }
        ensures own { IfOk result (λ upgraded. Self.owns_exclusive self.now upgraded ≡ true) }
        ensures back { IfErr result (λ back. back ≡ token) }
        ensures tried { tried_upgrade_for self.now timeout (result_ok result) };

    /// Tries to make the token exclusive until `deadline`, or returns it unchanged.
    fn try_upgrade_until(
        &self,
        token: Self::UpgradableGuard,
        deadline: Self::Instant,
    ) -> Result<Self::ExclusiveGuard, Self::UpgradableGuard>
        requires { Self.owns_upgradable self.now token ≡ true }
        ensures own { IfOk result (λ upgraded. Self.owns_exclusive self.now upgraded ≡ true) }
        ensures back { IfErr result (λ back. back ≡ token) }
        ensures tried { tried_upgrade_until self.now deadline (result_ok result) };
}
