//! The upgradable read guard.
ghost use Rattle.std.specs.Prelude.{◌≡◌, IfSome, IfNone, MatchResult};
ghost use Rattle.std.specs.Result.{result_ok};
ghost use Rattle.std.specs.Sync.RwLock.{read_guard_value};
ghost use Rattle.lock_guard.specs.Closure.{AnswersSomeValue};
ghost use Rattle.lock_rwlock.specs.RwLockGuard.{raw_under, tried_token, SameLock, ShowsSame};

use super::{RwLockGuard, RwLockReadGuard, RwLockWriteGuard, guard};
use crate::closures::{with_if_upgraded, with_upgraded};
use crate::mode::{InMode, Upgradable};
use crate::upgrade::{AtOnce, For, TryUpgrade, Until};
use lock_guard::guard::{Acquire, Held, Inner};
use lock_traits::{RawRwLockUpgrade, RawRwLockUpgradeDowngrade, RawRwLockUpgradeTimed};

/// An upgradable read guard: it reads the value, next to readers, and can become the writer. It releases the lock on
/// drop.
pub type RwLockUpgradableReadGuard<'a, R, T> = RwLockGuard<InMode<'a, Upgradable, R, T>>;

impl<'a, R: RawRwLockUpgrade, T> RwLockGuard<InMode<'a, Upgradable, R, T>> {
    /// Upgrades the guard to a write guard, blocking until no other guard is held.
    pub fn upgrade(guard: Self) -> RwLockWriteGuard<'a, R, T>
        ensures { SameLock guard.entry result }
    {
        let (rwlock, token) = guard.into_token();
        guard!(rwlock, rwlock.raw.upgrade(token))
    }

    /// Upgrades the guard without blocking, or returns it unchanged if the raw lock refuses.
    pub fn try_upgrade(guard: Self) -> Result<RwLockWriteGuard<'a, R, T>, Self>
        ensures lock { MatchResult result (SameLock guard.entry) (λ same. same ≡ guard.entry) }
        ensures tried { R.tried_upgrade (raw_under guard.entry) (tried_token (result_ok result)) }
    {
        RwLockUpgradableReadGuard::try_upgrade_by(guard, AtOnce)
    }

    /// Tries to upgrade the guard, or returns it unchanged if the raw lock refuses.
    fn try_upgrade_by<A: TryUpgrade<R>>(
        guard: Self,
        attempt: A,
    ) -> Result<RwLockWriteGuard<'a, R, T>, Self>
        ensures lock { MatchResult result (SameLock guard.entry) (λ same. same ≡ guard.entry) }
        ensures tried { A.tried attempt (raw_under guard.entry) (tried_token (result_ok result)) }
    {
        let (lock, token, shown) = guard.held.into_parts();
        match attempt.make(&lock.rwlock.raw, token) {
            Ok(token) => {
                drop(shown);
                Ok(guard!(lock.rwlock, token))
            }
            Err(token) => {
                let inner = Inner::Filled(token, shown);
                Err(RwLockGuard {
                    held: Held { lock, inner },
                })
            }
        }
    }
}

impl<'a, R: RawRwLockUpgradeTimed, T> RwLockGuard<InMode<'a, Upgradable, R, T>> {
    /// `try_upgrade`, where the raw lock may block for at most `timeout`.
    pub fn try_upgrade_for(
        guard: Self,
        timeout: R::Duration,
    ) -> Result<RwLockWriteGuard<'a, R, T>, Self>
        ensures lock { MatchResult result (SameLock guard.entry) (λ same. same ≡ guard.entry) }
        ensures tried { R.tried_upgrade_for (raw_under guard.entry) timeout (tried_token (result_ok result)) }
    {
        RwLockUpgradableReadGuard::try_upgrade_by(guard, For(timeout))
    }

    /// `try_upgrade`, where the raw lock may block until `deadline`.
    pub fn try_upgrade_until(
        guard: Self,
        deadline: R::Instant,
    ) -> Result<RwLockWriteGuard<'a, R, T>, Self>
        ensures lock { MatchResult result (SameLock guard.entry) (λ same. same ≡ guard.entry) }
        ensures tried { R.tried_upgrade_until (raw_under guard.entry) deadline (tried_token (result_ok result)) }
    {
        RwLockUpgradableReadGuard::try_upgrade_by(guard, Until(deadline))
    }
}

impl<'a, R: RawRwLockUpgradeDowngrade, T> RwLockGuard<InMode<'a, Upgradable, R, T>> {
    /// Downgrades the guard to a read guard, which shows the same value. It never blocks.
    pub fn downgrade(guard: Self) -> RwLockReadGuard<'a, R, T>
        ensures lock { SameLock guard.entry result }
        ensures value { ShowsSame read_guard_value guard.entry result }
    {
        let (lock, token, shown) = guard.held.into_parts();
        let token = lock.rwlock.raw.downgrade_upgradable(token);
        RwLockGuard {
            held: Held {
                lock: InMode::new(lock.rwlock),
                inner: Inner::Filled(token, shown),
            },
        }
    }

    /// Upgrades, runs `f` on the value, and downgrades again. The upgrade blocks until no other guard is held.
    pub fn with_upgraded<U, F: FnOnce(&mut T) -> U>(&mut self, f: F) -> U
        requires { F.IsAlwaysCallable f }
        ensures answer { AnswersSomeValue F.FnOnce f result }
        ensures lock { SameLock self.old self.new }
    {
        let held = &mut self.held;
        let (token, answer) = with_upgraded(held.lock.rwlock, held.inner.empty(), f);
        held.inner.fill(token, held.lock.lock_value());
        answer
    }

    /// `with_upgraded` without blocking. If the raw lock refuses, returns `None` and does not call `f`.
    pub fn try_with_upgraded<U, F: FnOnce(&mut T) -> U>(&mut self, f: F) -> Option<U>
    where
        F: Drop,
        requires { F.IsAlwaysCallable f }
        ensures answer { IfSome result (AnswersSomeValue F.FnOnce f) }
        ensures lock { SameLock self.old self.new }
        ensures refused { IfNone result (self.new ≡ self.old) }
    {
        self.try_with_upgraded_by(AtOnce, f)
    }

    /// `with_upgraded`, by a try. If the raw lock refuses, returns `None` and does not call `f`.
    fn try_with_upgraded_by<A: TryUpgrade<R>, U, F: FnOnce(&mut T) -> U>(
        &mut self,
        attempt: A,
        f: F,
    ) -> Option<U>
    where
        F: Drop,
        requires { F.IsAlwaysCallable f }
        ensures answer { IfSome result (AnswersSomeValue F.FnOnce f) }
        ensures lock { SameLock self.old self.new }
        ensures refused { IfNone result (self.new ≡ self.old) }
    {
        let held = &mut self.held;
        let lock = &held.lock;
        let (token, shown) = held.inner.take().into_parts();
        let upgraded = attempt.make(&lock.rwlock.raw, token);
        with_if_upgraded(&mut held.inner, lock, lock.rwlock, shown, upgraded, f)
    }
}

impl<'a, R: RawRwLockUpgradeTimed + RawRwLockUpgradeDowngrade, T> RwLockGuard<
    InMode<'a, Upgradable, R, T>,
> {
    /// `try_with_upgraded`, where the raw lock may block for at most `timeout`.
    pub fn try_with_upgraded_for<U, F: FnOnce(&mut T) -> U>(
        &mut self,
        timeout: R::Duration,
        f: F,
    ) -> Option<U>
    where
        F: Drop,
        requires { F.IsAlwaysCallable f }
        ensures answer { IfSome result (AnswersSomeValue F.FnOnce f) }
        ensures lock { SameLock self.old self.new }
        ensures refused { IfNone result (self.new ≡ self.old) }
    {
        self.try_with_upgraded_by(For(timeout), f)
    }

    /// `try_with_upgraded`, where the raw lock may block until `deadline`.
    pub fn try_with_upgraded_until<U, F: FnOnce(&mut T) -> U>(
        &mut self,
        deadline: R::Instant,
        f: F,
    ) -> Option<U>
    where
        F: Drop,
        requires { F.IsAlwaysCallable f }
        ensures answer { IfSome result (AnswersSomeValue F.FnOnce f) }
        ensures lock { SameLock self.old self.new }
        ensures refused { IfNone result (self.new ≡ self.old) }
    {
        self.try_with_upgraded_by(Until(deadline), f)
    }
}
