//! Upgrades and downgrades of a guard that owns a reference to its lock.
ghost use Rattle.std.specs.Prelude.{◌≡◌, IfSome, IfNone, MatchResult};
ghost use Rattle.std.specs.Arc.{arc_value};
ghost use Rattle.std.specs.Result.{result_ok};
ghost use Rattle.lock_guard.specs.Closure.{AnswersSomeValue};
ghost use Rattle.lock_rwlock.specs.ArcRwLockGuard.{arc_of, tried_arc_token};
ghost use Rattle.lock_rwlock.specs.RwLock.{raw_of};

use super::{ArcModeGuard, ArcRwLockReadGuard, ArcRwLockWriteGuard};
use crate::arc::owned::OwnedInMode;
use crate::closures::{with_if_upgraded, with_upgraded};
use crate::mode::Upgradable;
use crate::upgrade::{AtOnce, For, TryUpgrade, Until};
use lock_guard::guard::{Held, Inner};
use lock_traits::{RawRwLockUpgrade, RawRwLockUpgradeDowngrade, RawRwLockUpgradeTimed};

impl<R: RawRwLockUpgrade + Drop, T: Drop> ArcModeGuard<OwnedInMode<Upgradable, R, T>> {
    /// Upgrades the guard to a write guard, blocking until no other guard is held.
    pub fn upgrade(guard: Self) -> ArcRwLockWriteGuard<R, T>
        ensures { arc_of result ≡ arc_of guard }
    {
        let (rwlock, token) = guard.into_token();
        let token = rwlock.raw.upgrade(token);
        ArcModeGuard::new(rwlock, token)
    }

    /// Upgrades the guard without blocking, or returns it unchanged if the raw lock refuses.
    pub fn try_upgrade(guard: Self) -> Result<ArcRwLockWriteGuard<R, T>, Self>
        ensures lock { MatchResult result (λ upgraded. arc_of upgraded ≡ arc_of guard)
            (λ same. same ≡ guard) }
        ensures tried { R.tried_upgrade (raw_of (arc_value (arc_of guard))) (tried_arc_token (result_ok result)) }
    {
        ArcModeGuard::try_upgrade_by(guard, AtOnce)
    }

    /// Tries to upgrade the guard, or returns it unchanged if the raw lock refuses.
    fn try_upgrade_by<A: TryUpgrade<R>>(
        guard: Self,
        attempt: A,
    ) -> Result<ArcRwLockWriteGuard<R, T>, Self>
        ensures lock { MatchResult result (λ upgraded. arc_of upgraded ≡ arc_of guard)
            (λ same. same ≡ guard) }
        ensures tried { A.tried attempt (raw_of (arc_value (arc_of guard))) (tried_arc_token (result_ok result)) }
    {
        let (lock, token, ()) = guard.held.into_parts();
        match attempt.make(&lock.rwlock.raw, token) {
            Ok(token) => Ok(ArcModeGuard::new(lock.rwlock, token)),
            Err(token) => {
                let inner = Inner::Filled(token, ());
                Err(ArcModeGuard {
                    held: Held { lock, inner },
                })
            }
        }
    }
}

impl<R: RawRwLockUpgradeTimed + Drop, T: Drop> ArcModeGuard<OwnedInMode<Upgradable, R, T>> {
    /// `try_upgrade`, where the raw lock may block for at most `timeout`.
    pub fn try_upgrade_for(
        guard: Self,
        timeout: R::Duration,
    ) -> Result<ArcRwLockWriteGuard<R, T>, Self>
        ensures lock { MatchResult result (λ upgraded. arc_of upgraded ≡ arc_of guard)
            (λ same. same ≡ guard) }
        ensures tried { R.tried_upgrade_for (raw_of (arc_value (arc_of guard))) timeout
            (tried_arc_token (result_ok result)) }
    {
        ArcModeGuard::try_upgrade_by(guard, For(timeout))
    }

    /// `try_upgrade`, where the raw lock may block until `deadline`.
    pub fn try_upgrade_until(
        guard: Self,
        deadline: R::Instant,
    ) -> Result<ArcRwLockWriteGuard<R, T>, Self>
        ensures lock { MatchResult result (λ upgraded. arc_of upgraded ≡ arc_of guard)
            (λ same. same ≡ guard) }
        ensures tried { R.tried_upgrade_until (raw_of (arc_value (arc_of guard))) deadline
            (tried_arc_token (result_ok result)) }
    {
        ArcModeGuard::try_upgrade_by(guard, Until(deadline))
    }
}

impl<R: RawRwLockUpgradeDowngrade + Drop, T: Drop> ArcModeGuard<OwnedInMode<Upgradable, R, T>> {
    /// Downgrades the guard to a read guard.
    pub fn downgrade(guard: Self) -> ArcRwLockReadGuard<R, T>
        ensures { arc_of result ≡ arc_of guard }
    {
        let (rwlock, token) = guard.into_token();
        let token = rwlock.raw.downgrade_upgradable(token);
        ArcModeGuard::new(rwlock, token)
    }

    /// Upgrades, runs `f` on the value, and downgrades again. The upgrade blocks until no other guard is held.
    pub fn with_upgraded<U, F: FnOnce(&mut T) -> U>(&mut self, f: F) -> U
        requires { F.IsAlwaysCallable f }
        ensures answer { AnswersSomeValue F.FnOnce f result }
        ensures lock { arc_of self.new ≡ arc_of self.old }
    {
        let held = &mut self.held;
        let token = held.inner.empty();
        let (token, answer) = with_upgraded(&held.lock.rwlock, token, f);
        held.inner.fill(token, ());
        answer
    }

    /// `with_upgraded` without blocking. If the raw lock refuses, returns `None` and does not call `f`.
    pub fn try_with_upgraded<U, F: FnOnce(&mut T) -> U>(&mut self, f: F) -> Option<U>
    where
        F: Drop,
        requires { F.IsAlwaysCallable f }
        ensures answer { IfSome result (AnswersSomeValue F.FnOnce f) }
        ensures lock { arc_of self.new ≡ arc_of self.old }
        ensures refused { IfNone result (self.new ≡ self.old) }
    {
        self.try_with_upgraded_by(AtOnce, f)
    }

    /// `with_upgraded`, by a try. If the raw lock refuses, returns `None` and does not call `f`.
    fn try_with_upgraded_by<A: TryUpgrade<R>, U, F: FnOnce(&mut T) -> U>(
        &mut self,
        attempt: A,
        f: F,
    ) -> Option<U>
    where
        F: Drop,
        requires { F.IsAlwaysCallable f }
        ensures answer { IfSome result (AnswersSomeValue F.FnOnce f) }
        ensures lock { arc_of self.new ≡ arc_of self.old }
        ensures refused { IfNone result (self.new ≡ self.old) }
    {
        let held = &mut self.held;
        let lock = &held.lock;
        let (token, ()) = held.inner.take().into_parts();
        let upgraded = attempt.make(&lock.rwlock.raw, token);
        with_if_upgraded(&mut held.inner, lock, &lock.rwlock, (), upgraded, f)
    }
}

impl<R: RawRwLockUpgradeTimed + RawRwLockUpgradeDowngrade + Drop, T: Drop> ArcModeGuard<
    OwnedInMode<Upgradable, R, T>,
> {
    /// `try_with_upgraded`, where the raw lock may block for at most `timeout`.
    pub fn try_with_upgraded_for<U, F: FnOnce(&mut T) -> U>(
        &mut self,
        timeout: R::Duration,
        f: F,
    ) -> Option<U>
    where
        F: Drop,
        requires { F.IsAlwaysCallable f }
        ensures answer { IfSome result (AnswersSomeValue F.FnOnce f) }
        ensures lock { arc_of self.new ≡ arc_of self.old }
        ensures refused { IfNone result (self.new ≡ self.old) }
    {
        self.try_with_upgraded_by(For(timeout), f)
    }

    /// `try_with_upgraded`, where the raw lock may block until `deadline`.
    pub fn try_with_upgraded_until<U, F: FnOnce(&mut T) -> U>(
        &mut self,
        deadline: R::Instant,
        f: F,
    ) -> Option<U>
    where
        F: Drop,
        requires { F.IsAlwaysCallable f }
        ensures answer { IfSome result (AnswersSomeValue F.FnOnce f) }
        ensures lock { arc_of self.new ≡ arc_of self.old }
        ensures refused { IfNone result (self.new ≡ self.old) }
    {
        self.try_with_upgraded_by(Until(deadline), f)
    }
}
