//! Writes and downgrades by a write guard that owns a reference to its lock.
ghost use Rattle.std.specs.Prelude.{◌≡◌};
ghost use Rattle.lock_guard.specs.Closure.{AnswersSomeValue};
ghost use Rattle.lock_rwlock.specs.ArcRwLockGuard.{arc_of};

use super::{ArcModeGuard, ArcRwLockReadGuard, ArcRwLockUpgradableReadGuard};
use crate::arc::owned::OwnedInMode;
use crate::closures::write_with;
use crate::mode::Exclusive;
use lock_traits::{RawRwLock, RawRwLockDowngrade, RawRwLockUpgradeDowngrade};

impl<R: RawRwLock + Drop, T: Drop> ArcModeGuard<OwnedInMode<Exclusive, R, T>> {
    /// Runs `f` on the value, which it may change, holding the value's lock for the length of the call.
    pub fn with_mut<U, F: FnOnce(&mut T) -> U>(guard: &mut Self, f: F) -> U
        requires { F.IsAlwaysCallable f }
        ensures answer { AnswersSomeValue F.FnOnce f result }
        ensures lock { arc_of guard.new ≡ arc_of guard.old }
    {
        write_with(&guard.held.lock.rwlock, f)
    }
}

impl<R: RawRwLockDowngrade + Drop, T: Drop> ArcModeGuard<OwnedInMode<Exclusive, R, T>> {
    /// Downgrades the guard to a read guard.
    pub fn downgrade(guard: Self) -> ArcRwLockReadGuard<R, T>
        ensures { arc_of result ≡ arc_of guard }
    {
        let (rwlock, token) = guard.into_token();
        let token = rwlock.raw.downgrade(token);
        ArcModeGuard::new(rwlock, token)
    }
}

impl<R: RawRwLockUpgradeDowngrade + Drop, T: Drop> ArcModeGuard<OwnedInMode<Exclusive, R, T>> {
    /// Downgrades the guard to an upgradable read guard.
    pub fn downgrade_to_upgradable(guard: Self) -> ArcRwLockUpgradableReadGuard<R, T>
        ensures { arc_of result ≡ arc_of guard }
    {
        let (rwlock, token) = guard.into_token();
        let token = rwlock.raw.downgrade_to_upgradable(token);
        ArcModeGuard::new(rwlock, token)
    }
}
