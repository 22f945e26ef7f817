//! Guards that own a reference to their lock.
mod upgradable;
mod write;

ghost use Rattle.std.specs.Prelude.{◌≡◌, true, IfOk, IfSome, IsOkUnless, Some};
ghost use Rattle.std.specs.Arc.{arc_value};
ghost use Rattle.lock_guard.specs.Closure.{ReadsSomeValue};
ghost use Rattle.lock_guard.specs.Held.{held_token};
ghost use Rattle.lock_rwlock.specs.RwLock.{raw_of};
ghost use Rattle.lock_rwlock.specs.ArcRwLockGuard.{arc_of, tried_arc_token, IsArcGuardOf};

use crate::arc::owned::{OwnedInMode, ReadValue};
use crate::lock::RwLock;
use crate::mode::{Exclusive, FairMode, LockMode, Shared, Upgradable};
use lock_guard::guard::{Acquire, AcquireFair, Held, Release, another_owner};
use lock_modes::Fault;
use lock_traits::RawRwLock;
use std::fmt;
use std::fmt::{Debug, Display, Formatter};
use std::sync::Arc;

/// A guard of a lock in the mode `M` that owns a reference to the lock. It releases the lock on drop, and lends the
/// value to closures.
///
/// An upgrade or a downgrade exchanges the raw lock's token and gives a guard of the new mode. The raw lock promises
/// that nobody wrote in between; no contract states it.
pub type ArcRwLockGuard<M, R, T> = ArcModeGuard<OwnedInMode<M, R, T>>;

/// The struct behind an `ArcRwLockGuard`.
#[derive(Drop)]
pub struct ArcModeGuard<L: Acquire> {
    pub(crate) held: Held<L>,
}

/// A read guard that owns a reference to its lock.
pub type ArcRwLockReadGuard<R, T> = ArcModeGuard<OwnedInMode<Shared, R, T>>;

/// A write guard that owns a reference to its lock.
pub type ArcRwLockWriteGuard<R, T> = ArcModeGuard<OwnedInMode<Exclusive, R, T>>;

/// An upgradable read guard that owns a reference to its lock.
pub type ArcRwLockUpgradableReadGuard<R, T> = ArcModeGuard<OwnedInMode<Upgradable, R, T>>;

impl<M: LockMode<R>, R: RawRwLock + Drop, T: Drop> ArcModeGuard<OwnedInMode<M, R, T>> {
    /// Makes the guard of a token that the raw lock gave.
    pub(crate) fn new(rwlock: Arc<RwLock<R, T>>, token: M::Token) -> Self
        requires { M.is_own (raw_of (arc_value rwlock)) token ≡ true }
        ensures lock { arc_of result ≡ rwlock }
        ensures token { held_token result.held ≡ Some token }
    {
        ArcModeGuard {
            held: Held::new(OwnedInMode::new(rwlock), token),
        }
    }

    /// Clones the `Arc`, then acquires the raw lock, blocking until it is available.
    pub(crate) fn acquire(this: &Arc<RwLock<R, T>>) -> Result<Self, Fault>
        ensures fault { IsOkUnless result Fault.OutOfMemory }
        ensures lock { IfOk result (IsArcGuardOf this.now) }
    {
        let rwlock = another_owner(this)?;
        let token = M::acquire(&rwlock.raw);
        Ok(ArcModeGuard::new(rwlock, token))
    }

    /// Makes the guard of the token, if the raw lock gave one.
    pub(crate) fn of_token(rwlock: Arc<RwLock<R, T>>, token: Option<M::Token>) -> Option<Self>
        requires { IfSome token (λ t. M.is_own (raw_of (arc_value rwlock)) t ≡ true) }
        ensures lock { IfSome result (λ guard. arc_of guard ≡ rwlock) }
        ensures token { tried_arc_token result ≡ token }
    {
        Some(ArcModeGuard::new(rwlock, token?))
    }

    /// Returns the lock of the guard.
    pub fn rwlock(guard: &Self) -> &Arc<RwLock<R, T>>
        ensures { result.now ≡ arc_of guard.now }
    {
        &guard.held.lock.rwlock
    }

    /// Releases the lock, and returns the guard's reference to it.
    pub fn into_arc(guard: Self) -> Arc<RwLock<R, T>>
        ensures { result ≡ arc_of guard }
    {
        let (lock, token) = guard.held.into_token();
        lock.release(token);
        lock.rwlock
    }

    /// Runs `f` on the value, holding the value's lock for the length of the call.
    pub fn with<U, F: FnOnce(&T) -> U>(guard: &Self, f: F) -> U
        requires { F.IsAlwaysCallable f }
        ensures { ReadsSomeValue F.FnOnce f result }
    {
        guard.held.lock.read_value(f)
    }

    /// Releases the lock, runs `f`, and reacquires the lock in the same mode, blocking until it is available.
    pub fn unlocked<U, F: FnOnce() -> U>(guard: &mut Self, f: F) -> U
        requires { F.IsAlwaysCallable f }
        ensures answer { F.post f result }
        ensures lock { arc_of guard.new ≡ arc_of guard.old }
    {
        guard.held.unlocked(f)
    }

    /// Returns the lock, with the guard's token.
    pub(crate) fn into_token(self) -> (Arc<RwLock<R, T>>, M::Token)
        ensures lock { result.0 ≡ arc_of self }
        ensures own { M.is_own (raw_of (arc_value result.0)) result.1 ≡ true }
    {
        let (lock, token) = self.held.into_token();
        (lock.rwlock, token)
    }
}

impl<M: FairMode<R>, R: RawRwLock + Drop, T: Drop> ArcModeGuard<OwnedInMode<M, R, T>> {
    /// Releases the lock by a fair release.
    pub fn unlock_fair(guard: Self) {
        guard.held.unlock_fair();
    }

    /// `into_arc`, by a fair release.
    pub fn into_arc_fair(guard: Self) -> Arc<RwLock<R, T>>
        ensures { result ≡ arc_of guard }
    {
        let (lock, token) = guard.held.into_token();
        lock.release_fair(token);
        lock.rwlock
    }

    /// `unlocked`, by a fair release.
    pub fn unlocked_fair<U, F: FnOnce() -> U>(guard: &mut Self, f: F) -> U
        requires { F.IsAlwaysCallable f }
        ensures answer { F.post f result }
        ensures lock { arc_of guard.new ≡ arc_of guard.old }
    {
        guard.held.unlocked_fair(f)
    }

    /// Releases the lock by a fair release, and reacquires it, blocking until it is available.
    pub fn bump(guard: &mut Self)
        ensures { arc_of guard.new ≡ arc_of guard.old }
    {
        guard.held.bump();
    }
}

/// The text is that of the value, whose lock is held for the length of the call.
impl<L: ReadValue> Debug for ArcModeGuard<L>
where
    L::Value: Debug,
{
    fn fmt<W: fmt::Write>(&self, f: &mut Formatter<W>) -> fmt::Result {
        self.held.lock.read_value(|value| value.fmt(f))
    }
}

impl<L: ReadValue> Display for ArcModeGuard<L>
where
    L::Value: Display,
{
    fn fmt<W: fmt::Write>(&self, f: &mut Formatter<W>) -> fmt::Result {
        self.held.lock.read_value(|value| value.fmt(f))
    }
}
