//! The guard of a held lock.
mod mapped;
mod upgradable;
mod write;

ghost use Rattle.std.specs.Prelude.{◌≡◌, true, Some, IfOk, IfErr};
ghost use Rattle.std.specs.Borrow.{Lends, sem};
ghost use Rattle.lock_guard.specs.Held.{held_token, held_value, held_with_value};
ghost use Rattle.lock_rwlock.specs.RwLockGuard.{held_of, IsGuardOf};

use crate::lock::RwLock;
use crate::mode::{InMode, Shared, ShowMode};
use lock_guard::guard::{
    Acquire, AcquireFair, Held, LockGuard, LockGuardMut, ValueGuard, ValueGuardMut,
};
use lock_traits::RawRwLock;
pub use mapped::{Mappable, MappedRwLockReadGuard, MappedRwLockWriteGuard};
use std::fmt;
use std::ops::{Deref, DerefMut};
pub use upgradable::RwLockUpgradableReadGuard;
pub use write::RwLockWriteGuard;

/// A guard of a lock in one mode. On drop it releases the value's lock, then the raw lock.
///
/// An upgrade or a downgrade exchanges the raw lock's token and gives a guard of the new mode. After the downgrade of an
/// upgradable guard the new guard shows the same value. After the others the raw lock promises that nobody wrote in
/// between; no contract states it.
#[derive(Drop)]
pub struct RwLockGuard<L: Acquire> {
    pub(crate) held: Held<L>,
}

/// A read guard: it reads the value, next to other readers, and releases the lock on drop.
pub type RwLockReadGuard<'a, R, T> = RwLockGuard<InMode<'a, Shared, R, T>>;

/// Makes the guard of a lock and its token, as `held!`.
macro_rules! guard {
    ($rwlock:expr, $token:expr) => {
        match $crate::guard::RwLockGuard::try_new($rwlock, $token) {
            Ok(guard) => guard,
            Err(token) => $crate::guard::RwLockGuard::new($rwlock, token),
        }
    };
}

pub(crate) use guard;

impl<L: Acquire> RwLockGuard<L> {
    /// Releases the lock, runs `f`, and reacquires the lock in the same mode, blocking until it is available.
    pub fn unlocked<U, F: FnOnce() -> U>(guard: &mut Self, f: F) -> U
        requires { F.IsAlwaysCallable f }
        ensures answer { F.post f result }
        ensures lock { (held_of guard.new).lock ≡ (held_of guard.old).lock }
    {
        guard.held.unlocked(f)
    }
}

impl<'a, M: ShowMode<'a, R, T>, R: RawRwLock, T> RwLockGuard<InMode<'a, M, R, T>> {
    /// Makes the guard of a token if the value's lock is free. Otherwise returns the token.
    pub(crate) fn try_new(rwlock: &'a RwLock<R, T>, token: M::Token) -> Result<Self, M::Token>
        requires { M.is_own rwlock.now.raw token ≡ true }
        ensures lock { IfOk result (IsGuardOf rwlock.entry) }
        ensures token { IfOk result (λ guard. held_token (held_of guard) ≡ Some token) }
        ensures back { IfErr result (λ back. back ≡ token) }
    {
        match Held::try_new(InMode::new(rwlock), token) {
            Ok(held) => Ok(RwLockGuard { held }),
            Err((_, back)) => Err(back),
        }
    }

    /// Makes the guard of a token, blocking until the value's lock is free. `guard!` tries it first.
    pub(crate) fn new(rwlock: &'a RwLock<R, T>, token: M::Token) -> Self
        requires { M.is_own rwlock.now.raw token ≡ true }
        ensures lock { IsGuardOf rwlock.entry result }
        ensures token { held_token (held_of result) ≡ Some token }
    {
        RwLockGuard {
            held: Held::new(InMode::new(rwlock), token),
        }
    }

    /// Returns the lock of the guard.
    pub fn rwlock(guard: &Self) -> &'a RwLock<R, T>
        ensures { IsGuardOf result guard.now }
    {
        guard.held.lock.rwlock
    }

    /// Releases the value's lock, and returns the lock with its token.
    pub(crate) fn into_token(self) -> (&'a RwLock<R, T>, M::Token)
        ensures lock { IsGuardOf result.0 self.entry }
        ensures own { M.is_own result.0.now.raw result.1 ≡ true }
    {
        let (lock, token) = self.held.into_token();
        (lock.rwlock, token)
    }
}

impl<L: AcquireFair> RwLockGuard<L> {
    /// Releases the lock by a fair release.
    pub fn unlock_fair(guard: Self) {
        guard.held.unlock_fair();
    }

    /// `unlocked`, by a fair release.
    pub fn unlocked_fair<U, F: FnOnce() -> U>(guard: &mut Self, f: F) -> U
        requires { F.IsAlwaysCallable f }
        ensures answer { F.post f result }
        ensures lock { (held_of guard.new).lock ≡ (held_of guard.old).lock }
    {
        guard.held.unlocked_fair(f)
    }

    /// Releases the lock by a fair release, and reacquires it, blocking until it is available.
    pub fn bump(guard: &mut Self)
        ensures { (held_of guard.new).lock ≡ (held_of guard.old).lock }
    {
        guard.held.bump();
    }
}

impl<L: Acquire> Deref for RwLockGuard<L> {
    type Target = <L::Shown as ValueGuard>::Value;

    ghost deref_gives = { λ guard value. held_value L.Shown.value_of (held_of guard) ≡ Some value };

    fn deref(&self) -> &<L::Shown as ValueGuard>::Value {
        self.held.value()
    }
}

impl<L: Acquire> DerefMut for RwLockGuard<L>
where
    L::Shown: ValueGuardMut,
{
    ghost use Rattle.lock_rwlock.specs.contracts.guard.RwLockGuard.{the_row};

    ghost deref_mut_gives = { λ guard value. held_value L.Shown.value_of (held_of guard) ≡ Some value };

    fn deref_mut(&mut self) -> &mut <L::Shown as ValueGuard>::Value
        ensures* writes_back { sem 𝓛 (Lends
            (the_row L.row L.Shown.row L.Token.row L.Waiter.row L.Shown.Value.row
            L.Release L.Shown.ValueGuard) L.Shown.Value.row self.entry result (λ value.
            record { held = held_with_value L.Shown.with_value (held_of self.old) value })) }
        ensures value { held_value L.Shown.value_of (held_of self.old) ≡ Some result.now }
    {
        self.held.value_mut()
    }
}

impl<L: Acquire> fmt::Debug for RwLockGuard<L>
where
    <L::Shown as ValueGuard>::Value: fmt::Debug,
{
    fn fmt<W: fmt::Write>(&self, f: &mut fmt::Formatter<W>) -> fmt::Result {
        self.held.value().fmt(f)
    }
}

impl<L: Acquire> fmt::Display for RwLockGuard<L>
where
    <L::Shown as ValueGuard>::Value: fmt::Display,
{
    fn fmt<W: fmt::Write>(&self, f: &mut fmt::Formatter<W>) -> fmt::Result {
        self.held.value().fmt(f)
    }
}
