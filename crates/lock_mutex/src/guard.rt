//! The guard of a mutex.
ghost use Rattle.std.specs.Prelude.{◌≡◌, Some};
ghost use Rattle.std.specs.Borrow.{Lends, sem};
ghost use Rattle.lock_guard.specs.Held.{held_value, held_with_value};
ghost use Rattle.lock_mutex.specs.MutexGuard.{held_of, IsGuardOf};

use crate::Mutex;
use crate::borrowed::BorrowedMutex;
use lock_guard::guard::{
    Acquire, AcquireFair, Held, LockGuard, LockGuardMut, ValueGuard, ValueGuardMut,
};
use lock_traits::RawMutex;
use std::fmt;
use std::fmt::{Debug, Display, Formatter};
use std::ops::{Deref, DerefMut};

/// A guard of a mutex, where `L` is the borrow of the mutex. It releases the mutex on drop.
#[derive(Drop)]
pub struct Guard<L: Acquire> {
    pub(crate) held: Held<L>,
}

/// The guard of a mutex: it gives access to the value, and releases the mutex on drop.
pub type MutexGuard<'a, R, T> = Guard<BorrowedMutex<'a, R, T>>;

impl<'a, R: RawMutex, T> Guard<BorrowedMutex<'a, R, T>> {
    /// Returns the mutex of the guard.
    pub fn mutex(guard: &MutexGuard<'a, R, T>) -> &'a Mutex<R, T>
        ensures { IsGuardOf result guard.now }
    {
        guard.held.lock.mutex
    }
}

impl<L: Acquire> Guard<L> {
    /// Releases the mutex, runs `f`, and reacquires the mutex, blocking until it is available.
    pub fn unlocked<U, F: FnOnce() -> U>(guard: &mut Self, f: F) -> U
        requires { F.IsAlwaysCallable f }
        ensures answer { F.post f result }
        ensures lock { (held_of guard.new).lock ≡ (held_of guard.old).lock }
    {
        guard.held.unlocked(f)
    }
}

impl<L: AcquireFair> Guard<L> {
    /// Releases the mutex by a fair release.
    pub fn unlock_fair(guard: Self) {
        guard.held.unlock_fair();
    }

    /// `unlocked`, by a fair release.
    pub fn unlocked_fair<U, F: FnOnce() -> U>(guard: &mut Self, f: F) -> U
        requires { F.IsAlwaysCallable f }
        ensures answer { F.post f result }
        ensures lock { (held_of guard.new).lock ≡ (held_of guard.old).lock }
    {
        guard.held.unlocked_fair(f)
    }

    /// Releases the mutex by a fair release, and reacquires it, blocking until it is available.
    pub fn bump(guard: &mut Self)
        ensures { (held_of guard.new).lock ≡ (held_of guard.old).lock }
    {
        guard.held.bump();
    }
}

impl<L: Acquire> Deref for Guard<L> {
    type Target = <L::Shown as ValueGuard>::Value;

    ghost deref_gives = { λ guard value. held_value L.Shown.value_of (held_of guard) ≡ Some value };

    fn deref(&self) -> &<L::Shown as ValueGuard>::Value {
        self.held.value()
    }
}

impl<L: Acquire> DerefMut for Guard<L>
where
    L::Shown: ValueGuardMut,
{
    ghost use Rattle.lock_mutex.specs.contracts.guard.Guard.{the_row};

    ghost deref_mut_gives = { λ guard value. held_value L.Shown.value_of (held_of guard) ≡ Some value };

    fn deref_mut(&mut self) -> &mut <L::Shown as ValueGuard>::Value
        ensures* writes_back { sem 𝓛 (Lends
            (the_row L.row L.Shown.row L.Token.row L.Waiter.row L.Shown.Value.row
            L.Release L.Shown.ValueGuard) L.Shown.Value.row self.entry result (λ value.
            record { held = held_with_value L.Shown.with_value (held_of self.old) value })) }
        ensures value { held_value L.Shown.value_of (held_of self.old) ≡ Some result.now }
    {
        self.held.value_mut()
    }
}

impl<L: Acquire> Debug for Guard<L>
where
    <L::Shown as ValueGuard>::Value: Debug,
{
    fn fmt<W: fmt::Write>(&self, f: &mut Formatter<W>) -> fmt::Result {
        self.held.value().fmt(f)
    }
}

impl<L: Acquire> Display for Guard<L>
where
    <L::Shown as ValueGuard>::Value: Display,
{
    fn fmt<W: fmt::Write>(&self, f: &mut Formatter<W>) -> fmt::Result {
        self.held.value().fmt(f)
    }
}
