//! Guards of locks, seen as the value that they protect.
ghost use Rattle.std.specs.Prelude.{◌≡◌, Option, Some};
ghost use Rattle.std.specs.Borrow.{Lends, sem};
ghost use Rattle.lock_guard.specs.Held.{held_value, held_with_value, held_with_same, held_value_with};

use crate::guard::{Acquire, AcquireFair, Held, ValueGuard, ValueGuardMut};

/// A guard of a lock, with read access to the value. Its drop releases the lock.
pub trait LockGuard: Drop {
    type Value;

    /// The value. There is none while `unlocked` runs its closure.
    ghost value_of: { Self → Option Self.Value };

    fn value(&self) -> &Self::Value
        ensures { value_of self.now ≡ Some result.now };
}

/// A guard with write access to the value.
pub trait LockGuardMut: LockGuard {
    /// The guard with another value.
    ghost with_value: { Self → Self.Value → Self };

    fn value_mut(&mut self) -> &mut Self::Value
        ensures* writes_back { sem 𝓛 (Lends Self.row Self.Value.row self.entry result
            (with_value self.old)) }
        ensures value { Self.value_of self.old ≡ Some result.now };

    /// Writing back the value that is there changes nothing.
    ghost with_same: { (guard : Self) (value : Self.Value) →
        Self.value_of guard ≡ Some value → with_value guard value ≡ guard };

    /// A read after a write gives what was written.
    ghost value_with: { (guard : Self) (old new : Self.Value) →
        Self.value_of guard ≡ Some old → Self.value_of (with_value guard new) ≡ Some new };
}

/// A guard with a fair release.
pub trait LockGuardFair: LockGuard {
    /// Releases the lock by a fair release.
    fn unlock_fair(self);
}

impl<L: Acquire> LockGuard for Held<L> {
    type Value = <L::Shown as ValueGuard>::Value;

    ghost value_of = { held_value L.Shown.value_of };

    fn value(&self) -> &<L::Shown as ValueGuard>::Value {
        self.inner.value()
    }
}

impl<L: Acquire> LockGuardMut for Held<L>
where
    L::Shown: ValueGuardMut,
{
    ghost with_value = { held_with_value L.Shown.with_value };

    fn value_mut(&mut self) -> &mut <L::Shown as ValueGuard>::Value {
        self.inner.value_mut()
    }

    ghost with_same = { held_with_same L.Shown.value_of L.Shown.with_value L.Shown.with_same };

    ghost value_with = { held_value_with L.Shown.value_of L.Shown.with_value L.Shown.value_with };
}

impl<L: AcquireFair> LockGuardFair for Held<L> {
    fn unlock_fair(self) {
        Held::unlock_fair(self);
    }
}
