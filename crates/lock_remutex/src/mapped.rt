//! Guards of a part of the value of a reentrant lock.
ghost use Rattle.std.specs.Prelude.{◌≡◌, Some};
ghost use Rattle.lock_guard.specs.GuardPart.{guard_part, guard_miss};
ghost use Rattle.lock_guard.specs.Mapped.{IsMapOf, IsMappedOr};
ghost use Rattle.lock_remutex.specs.Guards.{guard_value, shown_value};

use crate::reentrant_mutex_guard::ReentrantMutexGuard;
use lock_guard::guard::{LockGuard, LockGuardFair, Mapped};
use lock_parts::{TryView, View};
use lock_traits::{RawMutex, RawMutexFair};
use std::ops::Deref;

/// One level of a party, which reads a part of the value. It releases the level on drop.
pub type MappedReentrantMutexGuard<'a, R, T, P> = Mapped<ReentrantMutexGuard<'a, R, T>, P>;

impl<R: RawMutex, T> LockGuard for ReentrantMutexGuard<'_, R, T> {
    type Value = T;

    ghost value_of = { shown_value };

    fn value(&self) -> &T {
        self.deref()
    }
}

impl<R: RawMutexFair, T> LockGuardFair for ReentrantMutexGuard<'_, R, T> {
    fn unlock_fair(self) {
        ReentrantMutexGuard::unlock_fair(self);
    }
}

impl<'a, R: RawMutex, T> ReentrantMutexGuard<'a, R, T> {
    /// Makes the guard of a part, by a projection that always has one. The level stays held.
    pub fn map<P: View<T>>(guard: Self, projection: P) -> MappedReentrantMutexGuard<'a, R, T, P>
        ensures { IsMapOf guard.entry projection result }
    {
        Mapped::of(guard, projection)
    }

    /// Makes the guard of a part, or returns the same guard, still held, if the value has no such part.
    pub fn try_map<P: TryView<T>>(
        guard: Self,
        projection: P,
    ) -> Result<MappedReentrantMutexGuard<'a, R, T, P>, Self>
        ensures { IsMappedOr (guard_part shown_value (P.part projection) guard.entry)
            guard.entry projection (λ back. back ≡ guard.entry) result }
    {
        Mapped::try_of(guard, projection)
    }

    /// Makes the guard of a part. If the value has no such part, returns the same guard, still held, with the miss.
    pub fn try_map_or_err<P: TryView<T>>(
        guard: Self,
        projection: P,
    ) -> Result<MappedReentrantMutexGuard<'a, R, T, P>, (Self, P::Miss)>
        ensures { IsMappedOr (guard_part shown_value (P.part projection) guard.entry)
            guard.entry projection (λ back. (back.0 ≡ guard.entry)
            × (guard_miss shown_value (P.missed projection) guard.entry ≡ Some back.1)) result }
    {
        Mapped::try_of_or_err(guard, projection)
    }
}
