//! Guards of a part of the value of a lock.
ghost use Rattle.std.specs.Prelude.{◌≡◌, Some};
ghost use Rattle.lock_guard.specs.GuardPart.{guard_part, guard_miss};
ghost use Rattle.lock_guard.specs.Held.{held_value};
ghost use Rattle.lock_guard.specs.Mapped.{IsMapOf, IsMappedOr};
ghost use Rattle.lock_rwlock.specs.RwLockGuard.{held_of};

use super::RwLockGuard;
use crate::mode::{Exclusive, InMode, Shared};
use lock_guard::guard::{Acquire, Held, Mapped, ValueGuard};
use lock_parts::{TryView, View};
use lock_traits::RawRwLock;

/// A read guard of a part of the value. It releases the lock on drop.
pub type MappedRwLockReadGuard<'a, R, T, P> = Mapped<Held<InMode<'a, Shared, R, T>>, P>;

/// A write guard of a part of the value. It releases the lock on drop.
pub type MappedRwLockWriteGuard<'a, R, T, P> = Mapped<Held<InMode<'a, Exclusive, R, T>>, P>;

/// A lock in a mode whose guards can be mapped: shared or exclusive.
pub trait Mappable: Acquire {}

impl<R: RawRwLock, T> Mappable for InMode<'_, Shared, R, T> {}

impl<R: RawRwLock, T> Mappable for InMode<'_, Exclusive, R, T> {}

impl<L: Mappable> RwLockGuard<L> {
    /// Makes the guard of a part, by a projection that always has one. The lock stays held.
    pub fn map<P: View<<L::Shown as ValueGuard>::Value>>(
        guard: Self,
        projection: P,
    ) -> Mapped<Held<L>, P>
        ensures { IsMapOf (held_of guard) projection result }
    {
        Mapped::of(guard.held, projection)
    }

    /// Makes the guard of a part, or returns the same guard, still held, if the value has no such part.
    pub fn try_map<P: TryView<<L::Shown as ValueGuard>::Value>>(
        guard: Self,
        projection: P,
    ) -> Result<Mapped<Held<L>, P>, Self>
        ensures { IsMappedOr
            (guard_part (held_value L.Shown.value_of) (P.part projection) (held_of guard))
            (held_of guard) projection (λ back. back ≡ guard) result }
    {
        match Mapped::try_of(guard.held, projection) {
            Ok(mapped) => Ok(mapped),
            Err(held) => Err(RwLockGuard { held }),
        }
    }

    /// Makes the guard of a part. If the value has no such part, returns the same guard, still held, with the miss.
    pub fn try_map_or_err<P: TryView<<L::Shown as ValueGuard>::Value>>(
        guard: Self,
        projection: P,
    ) -> Result<Mapped<Held<L>, P>, (Self, P::Miss)>
        ensures { IsMappedOr
            (guard_part (held_value L.Shown.value_of) (P.part projection) (held_of guard))
            (held_of guard) projection (λ back. (back.0 ≡ guard) × (guard_miss
            (held_value L.Shown.value_of) (P.missed projection) (held_of guard) ≡ Some back.1)) result }
    {
        match Mapped::try_of_or_err(guard.held, projection) {
            Ok(mapped) => Ok(mapped),
            Err((held, miss)) => Err((RwLockGuard { held }, miss)),
        }
    }
}
