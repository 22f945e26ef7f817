//! Guards of a part of the value of a mutex.
ghost use Rattle.std.specs.Prelude.{◌≡◌, Some};
ghost use Rattle.lock_guard.specs.GuardPart.{guard_part, guard_miss};
ghost use Rattle.lock_guard.specs.Held.{held_value};
ghost use Rattle.lock_guard.specs.Mapped.{IsMapOf, IsMappedOr};
ghost use Rattle.lock_mutex.specs.MutexGuard.{held_of};

use crate::Guard;
use crate::borrowed::BorrowedMutex;
use lock_guard::guard::{Acquire, Held, Mapped, ValueGuard};
use lock_parts::{TryView, View};

/// A guard of a part of the value of a mutex. It releases the mutex on drop.
pub type MappedMutexGuard<'a, R, T, P> = Mapped<Held<BorrowedMutex<'a, R, T>>, P>;

impl<L: Acquire> Guard<L> {
    /// Makes the guard of a part, by a projection that always has one. The mutex stays locked.
    pub fn map<P: View<<L::Shown as ValueGuard>::Value>>(
        guard: Self,
        projection: P,
    ) -> Mapped<Held<L>, P>
        ensures { IsMapOf (held_of guard) projection result }
    {
        Mapped::of(guard.held, projection)
    }

    /// Makes the guard of a part, or returns the same guard, still locked, if the value has no such part.
    pub fn try_map<P: TryView<<L::Shown as ValueGuard>::Value>>(
        guard: Self,
        projection: P,
    ) -> Result<Mapped<Held<L>, P>, Self>
        ensures { IsMappedOr
            (guard_part (held_value L.Shown.value_of) (P.part projection) (held_of guard))
            (held_of guard) projection (λ back. back ≡ guard) result }
    {
        match Mapped::try_of(guard.held, projection) {
            Ok(mapped) => Ok(mapped),
            Err(held) => Err(Guard { held }),
        }
    }

    /// Makes the guard of a part. If the value has no such part, returns the same guard, still locked, with the miss.
    pub fn try_map_or_err<P: TryView<<L::Shown as ValueGuard>::Value>>(
        guard: Self,
        projection: P,
    ) -> Result<Mapped<Held<L>, P>, (Self, P::Miss)>
        ensures { IsMappedOr
            (guard_part (held_value L.Shown.value_of) (P.part projection) (held_of guard))
            (held_of guard) projection (λ back. (back.0 ≡ guard) × (guard_miss
            (held_value L.Shown.value_of) (P.missed projection) (held_of guard) ≡ Some back.1)) result }
    {
        match Mapped::try_of_or_err(guard.held, projection) {
            Ok(mapped) => Ok(mapped),
            Err((held, miss)) => Err((Guard { held }, miss)),
        }
    }
}
