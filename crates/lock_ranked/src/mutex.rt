//! A mutex with a rank, and its guard.
ghost use Rattle.std.specs.Prelude.{◌≡◌, ◌<◌, ◌≤◌, option_and_then, IfSome, IsOkUnless};
ghost use Rattle.lock_guard.specs.GuardPart.{guard_part};
ghost use Rattle.lock_guard.specs.Held.{held_value};
ghost use Rattle.lock_guard.specs.Mapped.{IsMapOf};
ghost use Rattle.lock_ranked.specs.Guards.{held_of, plain_of, raw_of, token_of, IsGuardOf};
ghost use Rattle.lock_ranked.specs.MappedGuards.{mapped_of, IsMappedOr};

use crate::order::{Acquired, Order};
use crate::rank::{Rank, Under};
use crate::ranked::{Ranked, RankedLock, RankedMapped, ranked};
use lock_guard::guard::{Acquire, AcquireFair, ValueGuard};
use lock_modes::Fault;
use lock_mutex::{Guard, MappedMutexGuard, Mutex, MutexGuard};
use lock_parts::{TryView, View};
use lock_traits::{RawMutex, RawMutexTimed};
use std::alloc::Global;

/// A mutex of rank `K`, over any raw lock. A blocking acquisition requires that the thread holds nothing at `K` or above.
///
/// # Examples
///
/// ```
/// /// It may be called under any lock below rank 20.
/// fn take<R: RawMutex, B: Rank>(
///     pool: &RankedMutex<R, u64, AtRank<20>>,
///     order: &mut Order<'_, B>,
/// ) -> Option<u64>
///     requires { B.rank < 20 }
/// {
///     let (mut free, _above) = pool.lock(order);
///     *free = free.checked_sub(1)?;
///     Some(*free)
/// }
/// ```
pub type RankedMutex<R, T, K> = RankedLock<Mutex<R, T>, K>;

impl<R: RawMutex, T, K: Rank> RankedMutex<R, T, K> {
    /// Makes an unlocked mutex over a new raw lock. The value is dropped if there is no memory.
    pub fn new(alloc: Global, waiter: R::Waiter, value: T) -> Result<RankedMutex<R, T, K>, Fault>
    where
        T: Drop,
        ensures { IsOkUnless result Fault.OutOfMemory }
    {
        Ok(RankedMutex::from_mutex(Mutex::new(alloc, waiter, value)?))
    }

    /// Gives a mutex its rank.
    pub fn from_mutex(mutex: Mutex<R, T>) -> RankedMutex<R, T, K>
        ensures { plain_of result ≡ mutex }
    {
        RankedLock::of(mutex)
    }

    /// Consumes the mutex, and returns the value.
    pub fn into_inner(self) -> T
    where
        R: Drop,
    {
        self.lock.into_inner()
    }

    /// Returns the value. No locking is needed, since the mutex is borrowed exclusively.
    pub fn get_mut(&mut self) -> &mut T {
        self.lock.get_mut()
    }

    /// Returns what the raw lock says: whether it is held. The answer may be stale at once.
    pub fn is_locked(&self) -> bool {
        self.lock.is_locked()
    }

    /// Acquires the mutex, blocking until it is available. The order that it returns is at `K`.
    #[inline(always)]
    pub fn lock<'a, 'o, B: Rank>(
        &'a self,
        order: &'o mut Order<'_, B>,
    ) -> Acquired<'o, MutexGuard<'a, R, T>, B, K, K>
        requires { B.rank < K.rank }
        ensures { IsGuardOf self.now result.0 }
    {
        order.acquired(self.lock.lock())
    }

    /// Acquires the mutex without blocking, whatever its rank, or returns `None` if the raw lock refuses.
    pub fn try_lock<'a, 'o, B: Rank, N: Rank>(
        &'a self,
        order: &'o mut Order<'_, B>,
    ) -> Option<Acquired<'o, MutexGuard<'a, R, T>, B, K, N>>
        requires { (B.rank < N.rank) × (K.rank ≤ N.rank) }
        ensures lock { IfSome result (λ got. IsGuardOf self.now got.0) }
        ensures tried { R.tried (raw_of self.now) (option_and_then (λ got. token_of got.0) result) }
    {
        Some(order.acquired(self.lock.try_lock()?))
    }
}

impl<R: RawMutexTimed, T, K: Rank> RankedMutex<R, T, K> {
    /// `try_lock`, where the raw lock may block for at most `timeout`.
    pub fn try_lock_for<'a, 'o, B: Rank, N: Rank>(
        &'a self,
        order: &'o mut Order<'_, B>,
        timeout: R::Duration,
    ) -> Option<Acquired<'o, MutexGuard<'a, R, T>, B, K, N>>
        requires { (B.rank < N.rank) × (K.rank ≤ N.rank) }
        ensures lock { IfSome result (λ got. IsGuardOf self.now got.0) }
        ensures tried { R.tried_for (raw_of self.now) timeout (option_and_then (λ got. token_of got.0) result) }
    {
        Some(order.acquired(self.lock.try_lock_for(timeout)?))
    }

    /// `try_lock`, where the raw lock may block until `deadline`.
    pub fn try_lock_until<'a, 'o, B: Rank, N: Rank>(
        &'a self,
        order: &'o mut Order<'_, B>,
        deadline: R::Instant,
    ) -> Option<Acquired<'o, MutexGuard<'a, R, T>, B, K, N>>
        requires { (B.rank < N.rank) × (K.rank ≤ N.rank) }
        ensures lock { IfSome result (λ got. IsGuardOf self.now got.0) }
        ensures tried { R.tried_until (raw_of self.now) deadline
            (option_and_then (λ got. token_of got.0) result) }
    {
        Some(order.acquired(self.lock.try_lock_until(deadline)?))
    }
}

/// A guard of a mutex of rank `K`, acquired in an order at `B`. It releases the mutex on drop, and until then that order
/// is borrowed.
pub type RankedGuard<L, B, K> = Ranked<Guard<L>, B, K>;

/// The guard of a ranked mutex: it gives access to the value, and releases the mutex on drop.
pub type RankedMutexGuard<'a, 'o, R, T, B, K> = Ranked<MutexGuard<'a, R, T>, Under<'o, B>, K>;

/// A guard of a part of the value of a ranked mutex.
pub type RankedMappedMutexGuard<'a, 'o, R, T, P, B, K> = Ranked<
    MappedMutexGuard<'a, R, T, P>,
    Under<'o, B>,
    K,
>;

impl<L: Acquire, B: Rank, K: Rank> RankedGuard<L, B, K> {
    /// Releases the mutex, runs `f`, and reacquires the mutex, blocking until it is available.
    ///
    /// The order at `K` shows that the thread holds nothing that it acquired since. The guards of `lock_two` and
    /// `lock_all` have `B` = `K`: the thread may hold a later place of the row, so they cannot do so.
    pub fn unlocked<U, F: FnOnce() -> U>(guard: &mut Self, _order: &mut Order<'_, K>, f: F) -> U
        requires rank { B.rank < K.rank }
        requires callable { F.IsAlwaysCallable f }
        ensures answer { F.post f result }
        ensures lock { (held_of guard.new).lock ≡ (held_of guard.old).lock }
    {
        Guard::unlocked(&mut guard.guard, f)
    }

    /// Makes the guard of a part, by a projection that always has one. The mutex stays locked.
    pub fn map<P: View<<L::Shown as ValueGuard>::Value>>(
        guard: Self,
        projection: P,
    ) -> RankedMapped<L, P, B, K>
        ensures { IsMapOf (held_of guard) projection (mapped_of result) }
    {
        Ranked::new(Guard::map(guard.into_guard(), projection))
    }

    /// Makes the guard of a part, or returns the same guard, still locked, if the value has no such part.
    pub fn try_map<P: TryView<<L::Shown as ValueGuard>::Value>>(
        guard: Self,
        projection: P,
    ) -> Result<RankedMapped<L, P, B, K>, Self>
        ensures { IsMappedOr
            (guard_part (held_value L.Shown.value_of) (P.part projection) (held_of guard))
            (held_of guard) projection (λ back. back ≡ guard) result }
    {
        ranked!(Guard::try_map(guard.into_guard(), projection))
    }
}

impl<L: AcquireFair, B: Rank, K: Rank> RankedGuard<L, B, K> {
    /// Releases the mutex by a fair release.
    pub fn unlock_fair(guard: Self) {
        Guard::unlock_fair(guard.into_guard());
    }

    /// Releases the mutex by a fair release, and reacquires it, blocking until it is available. The order is as for
    /// `unlocked`.
    pub fn bump(guard: &mut Self, _order: &mut Order<'_, K>)
        requires rank { B.rank < K.rank }
        ensures lock { (held_of guard.new).lock ≡ (held_of guard.old).lock }
    {
        Guard::bump(&mut guard.guard);
    }
}
