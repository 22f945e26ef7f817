//! A reader-writer lock with a rank.
ghost use Rattle.std.specs.Prelude.{◌≡◌, ◌↔◌, ◌<◌, ◌≤◌, option_and_then, IfErr, IfOk, IfSome, IsOkUnless};
ghost use Rattle.lock_modes.specs.Limits.{IsLimit, IsMakerFault};
ghost use Rattle.lock_ranked.specs.RwLockGuards.{plain_of, raw_of, token_of, IsGuardOf};

use crate::order::{Acquired, Order};
use crate::rank::Rank;
use crate::ranked::RankedLock;
use lock_modes::Fault;
use lock_rwlock::{RwLock, RwLockReadGuard, RwLockUpgradableReadGuard, RwLockWriteGuard};
use lock_traits::{RawRwLock, RawRwLockTimed, RawRwLockUpgrade, RawRwLockUpgradeTimed};
use std::alloc::Global;

/// A reader-writer lock of rank `K`, over any raw lock. A blocking acquisition in any mode requires that the thread holds
/// nothing at `K` or above, so a reader never reads the same lock again.
///
/// # Examples
///
/// ```
/// /// It may be called under any lock below rank 5.
/// fn limit<R: RawRwLock, B: Rank>(
///     settings: &RankedRwLock<R, u64, AtRank<5>>,
///     order: &mut Order<'_, B>,
/// ) -> u64
///     requires { B.rank < 5 }
/// {
///     let (limit, _above) = settings.read(order);
///     *limit
/// }
/// ```
pub type RankedRwLock<R, T, K> = RankedLock<RwLock<R, T>, K>;

impl<R: RawRwLock, T, K: Rank> RankedRwLock<R, T, K> {
    /// Makes an unlocked lock over a new raw lock with `DEFAULT_READERS`. The value is dropped if there is no memory.
    pub fn new(alloc: Global, waiter: R::Waiter, value: T) -> Result<RankedRwLock<R, T, K>, Fault>
    where
        T: Drop,
        ensures { IsOkUnless result Fault.OutOfMemory }
    {
        Ok(RankedRwLock::from_rwlock(RwLock::new(alloc, waiter, value)?))
    }

    /// Makes an unlocked lock that at most `readers` hold shared or upgradable at a time. The value is dropped on an
    /// error.
    pub fn with_readers(
        alloc: Global,
        waiter: R::Waiter,
        readers: u64,
        value: T,
    ) -> Result<RankedRwLock<R, T, K>, Fault>
    where
        T: Drop,
        ensures limits { (result ≡ Err Fault.BadLimits) ↔ (IsLimit readers → ⊥) }
        ensures in_range { IfOk result (λ _. IsLimit readers) }
        ensures fault { IfErr result IsMakerFault }
    {
        let rwlock = RwLock::with_readers(alloc, waiter, readers, value)?;
        Ok(RankedRwLock::from_rwlock(rwlock))
    }

    /// Gives a lock its rank.
    pub fn from_rwlock(rwlock: RwLock<R, T>) -> RankedRwLock<R, T, K>
        ensures { plain_of result ≡ rwlock }
    {
        RankedLock::of(rwlock)
    }

    /// Consumes the lock, and returns the value.
    pub fn into_inner(self) -> T
    where
        R: Drop,
    {
        self.lock.into_inner()
    }

    /// Returns the value. No locking is needed, since the lock is borrowed exclusively.
    pub fn get_mut(&mut self) -> &mut T {
        self.lock.get_mut()
    }

    /// Returns what the raw lock says: whether it is held in any mode. The answer may be stale at once.
    pub fn is_locked(&self) -> bool {
        self.lock.is_locked()
    }

    /// Returns what the raw lock says: whether it is held exclusively. The answer may be stale at once.
    pub fn is_locked_exclusive(&self) -> bool {
        self.lock.is_locked_exclusive()
    }

    /// Acquires the lock shared, blocking until it is available. The order that it returns is at `K`.
    pub fn read<'a, 'o, B: Rank>(
        &'a self,
        order: &'o mut Order<'_, B>,
    ) -> Acquired<'o, RwLockReadGuard<'a, R, T>, B, K, K>
        requires { B.rank < K.rank }
        ensures { IsGuardOf self.now result.0 }
    {
        order.acquired(self.lock.read())
    }

    /// Acquires the lock shared without blocking, whatever its rank, or returns `None` if the raw lock refuses.
    pub fn try_read<'a, 'o, B: Rank, N: Rank>(
        &'a self,
        order: &'o mut Order<'_, B>,
    ) -> Option<Acquired<'o, RwLockReadGuard<'a, R, T>, B, K, N>>
        requires { (B.rank < N.rank) × (K.rank ≤ N.rank) }
        ensures lock { IfSome result (λ got. IsGuardOf self.now got.0) }
        ensures tried { R.tried_shared (raw_of self.now) (option_and_then (λ got. token_of got.0) result) }
    {
        Some(order.acquired(self.lock.try_read()?))
    }

    /// Acquires the lock exclusively, blocking until it is available. The order that it returns is at `K`.
    pub fn write<'a, 'o, B: Rank>(
        &'a self,
        order: &'o mut Order<'_, B>,
    ) -> Acquired<'o, RwLockWriteGuard<'a, R, T>, B, K, K>
        requires { B.rank < K.rank }
        ensures { IsGuardOf self.now result.0 }
    {
        order.acquired(self.lock.write())
    }

    /// Acquires the lock exclusively without blocking, whatever its rank, or returns `None` if the raw lock refuses.
    pub fn try_write<'a, 'o, B: Rank, N: Rank>(
        &'a self,
        order: &'o mut Order<'_, B>,
    ) -> Option<Acquired<'o, RwLockWriteGuard<'a, R, T>, B, K, N>>
        requires { (B.rank < N.rank) × (K.rank ≤ N.rank) }
        ensures lock { IfSome result (λ got. IsGuardOf self.now got.0) }
        ensures tried { R.tried_exclusive (raw_of self.now) (option_and_then (λ got. token_of got.0) result) }
    {
        Some(order.acquired(self.lock.try_write()?))
    }
}

impl<R: RawRwLockTimed, T, K: Rank> RankedRwLock<R, T, K> {
    /// `try_read`, where the raw lock may block for at most `timeout`.
    pub fn try_read_for<'a, 'o, B: Rank, N: Rank>(
        &'a self,
        order: &'o mut Order<'_, B>,
        timeout: R::Duration,
    ) -> Option<Acquired<'o, RwLockReadGuard<'a, R, T>, B, K, N>>
        requires { (B.rank < N.rank) × (K.rank ≤ N.rank) }
        ensures lock { IfSome result (λ got. IsGuardOf self.now got.0) }
        ensures tried { R.tried_shared_for (raw_of self.now) timeout
            (option_and_then (λ got. token_of got.0) result) }
    {
        Some(order.acquired(self.lock.try_read_for(timeout)?))
    }

    /// `try_read`, where the raw lock may block until `deadline`.
    pub fn try_read_until<'a, 'o, B: Rank, N: Rank>(
        &'a self,
        order: &'o mut Order<'_, B>,
        deadline: R::Instant,
    ) -> Option<Acquired<'o, RwLockReadGuard<'a, R, T>, B, K, N>>
        requires { (B.rank < N.rank) × (K.rank ≤ N.rank) }
        ensures lock { IfSome result (λ got. IsGuardOf self.now got.0) }
        ensures tried { R.tried_shared_until (raw_of self.now) deadline
            (option_and_then (λ got. token_of got.0) result) }
    {
        Some(order.acquired(self.lock.try_read_until(deadline)?))
    }

    /// `try_write`, where the raw lock may block for at most `timeout`.
    pub fn try_write_for<'a, 'o, B: Rank, N: Rank>(
        &'a self,
        order: &'o mut Order<'_, B>,
        timeout: R::Duration,
    ) -> Option<Acquired<'o, RwLockWriteGuard<'a, R, T>, B, K, N>>
        requires { (B.rank < N.rank) × (K.rank ≤ N.rank) }
        ensures lock { IfSome result (λ got. IsGuardOf self.now got.0) }
        ensures tried { R.tried_exclusive_for (raw_of self.now) timeout
            (option_and_then (λ got. token_of got.0) result) }
    {
        Some(order.acquired(self.lock.try_write_for(timeout)?))
    }

    /// `try_write`, where the raw lock may block until `deadline`.
    pub fn try_write_until<'a, 'o, B: Rank, N: Rank>(
        &'a self,
        order: &'o mut Order<'_, B>,
        deadline: R::Instant,
    ) -> Option<Acquired<'o, RwLockWriteGuard<'a, R, T>, B, K, N>>
        requires { (B.rank < N.rank) × (K.rank ≤ N.rank) }
        ensures lock { IfSome result (λ got. IsGuardOf self.now got.0) }
        ensures tried { R.tried_exclusive_until (raw_of self.now) deadline
            (option_and_then (λ got. token_of got.0) result) }
    {
        Some(order.acquired(self.lock.try_write_until(deadline)?))
    }
}

impl<R: RawRwLockUpgrade, T, K: Rank> RankedRwLock<R, T, K> {
    /// Acquires the lock upgradable, blocking until it is available. The order that it returns is at `K`.
    pub fn upgradable_read<'a, 'o, B: Rank>(
        &'a self,
        order: &'o mut Order<'_, B>,
    ) -> Acquired<'o, RwLockUpgradableReadGuard<'a, R, T>, B, K, K>
        requires { B.rank < K.rank }
        ensures { IsGuardOf self.now result.0 }
    {
        order.acquired(self.lock.upgradable_read())
    }

    /// Acquires the lock upgradable without blocking, whatever its rank, or returns `None` if the raw lock refuses.
    pub fn try_upgradable_read<'a, 'o, B: Rank, N: Rank>(
        &'a self,
        order: &'o mut Order<'_, B>,
    ) -> Option<Acquired<'o, RwLockUpgradableReadGuard<'a, R, T>, B, K, N>>
        requires { (B.rank < N.rank) × (K.rank ≤ N.rank) }
        ensures lock { IfSome result (λ got. IsGuardOf self.now got.0) }
        ensures tried { R.tried_upgradable (raw_of self.now) (option_and_then (λ got. token_of got.0) result) }
    {
        Some(order.acquired(self.lock.try_upgradable_read()?))
    }
}

impl<R: RawRwLockUpgradeTimed, T, K: Rank> RankedRwLock<R, T, K> {
    /// `try_upgradable_read`, where the raw lock may block for at most `timeout`.
    pub fn try_upgradable_read_for<'a, 'o, B: Rank, N: Rank>(
        &'a self,
        order: &'o mut Order<'_, B>,
        timeout: R::Duration,
    ) -> Option<Acquired<'o, RwLockUpgradableReadGuard<'a, R, T>, B, K, N>>
        requires { (B.rank < N.rank) × (K.rank ≤ N.rank) }
        ensures lock { IfSome result (λ got. IsGuardOf self.now got.0) }
        ensures tried { R.tried_upgradable_for (raw_of self.now) timeout
            (option_and_then (λ got. token_of got.0) result) }
    {
        Some(order.acquired(self.lock.try_upgradable_read_for(timeout)?))
    }

    /// `try_upgradable_read`, where the raw lock may block until `deadline`.
    pub fn try_upgradable_read_until<'a, 'o, B: Rank, N: Rank>(
        &'a self,
        order: &'o mut Order<'_, B>,
        deadline: R::Instant,
    ) -> Option<Acquired<'o, RwLockUpgradableReadGuard<'a, R, T>, B, K, N>>
        requires { (B.rank < N.rank) × (K.rank ≤ N.rank) }
        ensures lock { IfSome result (λ got. IsGuardOf self.now got.0) }
        ensures tried { R.tried_upgradable_until (raw_of self.now) deadline
            (option_and_then (λ got. token_of got.0) result) }
    {
        Some(order.acquired(self.lock.try_upgradable_read_until(deadline)?))
    }
}
