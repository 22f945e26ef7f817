//! A reentrant mutex with a rank.
ghost use Rattle.std.specs.Prelude.{◌≡◌, ◌<◌, ◌≤◌, IfErr, IfOk, IfSome, IsOkUnless};
ghost use Rattle.lock_modes.specs.Party.{id_of};
ghost use Rattle.std.specs.Option.{is_some};
ghost use Rattle.lock_remutex.specs.Guards.{raw_of, value_of};
ghost use Rattle.lock_remutex.specs.LevelSteps.{TriedLevel};
ghost use Rattle.lock_ranked.specs.ReentrantGuards.{owner_of, plain_of, remutex_of, IsLevelOf};

use crate::order::{Acquired, Order};
use crate::rank::Rank;
use crate::ranked::{Ranked, RankedLock};
use lock_modes::{Fault, PartyId};
use lock_remutex::{ReentrantMutex, ReentrantMutexGuard};
use lock_traits::{RawMutex, RawMutexTimed};
use std::alloc::Global;

/// A reentrant mutex of rank `K`. The first acquisition requires that the thread holds nothing at `K` or above; the guard
/// gives the owner further levels.
///
/// A thread acts for one party.
pub type RankedReentrantMutex<R, T, K> = RankedLock<ReentrantMutex<R, T>, K>;

impl<R: RawMutex + Drop, T: Sync, K: Rank> RankedReentrantMutex<R, T, K>
where
    R::Guard: Send,
{
    /// Makes an unlocked lock of `DEFAULT_LEVELS` over a new raw lock. The value is dropped if there is no memory.
    pub fn new(alloc: Global, waiter: R::Waiter, value: T) -> Result<Self, Fault>
    where
        T: Drop,
        ensures fault { IsOkUnless result Fault.OutOfMemory }
        ensures value { IfOk result (λ lock. value_of (plain_of lock) ≡ value) }
    {
        Ok(RankedLock::of(ReentrantMutex::new(alloc, waiter, value)?))
    }
}

impl<R: RawMutex, T, K: Rank> RankedReentrantMutex<R, T, K> {
    /// Gives a lock its rank.
    pub fn from_remutex(remutex: ReentrantMutex<R, T>) -> Self
        ensures { plain_of result ≡ remutex }
    {
        RankedLock::of(remutex)
    }

    /// Acquires one level for the party, blocking until no other party owns the lock.
    ///
    /// # Errors
    ///
    /// `FullCount` if the party owns the lock at all its levels.
    pub fn lock<'a, 'o, B: Rank>(
        &'a self,
        order: &'o mut Order<'_, B>,
        party: PartyId,
    ) -> Result<Acquired<'o, ReentrantMutexGuard<'a, R, T>, B, K, K>, Fault>
        requires { B.rank < K.rank }
        ensures guard { IfOk result (λ got. IsLevelOf (plain_of self.now) (id_of party) got.0) }
        ensures fault { IfErr result (λ fault. fault ≡ Fault.FullCount) }
    {
        Ok(order.acquired(self.lock.lock(party)?))
    }

    /// Acquires one level for the party without blocking, whatever the lock's rank, or returns `None`.
    ///
    /// # Errors
    ///
    /// As `lock`.
    pub fn try_lock<'a, 'o, B: Rank, N: Rank>(
        &'a self,
        order: &'o mut Order<'_, B>,
        party: PartyId,
    ) -> Result<Option<Acquired<'o, ReentrantMutexGuard<'a, R, T>, B, K, N>>, Fault>
        requires { (B.rank < N.rank) × (K.rank ≤ N.rank) }
        ensures guard { IfOk result (λ got. IfSome got (λ level. IsLevelOf (plain_of self.now) (id_of party) level.0)) }
        ensures tried { IfOk result (λ got. TriedLevel (R.tried (raw_of (plain_of self.now))) R.is_own (raw_of (plain_of self.now)) (id_of party) (is_some got)) }
        ensures fault { IfErr result (λ fault. fault ≡ Fault.FullCount) }
    {
        match self.lock.try_lock(party) {
            Ok(Some(guard)) => Ok(Some(order.acquired(guard))),
            Ok(None) => Ok(None),
            Err(fault) => Err(fault),
        }
    }
}

impl<R: RawMutexTimed, T, K: Rank> RankedReentrantMutex<R, T, K> {
    /// `try_lock`, where the raw lock may block for at most `timeout`.
    pub fn try_lock_for<'a, 'o, B: Rank, N: Rank>(
        &'a self,
        order: &'o mut Order<'_, B>,
        party: PartyId,
        timeout: R::Duration,
    ) -> Result<Option<Acquired<'o, ReentrantMutexGuard<'a, R, T>, B, K, N>>, Fault>
        requires { (B.rank < N.rank) × (K.rank ≤ N.rank) }
        ensures guard { IfOk result (λ got. IfSome got (λ level. IsLevelOf (plain_of self.now) (id_of party) level.0)) }
        ensures tried { IfOk result (λ got. TriedLevel (R.tried_for (raw_of (plain_of self.now)) timeout) R.is_own (raw_of (plain_of self.now)) (id_of party) (is_some got)) }
        ensures fault { IfErr result (λ fault. fault ≡ Fault.FullCount) }
    {
        match self.lock.try_lock_for(party, timeout) {
            Ok(Some(guard)) => Ok(Some(order.acquired(guard))),
            Ok(None) => Ok(None),
            Err(fault) => Err(fault),
        }
    }

    /// `try_lock`, where the raw lock may block until `deadline`.
    pub fn try_lock_until<'a, 'o, B: Rank, N: Rank>(
        &'a self,
        order: &'o mut Order<'_, B>,
        party: PartyId,
        deadline: R::Instant,
    ) -> Result<Option<Acquired<'o, ReentrantMutexGuard<'a, R, T>, B, K, N>>, Fault>
        requires { (B.rank < N.rank) × (K.rank ≤ N.rank) }
        ensures guard { IfOk result (λ got. IfSome got (λ level. IsLevelOf (plain_of self.now) (id_of party) level.0)) }
        ensures tried { IfOk result (λ got. TriedLevel (R.tried_until (raw_of (plain_of self.now)) deadline) R.is_own (raw_of (plain_of self.now)) (id_of party) (is_some got)) }
        ensures fault { IfErr result (λ fault. fault ≡ Fault.FullCount) }
    {
        match self.lock.try_lock_until(party, deadline) {
            Ok(Some(guard)) => Ok(Some(order.acquired(guard))),
            Ok(None) => Ok(None),
            Err(fault) => Err(fault),
        }
    }
}

/// One level of a ranked reentrant mutex, which reads the value. It releases the level on drop, and until then the order
/// of the first acquisition is borrowed.
pub type RankedReentrantMutexGuard<'a, R, T, B, K> = Ranked<ReentrantMutexGuard<'a, R, T>, B, K>;

impl<'a, R: RawMutex, T, B: Rank, K: Rank> RankedReentrantMutexGuard<'a, R, T, B, K> {
    /// Acquires a further level for the owner, at any rank. It never blocks.
    ///
    /// # Errors
    ///
    /// `FullCount` if the party owns the lock at all its levels.
    pub fn again(guard: &Self) -> Result<Self, Fault>
        ensures guard { IfOk result (IsLevelOf (remutex_of guard.now) (owner_of guard.now)) }
        ensures fault { IfErr result (λ fault. fault ≡ Fault.FullCount) }
    {
        let party = ReentrantMutexGuard::party(&guard.guard);
        let next = ReentrantMutexGuard::remutex(&guard.guard).lock(party)?;
        Ok(Ranked::new(next))
    }
}
