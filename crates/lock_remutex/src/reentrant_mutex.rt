//! A mutex whose owner may acquire it again, with a value.
ghost use Rattle.std.specs.Prelude.{◌≡◌, ◌↔◌, Err, IfOk, IfErr, IfSome, IsOkUnless};
ghost use Rattle.std.specs.Option.{is_some};
ghost use Rattle.std.specs.Borrow.{Lends, sem};
ghost use Rattle.lock_modes.specs.Limits.{IsLimit, IsMakerFault};
ghost use Rattle.lock_modes.specs.Party.{id_of};
ghost use Rattle.lock_remutex.specs.LevelSteps.{TriedLevel};
ghost use Rattle.lock_remutex.specs.Guards.{raw_of, value_of, with_value, IsGuardOf};

use crate::raw_reentrant_mutex::RawReentrantMutex;
use crate::reentrant_mutex_guard::ReentrantMutexGuard;
use lock_modes::{Fault, PartyId};
use lock_traits::{RawMutex, RawMutexTimed};
use std::alloc::Global;

/// A value behind a mutex that its owner may acquire again.
///
/// A party may hold several guards at a time, so a guard only reads. The value is stored plainly and must be `Sync`.
/// The raw lock's token lies behind a mutex of its own and must be `Send`.
#[derive(Drop)]
pub struct ReentrantMutex<R: RawMutex, T> {
    pub(crate) raw: RawReentrantMutex<R>,
    pub(crate) value: T,
}

impl<R: RawMutex + Drop, T: Sync> ReentrantMutex<R, T>
where
    R::Guard: Send,
{
    /// Makes an unlocked lock of `DEFAULT_LEVELS` over a new raw lock. The value is dropped if there is no memory.
    pub fn new(alloc: Global, waiter: R::Waiter, value: T) -> Result<Self, Fault>
    where
        T: Drop,
        ensures fault { IsOkUnless result Fault.OutOfMemory }
        ensures value { IfOk result (λ lock. value_of lock ≡ value) }
    {
        let raw = RawReentrantMutex::new(alloc, waiter)?;
        Ok(ReentrantMutex { raw, value })
    }

    /// Makes an unlocked lock of `levels`. It checks the limit before it allocates.
    pub fn with_levels(
        alloc: Global,
        waiter: R::Waiter,
        levels: u64,
        value: T,
    ) -> Result<Self, Fault>
    where
        T: Drop,
        ensures range { (result ≡ Err Fault.BadLimits) ↔ (¬ IsLimit levels) }
        ensures in_range { IfOk result (λ _. IsLimit levels) }
        ensures fault { IfErr result IsMakerFault }
        ensures value { IfOk result (λ lock. value_of lock ≡ value) }
    {
        let raw = RawReentrantMutex::with_levels(alloc, waiter, levels)?;
        Ok(ReentrantMutex { raw, value })
    }

    /// `new`, under the name of std's conversion.
    pub fn from(alloc: Global, waiter: R::Waiter, value: T) -> Result<Self, Fault>
    where
        T: Drop,
        ensures fault { IsOkUnless result Fault.OutOfMemory }
        ensures value { IfOk result (λ lock. value_of lock ≡ value) }
    {
        ReentrantMutex::new(alloc, waiter, value)
    }

    /// `new`, of the default value.
    pub fn default(alloc: Global, waiter: R::Waiter) -> Result<Self, Fault>
    where
        T: Default + Drop,
        ensures fault { IsOkUnless result Fault.OutOfMemory }
        ensures value { IfOk result (λ lock. T.is_default (value_of lock)) }
    {
        ReentrantMutex::new(alloc, waiter, T::default())
    }

    /// Makes a lock of `DEFAULT_LEVELS` over a given raw lock. Both are dropped if there is no memory.
    pub fn from_raw(alloc: Global, raw: R, value: T) -> Result<Self, Fault>
    where
        T: Drop,
        ensures fault { IsOkUnless result Fault.OutOfMemory }
        ensures raw { IfOk result (λ lock. raw_of lock ≡ raw) }
        ensures value { IfOk result (λ lock. value_of lock ≡ value) }
    {
        let raw = RawReentrantMutex::from_raw(alloc, raw)?;
        Ok(ReentrantMutex { raw, value })
    }
}

impl<R: RawMutex, T> ReentrantMutex<R, T> {
    ghost use Rattle.lock_remutex.specs.contracts.reentrant_mutex.ReentrantMutex.{the_row};

    /// Consumes the lock, and returns the value.
    pub fn into_inner(self) -> T
    where
        R: Drop,
        ensures { result ≡ value_of self }
    {
        self.into_inner_with_raw().1
    }

    /// Consumes the lock, and returns the raw lock and the value. The raw lock stays held if a party owns it.
    pub fn into_inner_with_raw(self) -> (R, T)
        ensures raw { result.0 ≡ raw_of self }
        ensures value { result.1 ≡ value_of self }
    {
        let ReentrantMutex { raw, value } = self;
        (raw.into_raw(), value)
    }

    /// Returns the value. No locking is needed, since the lock is borrowed exclusively.
    pub fn get_mut(&mut self) -> &mut T
        ensures* writes_back { sem 𝓛 (Lends (the_row R.row T.row R.Guard.row R.Waiter.row R.RawMutex R.Waiter.Wait R.Waiter.Clone) T.row
            self.entry result (with_value self.old)) }
        ensures value { result.now ≡ value_of self.old }
    {
        &mut self.value
    }

    /// Returns what the raw lock says: whether it is held. The answer may be stale at once.
    pub fn is_locked(&self) -> bool {
        self.raw.is_locked()
    }

    /// Returns whether the party owns the lock. The answer may be stale at once if other threads act for the party.
    pub fn is_owned_by_current_thread(&self, party: PartyId) -> bool {
        self.raw.is_owned_by_current_thread(party)
    }

    /// Acquires one level for the party, blocking until no other party owns the lock.
    ///
    /// # Errors
    ///
    /// `FullCount` if the party owns the lock at all its levels.
    pub fn lock(&self, party: PartyId) -> Result<ReentrantMutexGuard<'_, R, T>, Fault>
        ensures guard { IfOk result (IsGuardOf self.entry (id_of party)) }
        ensures fault { IfErr result (λ fault. fault ≡ Fault.FullCount) }
    {
        match self.raw.acquire(party) {
            Ok(level) => Ok(ReentrantMutexGuard::new(self, level)),
            Err(fault) => Err(fault),
        }
    }

    /// Acquires one level for the party without blocking, or returns `None`.
    ///
    /// # Errors
    ///
    /// As `lock`.
    #[tactic(auto, using(crate::proofs::Tries::tried_level))]
    pub fn try_lock(&self, party: PartyId) -> Result<Option<ReentrantMutexGuard<'_, R, T>>, Fault>
        ensures guard { IfOk result (λ got. IfSome got (IsGuardOf self.entry (id_of party))) }
        ensures tried { IfOk result (λ got. TriedLevel (R.tried (raw_of self.now)) R.is_own (raw_of self.now) (id_of party) (is_some got)) }
        ensures fault { IfErr result (λ fault. fault ≡ Fault.FullCount) }
    {
        match self.raw.try_acquire(party) {
            Ok(got) => Ok(ReentrantMutexGuard::guarded(self, got)),
            Err(fault) => Err(fault),
        }
    }
}

impl<R: RawMutexTimed, T> ReentrantMutex<R, T> {
    /// `try_lock`, where the raw lock may block for at most `timeout`.
    #[tactic(auto, using(crate::proofs::Tries::tried_level))]
    pub fn try_lock_for(
        &self,
        party: PartyId,
        timeout: R::Duration,
    ) -> Result<Option<ReentrantMutexGuard<'_, R, T>>, Fault>
        ensures guard { IfOk result (λ got. IfSome got (IsGuardOf self.entry (id_of party))) }
        ensures tried { IfOk result (λ got. TriedLevel (R.tried_for (raw_of self.now) timeout) R.is_own (raw_of self.now) (id_of party) (is_some got)) }
        ensures fault { IfErr result (λ fault. fault ≡ Fault.FullCount) }
    {
        match self.raw.try_acquire_for(party, timeout) {
            Ok(got) => Ok(ReentrantMutexGuard::guarded(self, got)),
            Err(fault) => Err(fault),
        }
    }

    /// `try_lock`, where the raw lock may block until `deadline`.
    #[tactic(auto, using(crate::proofs::Tries::tried_level))]
    pub fn try_lock_until(
        &self,
        party: PartyId,
        deadline: R::Instant,
    ) -> Result<Option<ReentrantMutexGuard<'_, R, T>>, Fault>
        ensures guard { IfOk result (λ got. IfSome got (IsGuardOf self.entry (id_of party))) }
        ensures tried { IfOk result (λ got. TriedLevel (R.tried_until (raw_of self.now) deadline) R.is_own (raw_of self.now) (id_of party) (is_some got)) }
        ensures fault { IfErr result (λ fault. fault ≡ Fault.FullCount) }
    {
        match self.raw.try_acquire_until(party, deadline) {
            Ok(got) => Ok(ReentrantMutexGuard::guarded(self, got)),
            Err(fault) => Err(fault),
        }
    }
}
