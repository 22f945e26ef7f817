ghost use Rattle.std.specs.Prelude.{◌≡◌, IfOk, IfErr, IfSome, MatchResult};
ghost use Rattle.std.specs.Option.{is_some};
ghost use Rattle.lock_modes.specs.Party.{id_of};
ghost use Rattle.lock_remutex.specs.Guards.{guard_lock, guard_party, guard_value, raw_of, IsGuardOf, IsSameGuard};
ghost use Rattle.lock_remutex.specs.LevelSteps.{AnswersLevel, IsOn, Kept};

use crate::owner_table::Level;
use crate::reentrant_mutex::ReentrantMutex;
use lock_modes::{Fault, PartyId};
use lock_traits::{RawMutex, RawMutexFair};
use std::ops::Deref;

/// One level of a party, which reads the value. Its drop releases the level, and with the last level the raw lock.
pub struct ReentrantMutexGuard<'a, R: RawMutex, T> {
    remutex: &'a ReentrantMutex<R, T>,
    party: PartyId,
}

impl<'a, R: RawMutex, T> ReentrantMutexGuard<'a, R, T> {
    /// Makes the guard of a level.
    pub(crate) fn new(remutex: &'a ReentrantMutex<R, T>, level: Level<R>) -> Self
        requires { IsOn (raw_of remutex.now) level.call }
        ensures guard { IsGuardOf remutex.entry level.party result }
        ensures kept { Kept R.is_own level }
    {
        let party = level.keep();
        ReentrantMutexGuard { remutex, party }
    }

    /// Makes the guard of a new level, if there is one.
    pub(crate) fn guarded(remutex: &'a ReentrantMutex<R, T>, got: Option<Level<R>>) -> Option<Self>
        requires { IfSome got (λ level. IsOn (raw_of remutex.now) level.call) }
        ensures answers { AnswersLevel R.is_own got (is_some result) }
        ensures guard { IfSome result (λ guard. IfSome got (λ level. IsGuardOf remutex.entry level.party guard)) }
    {
        match got {
            Some(level) => Some(ReentrantMutexGuard::new(remutex, level)),
            None => None,
        }
    }

    /// Returns the lock of the guard.
    pub fn remutex(guard: &Self) -> &'a ReentrantMutex<R, T>
        ensures { result ≡ guard_lock guard.now }
    {
        guard.remutex
    }

    /// Returns the party whose level the guard is.
    pub fn party(guard: &Self) -> PartyId
        ensures { id_of result ≡ guard_party guard.now }
    {
        guard.party
    }

    /// Releases one level, runs `f`, and acquires one level again, as `lock`.
    ///
    /// # Errors
    ///
    /// `FullCount` if the party has all its levels when `f` returns. The level stays released then.
    pub fn unlocked<U, F: FnOnce() -> U>(guard: Self, f: F) -> Result<(Self, U), (Fault, U)>
        requires { F.IsAlwaysCallable f }
        ensures answer { MatchResult result (λ back. F.post f back.1) (λ refused. F.post f refused.1) }
        ensures same { IfOk result (λ back. IsSameGuard guard.entry back.0) }
        ensures fault { IfErr result (λ refused. refused.0 ≡ Fault.FullCount) }
    {
        let ReentrantMutexGuard { remutex, party } = guard;
        let _ = remutex.raw.unlock(party);
        let answer = f();
        ReentrantMutexGuard::lock_again(remutex, party, answer)
    }

    /// Acquires a further level, and returns its guard with the answer of `f`.
    fn lock_again<U>(
        remutex: &'a ReentrantMutex<R, T>,
        party: PartyId,
        answer: U,
    ) -> Result<(Self, U), (Fault, U)>
        ensures answer { MatchResult result (λ back. back.1 ≡ answer) (λ refused. refused.1 ≡ answer) }
        ensures guard { IfOk result (λ back. IsGuardOf remutex.entry (id_of party) back.0) }
        ensures fault { IfErr result (λ refused. refused.0 ≡ Fault.FullCount) }
    {
        match remutex.lock(party) {
            Ok(guard) => Ok((guard, answer)),
            Err(fault) => Err((fault, answer)),
        }
    }
}

impl<R: RawMutexFair, T> ReentrantMutexGuard<'_, R, T> {
    /// Releases the level. With the last level it releases the raw lock by a fair release.
    pub fn unlock_fair(guard: Self) {
        let ReentrantMutexGuard { remutex, party } = guard;
        let _ = remutex.raw.unlock_fair(party);
    }

    /// `unlocked`, by a fair release.
    pub fn unlocked_fair<U, F: FnOnce() -> U>(guard: Self, f: F) -> Result<(Self, U), (Fault, U)>
        requires { F.IsAlwaysCallable f }
        ensures answer { MatchResult result (λ back. F.post f back.1) (λ refused. F.post f refused.1) }
        ensures same { IfOk result (λ back. IsSameGuard guard.entry back.0) }
        ensures fault { IfErr result (λ refused. refused.0 ≡ Fault.FullCount) }
    {
        let ReentrantMutexGuard { remutex, party } = guard;
        let _ = remutex.raw.unlock_fair(party);
        let answer = f();
        ReentrantMutexGuard::lock_again(remutex, party, answer)
    }

    /// At one level, releases the raw lock by a fair release, and reacquires it, blocking until it is available. At
    /// more levels it does nothing.
    pub fn bump(guard: &mut Self)
        ensures { IsSameGuard guard.old guard.new }
    {
        let _ = guard.remutex.raw.bump(guard.party);
    }
}

impl<R: RawMutex, T> Deref for ReentrantMutexGuard<'_, R, T> {
    type Target = T;

    ghost deref_gives = { λ guard value. guard_value guard ≡ value };

    fn deref(&self) -> &T
        ensures { result.now ≡ guard_value self.now }
    {
        &self.remutex.value
    }
}

impl<R: RawMutex, T> Drop for ReentrantMutexGuard<'_, R, T> {
    fn drop(self) {
        let ReentrantMutexGuard { remutex, party } = self;
        let _ = remutex.raw.unlock(party);
    }
}
