ghost use Rattle.std.specs.Prelude.{◌≡◌, IfErr, IfOk, IfSome, MatchResult};
ghost use Rattle.lock_modes.specs.Party.{id_of};
ghost use Rattle.std.specs.Arc.{arc_value};
ghost use Rattle.std.specs.Option.{is_some};
ghost use Rattle.lock_remutex.specs.ArcGuards.{arc_of, arc_party, arc_guard_value, IsSameArcGuard};
ghost use Rattle.lock_remutex.specs.Guards.{raw_of};
ghost use Rattle.lock_remutex.specs.LevelSteps.{AnswersLevel, IsOn, Kept};

use crate::owner_table::Level;
use crate::reentrant_mutex::ReentrantMutex;
use lock_modes::{Fault, PartyId};
use lock_traits::{RawMutex, RawMutexFair};
use std::ops::Deref;
use std::sync::Arc;

/// One level of a party that owns a reference to its lock. It reads the value. Its drop releases the level, and with
/// the last level the raw lock.
pub struct ArcReentrantMutexGuard<R: RawMutex + Drop, T: Drop> {
    remutex: Arc<ReentrantMutex<R, T>>,
    party: PartyId,
}

impl<R: RawMutex + Drop, T: Drop> ArcReentrantMutexGuard<R, T> {
    /// Makes the guard of a level.
    pub(crate) fn new(remutex: Arc<ReentrantMutex<R, T>>, level: Level<R>) -> Self
        requires { IsOn (raw_of (arc_value remutex)) level.call }
        ensures lock { arc_of result ≡ remutex }
        ensures party { arc_party result ≡ level.party }
        ensures kept { Kept R.is_own level }
    {
        let party = level.keep();
        ArcReentrantMutexGuard { remutex, party }
    }

    /// Makes the guard of a new level, if there is one.
    pub(crate) fn guarded(remutex: Arc<ReentrantMutex<R, T>>, got: Option<Level<R>>) -> Option<Self>
        requires { IfSome got (λ level. IsOn (raw_of (arc_value remutex)) level.call) }
        ensures answers { AnswersLevel R.is_own got (is_some result) }
        ensures lock { IfSome result (λ guard. arc_of guard ≡ remutex) }
        ensures party { IfSome result (λ guard. IfSome got (λ level. arc_party guard ≡ level.party)) }
    {
        match got {
            Some(level) => Some(ArcReentrantMutexGuard::new(remutex, level)),
            None => None,
        }
    }

    /// Returns the lock of the guard.
    pub fn remutex(guard: &Self) -> &Arc<ReentrantMutex<R, T>>
        ensures { result.now ≡ arc_of guard.now }
    {
        &guard.remutex
    }

    /// Releases the level, and returns the guard's reference to the lock.
    pub fn into_arc(guard: Self) -> Arc<ReentrantMutex<R, T>>
        ensures { result ≡ arc_of guard }
    {
        let ArcReentrantMutexGuard { remutex, party } = guard;
        let _ = remutex.raw.unlock(party);
        remutex
    }

    /// Releases one level, runs `f`, and acquires one level again, as `lock`.
    ///
    /// # Errors
    ///
    /// `FullCount` if the party has all its levels when `f` returns. The level stays released then.
    pub fn unlocked<U, F: FnOnce() -> U>(guard: Self, f: F) -> Result<(Self, U), (Fault, U)>
        requires { F.IsAlwaysCallable f }
        ensures answer { MatchResult result (λ back. F.post f back.1) (λ refused. F.post f refused.1) }
        ensures same { IfOk result (λ back. IsSameArcGuard guard back.0) }
        ensures fault { IfErr result (λ refused. refused.0 ≡ Fault.FullCount) }
    {
        let party = guard.party;
        let remutex = ArcReentrantMutexGuard::into_arc(guard);
        let answer = f();
        ArcReentrantMutexGuard::lock_again(remutex, party, answer)
    }

    /// Acquires a further level, and returns its guard with the answer of `f`.
    fn lock_again<U>(
        remutex: Arc<ReentrantMutex<R, T>>,
        party: PartyId,
        answer: U,
    ) -> Result<(Self, U), (Fault, U)>
        ensures answer { MatchResult result (λ back. back.1 ≡ answer) (λ refused. refused.1 ≡ answer) }
        ensures lock { IfOk result (λ back. arc_of back.0 ≡ remutex) }
        ensures party { IfOk result (λ back. arc_party back.0 ≡ id_of party) }
        ensures fault { IfErr result (λ refused. refused.0 ≡ Fault.FullCount) }
    {
        match remutex.raw.acquire(party) {
            Ok(level) => Ok((ArcReentrantMutexGuard::new(remutex, level), answer)),
            Err(fault) => Err((fault, answer)),
        }
    }
}

impl<R: RawMutexFair + Drop, T: Drop> ArcReentrantMutexGuard<R, T> {
    /// Releases the level. With the last level it releases the raw lock by a fair release.
    pub fn unlock_fair(guard: Self) {
        drop(ArcReentrantMutexGuard::into_arc_fair(guard));
    }

    /// `into_arc`, by a fair release.
    pub fn into_arc_fair(guard: Self) -> Arc<ReentrantMutex<R, T>>
        ensures { result ≡ arc_of guard }
    {
        let ArcReentrantMutexGuard { remutex, party } = guard;
        let _ = remutex.raw.unlock_fair(party);
        remutex
    }

    /// `unlocked`, by a fair release.
    pub fn unlocked_fair<U, F: FnOnce() -> U>(guard: Self, f: F) -> Result<(Self, U), (Fault, U)>
        requires { F.IsAlwaysCallable f }
        ensures answer { MatchResult result (λ back. F.post f back.1) (λ refused. F.post f refused.1) }
        ensures same { IfOk result (λ back. IsSameArcGuard guard back.0) }
        ensures fault { IfErr result (λ refused. refused.0 ≡ Fault.FullCount) }
    {
        let party = guard.party;
        let remutex = ArcReentrantMutexGuard::into_arc_fair(guard);
        let answer = f();
        ArcReentrantMutexGuard::lock_again(remutex, party, answer)
    }

    /// At one level, releases the raw lock by a fair release, and reacquires it, blocking until it is available. At
    /// more levels it does nothing.
    pub fn bump(guard: &mut Self)
        ensures { IsSameArcGuard guard.old guard.new }
    {
        let party = guard.party;
        let _ = guard.remutex.raw.bump(party);
    }
}

impl<R: RawMutex + Drop, T: Drop> Deref for ArcReentrantMutexGuard<R, T> {
    type Target = T;

    ghost deref_gives = { λ guard value. arc_guard_value guard ≡ value };

    fn deref(&self) -> &T
        ensures { result.now ≡ arc_guard_value self.now }
    {
        &self.remutex.value
    }
}

impl<R: RawMutex + Drop, T: Drop> Drop for ArcReentrantMutexGuard<R, T> {
    fn drop(self) {
        drop(ArcReentrantMutexGuard::into_arc(self));
    }
}
