//! Acquisitions of a reentrant lock by guards that own a reference to it.
ghost use Rattle.std.specs.Prelude.{IfErr, IfOk, IfSome};
ghost use Rattle.lock_modes.specs.Party.{id_of};
ghost use Rattle.std.specs.Arc.{arc_value};
ghost use Rattle.std.specs.Option.{is_some};
ghost use Rattle.lock_remutex.specs.ArcGuards.{IsArcFault, IsArcGuardOf};
ghost use Rattle.lock_remutex.specs.Guards.{raw_of};
ghost use Rattle.lock_remutex.specs.LevelSteps.{TriedLevel};

use crate::arc_guard::ArcReentrantMutexGuard;
use crate::reentrant_mutex::ReentrantMutex;
use lock_guard::guard::another_owner;
use lock_modes::{Fault, PartyId};
use lock_traits::{RawMutex, RawMutexTimed};
use std::sync::Arc;

impl<R: RawMutex + Drop, T: Drop> ReentrantMutex<R, T> {
    /// `lock`, by a guard that owns a clone of the `Arc`.
    ///
    /// # Errors
    ///
    /// `OutOfMemory` if the `Arc` cannot be cloned; the clone comes first, so nothing is locked then. `FullCount` as
    /// `lock`.
    pub fn lock_arc(
        this: &Arc<ReentrantMutex<R, T>>,
        party: PartyId,
    ) -> Result<ArcReentrantMutexGuard<R, T>, Fault>
        ensures guard { IfOk result (IsArcGuardOf this.now (id_of party)) }
        ensures fault { IfErr result IsArcFault }
    {
        let remutex = another_owner(this)?;
        match remutex.raw.acquire(party) {
            Ok(level) => Ok(ArcReentrantMutexGuard::new(remutex, level)),
            Err(fault) => Err(fault),
        }
    }

    /// `try_lock`, by a guard that owns a clone of the `Arc`.
    ///
    /// # Errors
    ///
    /// `OutOfMemory` if the `Arc` cannot be cloned; the clone comes first, so nothing is locked then. `FullCount` as
    /// `lock`.
    #[tactic(auto, using(crate::proofs::Tries::tried_level))]
    pub fn try_lock_arc(
        this: &Arc<ReentrantMutex<R, T>>,
        party: PartyId,
    ) -> Result<Option<ArcReentrantMutexGuard<R, T>>, Fault>
        ensures guard { IfOk result (λ got. IfSome got (IsArcGuardOf this.now (id_of party))) }
        ensures tried { IfOk result (λ got. TriedLevel (R.tried (raw_of (arc_value this.now))) R.is_own (raw_of (arc_value this.now)) (id_of party) (is_some got)) }
        ensures fault { IfErr result IsArcFault }
    {
        let remutex = another_owner(this)?;
        match remutex.raw.try_acquire(party) {
            Ok(got) => Ok(ArcReentrantMutexGuard::guarded(remutex, got)),
            Err(fault) => Err(fault),
        }
    }
}

impl<R: RawMutexTimed + Drop, T: Drop> ReentrantMutex<R, T> {
    /// `try_lock_arc`, where the raw lock may block for at most `timeout`.
    #[tactic(auto, using(crate::proofs::Tries::tried_level))]
    pub fn try_lock_arc_for(
        this: &Arc<ReentrantMutex<R, T>>,
        party: PartyId,
        timeout: R::Duration,
    ) -> Result<Option<ArcReentrantMutexGuard<R, T>>, Fault>
        ensures guard { IfOk result (λ got. IfSome got (IsArcGuardOf this.now (id_of party))) }
        ensures tried { IfOk result (λ got. TriedLevel (R.tried_for (raw_of (arc_value this.now)) timeout) R.is_own (raw_of (arc_value this.now)) (id_of party) (is_some got)) }
        ensures fault { IfErr result IsArcFault }
    {
        let remutex = another_owner(this)?;
        match remutex.raw.try_acquire_for(party, timeout) {
            Ok(got) => Ok(ArcReentrantMutexGuard::guarded(remutex, got)),
            Err(fault) => Err(fault),
        }
    }

    /// `try_lock_arc`, where the raw lock may block until `deadline`.
    #[tactic(auto, using(crate::proofs::Tries::tried_level))]
    pub fn try_lock_arc_until(
        this: &Arc<ReentrantMutex<R, T>>,
        party: PartyId,
        deadline: R::Instant,
    ) -> Result<Option<ArcReentrantMutexGuard<R, T>>, Fault>
        ensures guard { IfOk result (λ got. IfSome got (IsArcGuardOf this.now (id_of party))) }
        ensures tried { IfOk result (λ got. TriedLevel (R.tried_until (raw_of (arc_value this.now)) deadline) R.is_own (raw_of (arc_value this.now)) (id_of party) (is_some got)) }
        ensures fault { IfErr result IsArcFault }
    {
        let remutex = another_owner(this)?;
        match remutex.raw.try_acquire_until(party, deadline) {
            Ok(got) => Ok(ArcReentrantMutexGuard::guarded(remutex, got)),
            Err(fault) => Err(fault),
        }
    }
}
