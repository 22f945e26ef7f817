//! Scripts on a reentrant mutex.
ghost use Rattle.std.specs.Prelude.{◌≡◌, ◌↔◌, IfOk, IfErr, IsOkUnless, MatchResult};
ghost use Rattle.lock_script.specs.Session.{HasLimits, replies_to};
ghost use Rattle.lock_conform.specs.Makers.{IsRunFault, kind_of};
ghost use Rattle.lock_conform.specs.Reports.{IsReport};

use crate::driven::{After, Driven, ScriptGuard};
use crate::manner::Manner;
use crate::operation::ask;
use crate::parts::{RunParts, run_parts, shared};
use crate::report::Report;
use crate::script_run::run_on;
use lock_machine::{Call, Form, Reply, Want, Way};
use lock_modes::{Fault, Kind, PartyId};
use lock_recorder::Deadline;
use lock_remutex::{ArcReentrantMutexGuard, ReentrantMutex, ReentrantMutexGuard};
use lock_script::{DeskScript, Pair, PairOp};
use lock_traits::{RawMutexFair, RawMutexTimed};
use std::alloc::Global;
use std::sync::Arc;

/// Runs a script of a reentrant lock over the raw lock. The lock has `DEFAULT_LEVELS`; the `Desk` refuses what is beyond
/// the script's limit.
pub fn run_reentrant<R>(
    alloc: Global,
    raw: R,
    script: DeskScript,
    manner: Manner,
) -> Result<Report, Fault>
where
    R: RawMutexFair + RawMutexTimed + Drop,
    R::Guard: Send,
    R::Duration: Default,
    R::Instant: Deadline<R::Waiter>,
    ensures kind { (result ≡ Err Fault.WrongKind) ↔ ¬ (kind_of script.maker ≡ Kind.Reentrant) }
    ensures limits { (result ≡ Err Fault.BadLimits) ↔ ((kind_of script.maker ≡ Kind.Reentrant) × ¬ HasLimits script.maker) }
    ensures fault { IfErr result IsRunFault }
    ensures report { IfOk result
        (IsReport script.calls.items (replies_to script.maker script.calls.items)) }
{
    let parts = run_parts(alloc, Kind::Reentrant, raw, script)?;
    let report = run_lines(alloc, parts, manner)?;
    Ok(report)
}

/// Makes the lines of a script on a reentrant lock.
fn run_lines<R>(alloc: Global, parts: RunParts<R>, manner: Manner) -> Result<Report, Fault>
where
    R: RawMutexFair + RawMutexTimed<Duration = u64, Instant = u64> + Drop,
    R::Guard: Send,
    ensures fault { IsOkUnless result Fault.OutOfMemory }
    ensures report { IfOk result (IsReport parts.lines.calls.items parts.lines.replies.items) }
{
    let lock = ReentrantMutex::from_raw(alloc, parts.raw, parts.pair)?;
    if !manner.is_arc {
        return Ok(run_on(alloc, &&lock, parts.log, parts.lines, manner.park_by)?);
    }
    let lock = shared(alloc, lock)?;
    Ok(run_on(alloc, &lock, parts.log, parts.lines, manner.park_by)?)
}

impl<'a, R> Driven for &'a ReentrantMutex<R, Pair>
where
    R: RawMutexFair + RawMutexTimed<Duration = u64, Instant = u64>,
{
    type Guard = ReentrantMutexGuard<'a, R, Pair>;

    fn acquire(&self, _want: Want, form: Form, party: PartyId) -> Result<Self::Guard, Fault> {
        let lock: &'a ReentrantMutex<R, Pair> = self;
        let tried = match form {
            Form::Block => Some(lock.lock(party)?),
            Form::Try => lock.try_lock(party)?,
            Form::For => lock.try_lock_for(party, 0)?,
            Form::Until => lock.try_lock_until(party, 0)?,
        };
        tried.ok_or(Fault::WouldWait)
    }

    /// No guard has such a call.
    fn change_guard(guard: Self::Guard, _call: Call<PairOp>) -> After<Self::Guard, Reply<i64>> {
        (Some(guard), Reply::Refused(Fault::WrongKind))
    }

    fn call_lock(&self, call: Call<PairOp>) -> Reply<i64> {
        call_reentrant(self, call)
    }
}

impl<R: RawMutexFair> ScriptGuard for ReentrantMutexGuard<'_, R, Pair> {
    fn release(self, way: Way) {
        match way {
            Way::Plain | Way::IntoArc => drop(self),
            Way::Fair | Way::IntoArcFair => ReentrantMutexGuard::unlock_fair(self),
        }
    }

    fn bumped(mut self) -> Self {
        ReentrantMutexGuard::bump(&mut self);
        self
    }

    fn asked(&self, operation: PairOp) -> Reply<i64> {
        ask(operation, self)
    }

    fn unlocked<U, F: FnOnce() -> U>(self, way: Way, f: F) -> After<Self, U> {
        after_unlocked(match way {
            Way::Plain | Way::IntoArc => ReentrantMutexGuard::unlocked(self, f),
            Way::Fair | Way::IntoArcFair => ReentrantMutexGuard::unlocked_fair(self, f),
        })
    }
}

impl<R> Driven for Arc<ReentrantMutex<R, Pair>>
where
    R: RawMutexFair + RawMutexTimed<Duration = u64, Instant = u64> + Drop,
{
    type Guard = ArcReentrantMutexGuard<R, Pair>;

    fn acquire(&self, _want: Want, form: Form, party: PartyId) -> Result<Self::Guard, Fault> {
        let tried = match form {
            Form::Block => Some(ReentrantMutex::lock_arc(self, party)?),
            Form::Try => ReentrantMutex::try_lock_arc(self, party)?,
            Form::For => ReentrantMutex::try_lock_arc_for(self, party, 0)?,
            Form::Until => ReentrantMutex::try_lock_arc_until(self, party, 0)?,
        };
        tried.ok_or(Fault::WouldWait)
    }

    /// No guard has such a call.
    fn change_guard(guard: Self::Guard, _call: Call<PairOp>) -> After<Self::Guard, Reply<i64>> {
        (Some(guard), Reply::Refused(Fault::WrongKind))
    }

    fn call_lock(&self, call: Call<PairOp>) -> Reply<i64> {
        call_reentrant(self, call)
    }
}

impl<R: RawMutexFair + Drop> ScriptGuard for ArcReentrantMutexGuard<R, Pair> {
    fn release(self, way: Way) {
        match way {
            Way::Plain => drop(self),
            Way::Fair => ArcReentrantMutexGuard::unlock_fair(self),
            Way::IntoArc => drop(ArcReentrantMutexGuard::into_arc(self)),
            Way::IntoArcFair => drop(ArcReentrantMutexGuard::into_arc_fair(self)),
        }
    }

    fn bumped(mut self) -> Self {
        ArcReentrantMutexGuard::bump(&mut self);
        self
    }

    fn asked(&self, operation: PairOp) -> Reply<i64> {
        ask(operation, self)
    }

    fn unlocked<U, F: FnOnce() -> U>(self, way: Way, f: F) -> After<Self, U> {
        after_unlocked(match way {
            Way::Plain | Way::IntoArc => ArcReentrantMutexGuard::unlocked(self, f),
            Way::Fair | Way::IntoArcFair => ArcReentrantMutexGuard::unlocked_fair(self, f),
        })
    }
}

/// Returns the guard, unless no level was left for it, and the closure's answer.
fn after_unlocked<G, U>(back: Result<(G, U), (Fault, U)>) -> After<G, U>
    ensures { MatchResult back (λ kept. result.1 ≡ kept.1) (λ refused. result.1 ≡ refused.1) }
{
    match back {
        Ok((guard, answer)) => (Some(guard), answer),
        Err((_, answer)) => (None, answer),
    }
}

/// Makes a call that needs no guard.
fn call_reentrant<R: RawMutexFair>(
    lock: &ReentrantMutex<R, Pair>,
    call: Call<PairOp>,
) -> Reply<i64> {
    match call {
        Call::IsLocked | Call::IsLockedExclusive => Reply::Bool(lock.is_locked()),
        Call::IsOwnedBy(party) => Reply::Bool(lock.is_owned_by_current_thread(party)),
        _ => Reply::Refused(Fault::WrongKind),
    }
}
