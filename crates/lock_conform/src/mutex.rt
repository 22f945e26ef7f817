//! Scripts on a mutex.
ghost use Rattle.std.specs.Prelude.{◌≡◌, ◌↔◌, IfOk, IfErr, IsOkUnless};
ghost use Rattle.lock_script.specs.Session.{HasLimits, replies_to};
ghost use Rattle.lock_conform.specs.Makers.{IsRunFault, kind_of};
ghost use Rattle.lock_conform.specs.Reports.{IsReport};

use crate::driven::{After, Driven, ScriptGuard};
use crate::manner::Manner;
use crate::operation::{ask, change};
use crate::parts::{RunParts, run_parts, shared};
use crate::report::Report;
use crate::script_run::run_on;
use lock_guard::guard::{AcquireFair, ValueGuard};
use lock_machine::{Call, Form, Reply, Want, Way};
use lock_modes::{Fault, Kind, PartyId};
use lock_mutex::{ArcMutexGuard, Guard, Mutex, MutexGuard};
use lock_recorder::Deadline;
use lock_script::{DeskScript, Pair, PairOp};
use lock_traits::{RawMutexFair, RawMutexTimed};
use std::alloc::Global;
use std::sync::Arc;

/// Runs a script of a mutex over the raw lock.
pub fn run_mutex<R>(
    alloc: Global,
    raw: R,
    script: DeskScript,
    manner: Manner,
) -> Result<Report, Fault>
where
    R: RawMutexFair + RawMutexTimed + Drop,
    R::Duration: Default,
    R::Instant: Deadline<R::Waiter>,
    ensures kind { (result ≡ Err Fault.WrongKind) ↔ ¬ (kind_of script.maker ≡ Kind.Mutex) }
    ensures limits { (result ≡ Err Fault.BadLimits) ↔ ((kind_of script.maker ≡ Kind.Mutex) × ¬ HasLimits script.maker) }
    ensures fault { IfErr result IsRunFault }
    ensures report { IfOk result
        (IsReport script.calls.items (replies_to script.maker script.calls.items)) }
{
    let parts = run_parts(alloc, Kind::Mutex, raw, script)?;
    let report = run_lines(alloc, parts, manner)?;
    Ok(report)
}

/// Makes the lines of a script on a mutex. Its raw lock is a type parameter: over a raw lock of a known type, the drop of
/// a guard that owns an `Arc` gets no proof.
fn run_lines<R>(alloc: Global, parts: RunParts<R>, manner: Manner) -> Result<Report, Fault>
where
    R: RawMutexFair + RawMutexTimed<Duration = u64, Instant = u64> + Drop,
    ensures fault { IsOkUnless result Fault.OutOfMemory }
    ensures report { IfOk result (IsReport parts.lines.calls.items parts.lines.replies.items) }
{
    let lock = Mutex::from_raw(parts.raw, parts.pair)?;
    if !manner.is_arc {
        return Ok(run_on(alloc, &&lock, parts.log, parts.lines, manner.park_by)?);
    }
    let lock = shared(alloc, lock)?;
    Ok(run_on(alloc, &lock, parts.log, parts.lines, manner.park_by)?)
}

impl<'a, R> Driven for &'a Mutex<R, Pair>
where
    R: RawMutexFair + RawMutexTimed<Duration = u64, Instant = u64>,
{
    type Guard = MutexGuard<'a, R, Pair>;

    fn acquire(&self, _want: Want, form: Form, _party: PartyId) -> Result<Self::Guard, Fault> {
        let lock: &'a Mutex<R, Pair> = self;
        let tried = match form {
            Form::Block => Some(lock.lock()),
            Form::Try => lock.try_lock(),
            Form::For => lock.try_lock_for(0),
            Form::Until => lock.try_lock_until(0),
        };
        tried.ok_or(Fault::WouldWait)
    }

    fn change_guard(guard: Self::Guard, call: Call<PairOp>) -> After<Self::Guard, Reply<i64>> {
        let mut guard = guard;
        let reply = match call {
            Call::Change(_, _, operation) => change(operation, &mut guard),
            _ => Reply::Refused(Fault::WrongKind),
        };
        (Some(guard), reply)
    }

    fn call_lock(&self, call: Call<PairOp>) -> Reply<i64> {
        call_mutex(self, call)
    }
}

impl<L: AcquireFair> ScriptGuard for Guard<L>
where
    L::Shown: ValueGuard<Value = Pair>,
{
    fn release(self, way: Way) {
        match way {
            Way::Plain | Way::IntoArc => drop(self),
            Way::Fair | Way::IntoArcFair => Guard::unlock_fair(self),
        }
    }

    fn bumped(mut self) -> Self {
        Guard::bump(&mut self);
        self
    }

    fn asked(&self, operation: PairOp) -> Reply<i64> {
        ask(operation, self)
    }

    fn unlocked<U, F: FnOnce() -> U>(mut self, way: Way, f: F) -> After<Self, U> {
        let answer = match way {
            Way::Plain | Way::IntoArc => Guard::unlocked(&mut self, f),
            Way::Fair | Way::IntoArcFair => Guard::unlocked_fair(&mut self, f),
        };
        (Some(self), answer)
    }
}

impl<R> Driven for Arc<Mutex<R, Pair>>
where
    R: RawMutexFair + RawMutexTimed<Duration = u64, Instant = u64> + Drop,
{
    type Guard = ArcMutexGuard<R, Pair>;

    fn acquire(&self, _want: Want, form: Form, _party: PartyId) -> Result<Self::Guard, Fault> {
        let tried = match form {
            Form::Block => Some(Mutex::lock_arc(self)?),
            Form::Try => Mutex::try_lock_arc(self)?,
            Form::For => Mutex::try_lock_arc_for(self, 0)?,
            Form::Until => Mutex::try_lock_arc_until(self, 0)?,
        };
        tried.ok_or(Fault::WouldWait)
    }

    fn change_guard(guard: Self::Guard, call: Call<PairOp>) -> After<Self::Guard, Reply<i64>> {
        let mut guard = guard;
        let reply = match call {
            Call::Change(_, _, operation) => {
                ArcMutexGuard::with_mut(&mut guard, |pair: &mut Pair| change(operation, pair))
            }
            _ => Reply::Refused(Fault::WrongKind),
        };
        (Some(guard), reply)
    }

    fn call_lock(&self, call: Call<PairOp>) -> Reply<i64> {
        call_mutex(self, call)
    }
}

impl<R: RawMutexFair + Drop> ScriptGuard for ArcMutexGuard<R, Pair> {
    fn release(self, way: Way) {
        match way {
            Way::Plain => drop(self),
            Way::Fair => ArcMutexGuard::unlock_fair(self),
            Way::IntoArc => drop(ArcMutexGuard::into_arc(self)),
            Way::IntoArcFair => drop(ArcMutexGuard::into_arc_fair(self)),
        }
    }

    fn bumped(mut self) -> Self {
        ArcMutexGuard::bump(&mut self);
        self
    }

    fn asked(&self, operation: PairOp) -> Reply<i64> {
        ArcMutexGuard::with(self, |pair: &Pair| ask(operation, pair))
    }

    fn unlocked<U, F: FnOnce() -> U>(mut self, way: Way, f: F) -> After<Self, U> {
        let answer = match way {
            Way::Plain | Way::IntoArc => ArcMutexGuard::unlocked(&mut self, f),
            Way::Fair | Way::IntoArcFair => ArcMutexGuard::unlocked_fair(&mut self, f),
        };
        (Some(self), answer)
    }
}

/// Makes a call that needs no guard.
fn call_mutex<R: RawMutexFair>(lock: &Mutex<R, Pair>, call: Call<PairOp>) -> Reply<i64> {
    match call {
        Call::IsLocked | Call::IsLockedExclusive => Reply::Bool(lock.is_locked()),
        _ => Reply::Refused(Fault::WrongKind),
    }
}
