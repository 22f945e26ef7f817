//! Scripts on a reader-writer lock.
ghost use Rattle.std.specs.Prelude.{◌≡◌, ◌↔◌, IfOk, IfErr, IsOkUnless};
ghost use Rattle.lock_script.specs.Session.{HasLimits, replies_to};
ghost use Rattle.lock_conform.specs.Makers.{IsRunFault, kind_of};
ghost use Rattle.lock_conform.specs.Reports.{IsReport};

use crate::driven::{After, Driven, ScriptGuard};
use crate::manner::Manner;
use crate::operation::{ask, change};
use crate::parts::{RunParts, run_parts, shared};
use crate::report::Report;
use crate::rw_guard::{AnyGuard, RwDriven, acquire_in, change_in_mode};
use crate::script_run::run_on;
use lock_guard::guard::{AcquireFair, ValueGuard};
use lock_machine::{Call, Form, Reply, Want, Way};
use lock_modes::{Fault, Kind, PartyId};
use lock_recorder::Deadline;
use lock_rwlock::{
    ArcRwLockGuard, ArcRwLockReadGuard, ArcRwLockUpgradableReadGuard, ArcRwLockWriteGuard,
    FairMode, RwLock, RwLockGuard, RwLockReadGuard, RwLockUpgradableReadGuard, RwLockWriteGuard,
};
use lock_script::{DeskScript, Pair, PairOp};
use lock_traits::{
    RawRwLock, RawRwLockUpgradeDowngrade, RawRwLockUpgradeFair, RawRwLockUpgradeTimed,
};
use std::alloc::Global;
use std::sync::Arc;

/// Runs a script of a reader-writer lock over the raw lock.
pub fn run_rwlock<R>(
    alloc: Global,
    raw: R,
    script: DeskScript,
    manner: Manner,
) -> Result<Report, Fault>
where
    R: RawRwLockUpgradeFair + RawRwLockUpgradeDowngrade + RawRwLockUpgradeTimed + Drop,
    R::Duration: Default,
    R::Instant: Deadline<R::Waiter>,
    ensures kind { (result ≡ Err Fault.WrongKind) ↔ ¬ (kind_of script.maker ≡ Kind.RwLock) }
    ensures limits { (result ≡ Err Fault.BadLimits) ↔ ((kind_of script.maker ≡ Kind.RwLock) × ¬ HasLimits script.maker) }
    ensures fault { IfErr result IsRunFault }
    ensures report { IfOk result
        (IsReport script.calls.items (replies_to script.maker script.calls.items)) }
{
    let parts = run_parts(alloc, Kind::RwLock, raw, script)?;
    let report = run_lines(alloc, parts, manner)?;
    Ok(report)
}

/// Makes the lines of a script on a reader-writer lock. Its raw lock is a type parameter: over a raw lock of a known type,
/// the drop of a guard that owns an `Arc` gets no proof.
fn run_lines<R>(alloc: Global, parts: RunParts<R>, manner: Manner) -> Result<Report, Fault>
where
    R: RawRwLockUpgradeFair
        + RawRwLockUpgradeDowngrade
        + RawRwLockUpgradeTimed<Duration = u64, Instant = u64>
        + Drop,
    ensures fault { IsOkUnless result Fault.OutOfMemory }
    ensures report { IfOk result (IsReport parts.lines.calls.items parts.lines.replies.items) }
{
    let lock = RwLock::from_raw(parts.raw, parts.pair)?;
    if !manner.is_arc {
        return Ok(run_on(alloc, &&lock, parts.log, parts.lines, manner.park_by)?);
    }
    let lock = shared(alloc, lock)?;
    Ok(run_on(alloc, &lock, parts.log, parts.lines, manner.park_by)?)
}

impl<'a, R> Driven for &'a RwLock<R, Pair>
where
    R: RawRwLockUpgradeFair
        + RawRwLockUpgradeDowngrade
        + RawRwLockUpgradeTimed<Duration = u64, Instant = u64>,
{
    type Guard = AnyGuard<Self>;

    fn acquire(&self, want: Want, form: Form, _party: PartyId) -> Result<Self::Guard, Fault> {
        acquire_in(self, want, form)
    }

    fn change_guard(guard: Self::Guard, call: Call<PairOp>) -> After<Self::Guard, Reply<i64>> {
        change_in_mode::<Self>(guard, call)
    }

    fn call_lock(&self, call: Call<PairOp>) -> Reply<i64> {
        call_rwlock(self, call)
    }
}

impl<'a, R> RwDriven for &'a RwLock<R, Pair>
where
    R: RawRwLockUpgradeFair
        + RawRwLockUpgradeDowngrade
        + RawRwLockUpgradeTimed<Duration = u64, Instant = u64>,
{
    type Reader = RwLockReadGuard<'a, R, Pair>;

    type Writer = RwLockWriteGuard<'a, R, Pair>;

    type Upgradable = RwLockUpgradableReadGuard<'a, R, Pair>;

    fn read(&self, form: Form) -> Result<Self::Reader, Fault> {
        let lock: &'a RwLock<R, Pair> = self;
        got(match form {
            Form::Block => Some(lock.read()),
            Form::Try => lock.try_read(),
            Form::For => lock.try_read_for(0),
            Form::Until => lock.try_read_until(0),
        })
    }

    fn write(&self, form: Form) -> Result<Self::Writer, Fault> {
        let lock: &'a RwLock<R, Pair> = self;
        got(match form {
            Form::Block => Some(lock.write()),
            Form::Try => lock.try_write(),
            Form::For => lock.try_write_for(0),
            Form::Until => lock.try_write_until(0),
        })
    }

    fn upgradable_read(&self, form: Form) -> Result<Self::Upgradable, Fault> {
        let lock: &'a RwLock<R, Pair> = self;
        got(match form {
            Form::Block => Some(lock.upgradable_read()),
            Form::Try => lock.try_upgradable_read(),
            Form::For => lock.try_upgradable_read_for(0),
            Form::Until => lock.try_upgradable_read_until(0),
        })
    }

    fn change(mut writer: Self::Writer, operation: PairOp) -> (Self::Writer, Reply<i64>) {
        let reply = change(operation, &mut writer);
        (writer, reply)
    }

    fn downgrade(writer: Self::Writer) -> Self::Reader {
        RwLockWriteGuard::downgrade(writer)
    }

    fn downgrade_to_upgradable(writer: Self::Writer) -> Self::Upgradable {
        RwLockWriteGuard::downgrade_to_upgradable(writer)
    }

    fn downgrade_upgradable(guard: Self::Upgradable) -> Self::Reader {
        RwLockUpgradableReadGuard::downgrade(guard)
    }

    fn upgrade(guard: Self::Upgradable, form: Form) -> Result<Self::Writer, Self::Upgradable> {
        match form {
            Form::Block => Ok(RwLockUpgradableReadGuard::upgrade(guard)),
            Form::Try => RwLockUpgradableReadGuard::try_upgrade(guard),
            Form::For => RwLockUpgradableReadGuard::try_upgrade_for(guard, 0),
            Form::Until => RwLockUpgradableReadGuard::try_upgrade_until(guard, 0),
        }
    }

    fn with_upgraded(
        mut guard: Self::Upgradable,
        form: Form,
        operation: PairOp,
    ) -> (Self::Upgradable, Reply<i64>) {
        let apply = |pair: &mut Pair| change(operation, pair);
        let tried = match form {
            Form::Block => Some(guard.with_upgraded(apply)),
            Form::Try => guard.try_with_upgraded(apply),
            Form::For => guard.try_with_upgraded_for(0, apply),
            Form::Until => guard.try_with_upgraded_until(0, apply),
        };
        (guard, tried.unwrap_or(Reply::NoGuard))
    }
}

impl<L: AcquireFair> ScriptGuard for RwLockGuard<L>
where
    L::Shown: ValueGuard<Value = Pair>,
{
    fn release(self, way: Way) {
        match way {
            Way::Plain | Way::IntoArc => drop(self),
            Way::Fair | Way::IntoArcFair => RwLockGuard::unlock_fair(self),
        }
    }

    fn bumped(mut self) -> Self {
        RwLockGuard::bump(&mut self);
        self
    }

    fn asked(&self, operation: PairOp) -> Reply<i64> {
        ask(operation, self)
    }

    fn unlocked<U, F: FnOnce() -> U>(mut self, way: Way, f: F) -> After<Self, U> {
        let answer = match way {
            Way::Plain | Way::IntoArc => RwLockGuard::unlocked(&mut self, f),
            Way::Fair | Way::IntoArcFair => RwLockGuard::unlocked_fair(&mut self, f),
        };
        (Some(self), answer)
    }
}

impl<R> Driven for Arc<RwLock<R, Pair>>
where
    R: RawRwLockUpgradeFair
        + RawRwLockUpgradeDowngrade
        + RawRwLockUpgradeTimed<Duration = u64, Instant = u64>
        + Drop,
{
    type Guard = AnyGuard<Self>;

    fn acquire(&self, want: Want, form: Form, _party: PartyId) -> Result<Self::Guard, Fault> {
        acquire_in(self, want, form)
    }

    fn change_guard(guard: Self::Guard, call: Call<PairOp>) -> After<Self::Guard, Reply<i64>> {
        change_in_mode::<Self>(guard, call)
    }

    fn call_lock(&self, call: Call<PairOp>) -> Reply<i64> {
        call_rwlock(self, call)
    }
}

impl<R> RwDriven for Arc<RwLock<R, Pair>>
where
    R: RawRwLockUpgradeFair
        + RawRwLockUpgradeDowngrade
        + RawRwLockUpgradeTimed<Duration = u64, Instant = u64>
        + Drop,
{
    type Reader = ArcRwLockReadGuard<R, Pair>;

    type Writer = ArcRwLockWriteGuard<R, Pair>;

    type Upgradable = ArcRwLockUpgradableReadGuard<R, Pair>;

    fn read(&self, form: Form) -> Result<Self::Reader, Fault> {
        got(match form {
            Form::Block => Some(RwLock::read_arc(self)?),
            Form::Try => RwLock::try_read_arc(self)?,
            Form::For => RwLock::try_read_arc_for(self, 0)?,
            Form::Until => RwLock::try_read_arc_until(self, 0)?,
        })
    }

    fn write(&self, form: Form) -> Result<Self::Writer, Fault> {
        got(match form {
            Form::Block => Some(RwLock::write_arc(self)?),
            Form::Try => RwLock::try_write_arc(self)?,
            Form::For => RwLock::try_write_arc_for(self, 0)?,
            Form::Until => RwLock::try_write_arc_until(self, 0)?,
        })
    }

    fn upgradable_read(&self, form: Form) -> Result<Self::Upgradable, Fault> {
        got(match form {
            Form::Block => Some(RwLock::upgradable_read_arc(self)?),
            Form::Try => RwLock::try_upgradable_read_arc(self)?,
            Form::For => RwLock::try_upgradable_read_arc_for(self, 0)?,
            Form::Until => RwLock::try_upgradable_read_arc_until(self, 0)?,
        })
    }

    fn change(mut writer: Self::Writer, operation: PairOp) -> (Self::Writer, Reply<i64>) {
        let reply = ArcRwLockGuard::with_mut(
            &mut writer,
            |pair: &mut Pair| change(operation, pair),
        );
        (writer, reply)
    }

    fn downgrade(writer: Self::Writer) -> Self::Reader {
        ArcRwLockWriteGuard::downgrade(writer)
    }

    fn downgrade_to_upgradable(writer: Self::Writer) -> Self::Upgradable {
        ArcRwLockWriteGuard::downgrade_to_upgradable(writer)
    }

    fn downgrade_upgradable(guard: Self::Upgradable) -> Self::Reader {
        ArcRwLockUpgradableReadGuard::downgrade(guard)
    }

    fn upgrade(guard: Self::Upgradable, form: Form) -> Result<Self::Writer, Self::Upgradable> {
        match form {
            Form::Block => Ok(ArcRwLockUpgradableReadGuard::upgrade(guard)),
            Form::Try => ArcRwLockUpgradableReadGuard::try_upgrade(guard),
            Form::For => ArcRwLockUpgradableReadGuard::try_upgrade_for(guard, 0),
            Form::Until => ArcRwLockUpgradableReadGuard::try_upgrade_until(guard, 0),
        }
    }

    fn with_upgraded(
        mut guard: Self::Upgradable,
        form: Form,
        operation: PairOp,
    ) -> (Self::Upgradable, Reply<i64>) {
        let apply = |pair: &mut Pair| change(operation, pair);
        let tried = match form {
            Form::Block => Some(guard.with_upgraded(apply)),
            Form::Try => guard.try_with_upgraded(apply),
            Form::For => guard.try_with_upgraded_for(0, apply),
            Form::Until => guard.try_with_upgraded_until(0, apply),
        };
        (guard, tried.unwrap_or(Reply::NoGuard))
    }
}

impl<M: FairMode<R>, R: RawRwLock + Drop> ScriptGuard for ArcRwLockGuard<M, R, Pair> {
    fn release(self, way: Way) {
        match way {
            Way::Plain => drop(self),
            Way::Fair => ArcRwLockGuard::unlock_fair(self),
            Way::IntoArc => drop(ArcRwLockGuard::into_arc(self)),
            Way::IntoArcFair => drop(ArcRwLockGuard::into_arc_fair(self)),
        }
    }

    fn bumped(mut self) -> Self {
        ArcRwLockGuard::bump(&mut self);
        self
    }

    fn asked(&self, operation: PairOp) -> Reply<i64> {
        ArcRwLockGuard::with(self, |pair: &Pair| ask(operation, pair))
    }

    fn unlocked<U, F: FnOnce() -> U>(mut self, way: Way, f: F) -> After<Self, U> {
        let answer = match way {
            Way::Plain | Way::IntoArc => ArcRwLockGuard::unlocked(&mut self, f),
            Way::Fair | Way::IntoArcFair => ArcRwLockGuard::unlocked_fair(&mut self, f),
        };
        (Some(self), answer)
    }
}

/// Returns the guard of a try, or `WouldWait` if the lock refused.
fn got<G>(tried: Option<G>) -> Result<G, Fault> {
    tried.ok_or(Fault::WouldWait)
}

/// Makes a call that needs no guard.
fn call_rwlock<R: RawRwLock>(lock: &RwLock<R, Pair>, call: Call<PairOp>) -> Reply<i64> {
    match call {
        Call::IsLocked => Reply::Bool(lock.is_locked()),
        Call::IsLockedExclusive => Reply::Bool(lock.is_locked_exclusive()),
        _ => Reply::Refused(Fault::WrongKind),
    }
}
