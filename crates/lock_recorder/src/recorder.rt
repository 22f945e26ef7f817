//! A raw lock that records the calls made on it.
use crate::call_log::CallLog;
use crate::deadline::Deadline;
use crate::raw_call::RawCall;
use lock_modes::{Fault, Mode};
use lock_traits::{RawMutex, RawMutexFair, RawMutexTimed};
use std::alloc::Global;

/// A raw lock with the calls made on it. Each call is recorded and then made on the raw lock.
///
/// Its timed calls only record their times, which are numbers. On the raw lock a timeout is zero, and a deadline has
/// passed. So no caller needs a clock, and a refused call returns at once.
#[derive(Drop)]
pub struct Recorder<R> {
    pub(crate) raw: R,
    pub(crate) log: CallLog,
}

impl<R: Drop> Recorder<R> {
    ghost use Rattle.std.specs.Prelude.{IsOkUnless};

    /// Wraps a raw lock. No call is recorded yet.
    pub fn over(alloc: Global, raw: R) -> Result<Recorder<R>, Fault>
        ensures { IsOkUnless result Fault.OutOfMemory }
    {
        let log = CallLog::new(alloc)?;
        Ok(Recorder { raw, log })
    }

    /// Returns the list of the calls.
    pub fn log(&self) -> Result<CallLog, Fault>
        ensures { IsOkUnless result Fault.OutOfMemory }
    {
        self.log.another()
    }

    /// Returns whether no call is recorded yet.
    pub fn has_no_calls(&self) -> bool {
        self.log.is_empty()
    }
}

impl<R: RawMutex> Recorder<R> {
    fn record(&self, call: RawCall) {
        self.log.add(self.raw.waiter(), call);
    }
}

impl<R: RawMutex + Drop> RawMutex for Recorder<R> {
    type Guard = R::Guard;

    type Waiter = R::Waiter;

    ghost is_own = { λ recorder token. R.is_own recorder.raw token };

    fn new(alloc: Global, waiter: R::Waiter) -> Result<Recorder<R>, Fault> {
        Recorder::over(alloc, R::new(alloc, waiter)?)
    }

    fn waiter(&self) -> &R::Waiter {
        self.raw.waiter()
    }

    fn lock(&self) -> R::Guard {
        self.record(RawCall::Lock(Mode::Exclusive));
        self.raw.lock()
    }

    fn try_lock(&self) -> Option<R::Guard> {
        self.record(RawCall::TryLock(Mode::Exclusive));
        self.raw.try_lock()
    }

    fn unlock(&self, token: R::Guard) {
        self.record(RawCall::Unlock(Mode::Exclusive));
        self.raw.unlock(token);
    }

    fn is_locked(&self) -> bool {
        self.record(RawCall::IsLocked);
        self.raw.is_locked()
    }
}

impl<R: RawMutexFair + Drop> RawMutexFair for Recorder<R> {
    fn unlock_fair(&self, token: R::Guard) {
        self.record(RawCall::UnlockFair(Mode::Exclusive));
        self.raw.unlock_fair(token);
    }

    fn bump(&self, token: R::Guard) -> R::Guard {
        self.record(RawCall::Bump(Mode::Exclusive));
        self.raw.bump(token)
    }
}

impl<R: RawMutexTimed + Drop> RawMutexTimed for Recorder<R>
where
    R::Duration: Default,
    R::Instant: Deadline<R::Waiter>,
{
    type Duration = u64;

    type Instant = u64;

    fn try_lock_for(&self, timeout: u64) -> Option<R::Guard> {
        self.record(RawCall::TryLockFor(Mode::Exclusive, timeout));
        self.raw.try_lock_for(Default::default())
    }

    fn try_lock_until(&self, deadline: u64) -> Option<R::Guard> {
        self.record(RawCall::TryLockUntil(Mode::Exclusive, deadline));
        self.raw
            .try_lock_until(Deadline::passed(self.raw.waiter())?)
    }
}
