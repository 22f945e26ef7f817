//! A raw lock that admits everything.
use lock_modes::{Fault, Mode};
use lock_recorder::{CallLog, RawCall};
use lock_traits::{GuardSend, RawMutex, RawMutexFair, RawMutexTimed};
use std::alloc::Global;
use std::clone::Clone;
use std::sync::Wait;

/// A raw lock that admits everything. It records its calls, and keeps the default bodies of the raw traits.
#[derive(Drop)]
pub struct AdmitsAll<W: Wait + Clone + Drop> {
    waiter: W,
    log: CallLog,
}

impl<W: Wait + Clone + Drop> AdmitsAll<W> {
    /// Returns the list of the calls.
    pub fn log(&self) -> Result<CallLog, Fault> {
        self.log.another()
    }

    pub(crate) fn asked(&self, call: RawCall) {
        self.log.add(&self.waiter, call);
    }

    /// Returns what a try in the mode answers.
    pub(crate) fn tried(&self, mode: Mode) -> Option<GuardSend> {
        self.asked(RawCall::TryLock(mode));
        Some(GuardSend::new())
    }
}

impl<W: Wait + Clone + Drop> RawMutex for AdmitsAll<W> {
    type Guard = GuardSend;

    type Waiter = W;

    fn new(alloc: Global, waiter: W) -> Result<AdmitsAll<W>, Fault> {
        let log = CallLog::new(alloc)?;
        Ok(AdmitsAll { waiter, log })
    }

    fn waiter(&self) -> &W {
        &self.waiter
    }

    fn lock(&self) -> GuardSend {
        self.asked(RawCall::Lock(Mode::Exclusive));
        GuardSend::new()
    }

    fn try_lock(&self) -> Option<GuardSend> {
        self.tried(Mode::Exclusive)
    }

    fn unlock(&self, _token: GuardSend) {
        self.asked(RawCall::Unlock(Mode::Exclusive));
    }

    fn is_locked(&self) -> bool {
        self.asked(RawCall::IsLocked);
        false
    }
}

impl<W: Wait + Clone + Drop> RawMutexFair for AdmitsAll<W> {
    fn unlock_fair(&self, _token: GuardSend) {
        self.asked(RawCall::UnlockFair(Mode::Exclusive));
    }
}

/// A timed try is a plain try.
impl<W: Wait + Clone + Drop> RawMutexTimed for AdmitsAll<W> {
    type Duration = ();

    type Instant = ();

    fn try_lock_for(&self, _timeout: ()) -> Option<GuardSend> {
        self.tried(Mode::Exclusive)
    }

    fn try_lock_until(&self, _deadline: ()) -> Option<GuardSend> {
        self.tried(Mode::Exclusive)
    }
}
