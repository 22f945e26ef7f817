//! A raw condition variable that records its calls.
use lock_modes::Fault;
use lock_traits::{RawCondvar, RawCondvarTimed, RawMutex, RawMutexTimed};
use std::alloc::Global;
use std::cell::Cell;
use std::marker::PhantomData;

/// From this instant on a wait times out.
pub const LATE: u64 = 100;

/// A timeout whose deadline cannot be represented.
pub const ENDLESS: u64 = u64::MAX;

/// A call of a raw condition variable, with its time.
#[derive(Clone, Copy, PartialEq)]
pub enum CondvarCall {
    Wait,
    WaitUntil(u64),
    NotifyOne,
    NotifyAll,
}

/// A raw condition variable for one thread. Its waits end at once, and do not release the mutex.
#[derive(Drop)]
pub struct MockCondvar<R> {
    alloc: Global,
    calls: Cell<Vec<CondvarCall>>,
    /// How many waiters it says that it woke.
    pub woken: Cell<usize>,
    mutex: PhantomData<R>,
}

impl<R> MockCondvar<R> {
    fn asked(&self, call: CondvarCall) {
        let mut calls = self.take();
        let _ = calls.push(call);
        self.calls.set(calls);
    }

    fn take(&self) -> Vec<CondvarCall> {
        self.calls.replace(Vec::new(self.alloc))
    }

    /// Whether just these calls came since the last question.
    pub fn got(&self, wanted: &[CondvarCall]) -> bool {
        self.take().as_slice() == wanted
    }
}

impl<R: RawMutex> RawCondvar for MockCondvar<R> {
    type RawMutex = R;

    fn new(alloc: Global) -> Result<MockCondvar<R>, Fault> {
        Ok(MockCondvar {
            alloc,
            calls: Cell::new(Vec::new(alloc)),
            woken: Cell::new(0),
            mutex: PhantomData,
        })
    }

    fn wait(&self, _mutex: &R, token: R::Guard) -> R::Guard {
        self.asked(CondvarCall::Wait);
        token
    }

    fn notify_one(&self) -> bool {
        self.asked(CondvarCall::NotifyOne);
        self.woken.get() > 0
    }

    fn notify_all(&self) -> usize {
        self.asked(CondvarCall::NotifyAll);
        self.woken.get()
    }
}

impl<R: RawMutexTimed<Duration = u64, Instant = u64>> RawCondvarTimed for MockCondvar<R> {
    /// It has no clock: the mutex has one.
    fn checked_duration_to_instant(_timeout: &u64) -> Option<u64> {
        None
    }

    fn instant_after(_mutex: &R, timeout: &u64) -> Option<u64> {
        timeout.checked_add(1)
    }

    fn wait_until(&self, _mutex: &R, token: R::Guard, deadline: &u64) -> (R::Guard, bool) {
        self.asked(CondvarCall::WaitUntil(*deadline));
        (token, *deadline >= LATE)
    }
}
