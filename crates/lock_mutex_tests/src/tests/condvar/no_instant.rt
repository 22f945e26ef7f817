//! A raw condition variable without instants, which keeps the default bodies of its trait.
use super::calls::WaitCall::{Once, While};
use super::calls::WaitEnd::For;
use super::calls::waited;
use lock_modes::Fault;
use lock_mutex::{Condvar, Mutex};
use lock_raws_condvar::SpuriousCondvar;
use lock_test_support::answer::equal;
use lock_test_support::raw_lock::AdmitsAll;
use lock_traits::{RawCondvar, RawCondvarTimed, RawMutex, RawMutexTimed};
use std::alloc::Global;
use std::test::Fail;

/// Its waits end at once. No timeout leads to an instant.
#[derive(Drop)]
struct NoInstant<R: RawMutex> {
    condvar: SpuriousCondvar<R>,
}

impl<R: RawMutex> RawCondvar for NoInstant<R> {
    type RawMutex = R;

    fn new(alloc: Global) -> Result<NoInstant<R>, Fault> {
        let condvar: SpuriousCondvar<R> = RawCondvar::new(alloc)?;
        Ok(NoInstant { condvar })
    }

    fn wait(&self, mutex: &R, token: R::Guard) -> R::Guard {
        self.condvar.wait(mutex, token)
    }

    fn notify_one(&self) -> bool {
        false
    }

    fn notify_all(&self) -> usize {
        0
    }
}

impl<R: RawMutexTimed<Duration = (), Instant = ()>> RawCondvarTimed for NoInstant<R> {
    fn checked_duration_to_instant(_timeout: &()) -> Option<()> {
        None
    }

    fn wait_until(&self, mutex: &R, token: R::Guard, deadline: &()) -> (R::Guard, bool) {
        self.condvar.wait_until(mutex, token, deadline)
    }
}

/// What `wait_for` and `wait_while_for` answer. The condition of the second is true once.
fn answers<R: RawMutexTimed<Duration = (), Instant = ()>>(
    condvar: &Condvar<NoInstant<R>>,
    checks: &Mutex<R, usize>,
) -> [(bool, usize); 2] {
    let mut guard = checks.lock();
    let plain = waited(condvar, &mut guard, Once(For(())));
    [plain, waited(condvar, &mut guard, While(1, For(())))]
}

fn check<R: RawMutexTimed<Duration = (), Instant = ()> + Drop>(
    alloc: Global,
    waiter: R::Waiter,
) -> Result<(), Fail> {
    let condvar: Condvar<NoInstant<R>> = Condvar::new(alloc)?;
    let answers = answers(&condvar, &Mutex::new(alloc, waiter, 0)?);
    equal(answers, [(false, 0), (false, 2)])
}

#[test]
fn a_wait_for_no_instant_does_not_time_out(rt: HostRuntime) -> Result<(), Fail> {
    check::<AdmitsAll<HostRuntime>>(rt.alloc(), rt)
}
