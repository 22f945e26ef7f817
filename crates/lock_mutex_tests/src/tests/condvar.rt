//! The condition variable, over raw ones whose waits end at once.
mod calls;
mod mock;
mod no_instant;
mod spurious;

use crate::tests::mutex::watched;
use calls::WaitCall::{self, Once, While};
use calls::WaitEnd::{For, Never, Until};
use calls::waited;
use lock_modes::Mode::Exclusive;
use lock_mutex::{Condvar, Mutex, MutexGuard};
use lock_recorder::RawCall::{Lock, Unlock};
use lock_test_support::answer::equal;
use lock_test_support::raw_lock::{AdmitsAll, CallWatch};
use lock_traits::{RawMutex, RawMutexTimed};
use mock::CondvarCall::{self, NotifyAll, NotifyOne, Wait, WaitUntil};
use mock::{ENDLESS, LATE, MockCondvar};
use std::alloc::Global;
use std::test::Fail;

/// A wait, its raw calls, whether it times out, and how many checks it makes.
type Row = (WaitCall<u64>, &'static [CondvarCall], bool, usize);

const WAITS: [Row; 15] = [
    (Once(Never), &[Wait], false, 0),
    (Once(For(3)), &[WaitUntil(4)], false, 0),
    (Once(For(LATE)), &[WaitUntil(101)], true, 0),
    (Once(For(ENDLESS)), &[Wait], false, 0),
    (Once(Until(5)), &[WaitUntil(5)], false, 0),
    (Once(Until(LATE)), &[WaitUntil(LATE)], true, 0),
    (While(0, Never), &[], false, 1),
    (While(3, Never), &[Wait, Wait, Wait], false, 4),
    (While(1, For(3)), &[WaitUntil(4)], false, 2),
    (While(2, For(LATE)), &[WaitUntil(101)], true, 2),
    (While(1, For(ENDLESS)), &[Wait], false, 2),
    (While(2, Until(5)), &[WaitUntil(5), WaitUntil(5)], false, 3),
    (While(0, Until(LATE)), &[], false, 1),
    (While(1, Until(LATE)), &[WaitUntil(LATE)], false, 2),
    (While(2, Until(LATE)), &[WaitUntil(LATE)], true, 2),
];

/// Makes each wait of `WAITS`.
fn check_each<R: RawMutexTimed<Duration = u64, Instant = u64>>(
    condvar: &Condvar<MockCondvar<R>>,
    guard: &mut MutexGuard<'_, R, usize>,
) -> Result<(), Fail> {
    for (row, (call, raw_calls, times_out, made)) in WAITS.into_iter().enumerate() {
        let seen = waited(condvar, guard, call);
        let is_right = condvar.raw().got(raw_calls);
        equal((row, is_right, seen), (row, true, (times_out, made)))?;
    }
    Ok(())
}

/// Makes the waits under one guard.
fn check_waits<R: RawMutexTimed<Duration = u64, Instant = u64>>(
    condvar: &Condvar<MockCondvar<R>>,
    checks: &Mutex<R, usize>,
) -> Result<(), Fail> {
    check_each(condvar, &mut checks.lock())
}

/// Checks that a notification is one raw call, whose answer it returns.
fn check_notifications<R: RawMutex>(condvar: &Condvar<MockCondvar<R>>) -> Result<(), Fail> {
    for woken in [0, 3] {
        condvar.raw().woken.set(woken);
        let answers = (condvar.notify_one(), condvar.notify_all());
        equal(answers, (woken > 0, woken))?;
        equal(condvar.raw().got(&[NotifyOne, NotifyAll]), true)?;
    }
    Ok(())
}

/// Waits and notifications over the raw lock. Since these waits do not release the mutex, the guard alone calls it.
fn check_calls<R: RawMutexTimed<Duration = u64, Instant = u64> + Drop>(
    alloc: Global,
    checks: &Mutex<R, usize>,
    watch: &mut CallWatch,
) -> Result<(), Fail> {
    let condvar: Condvar<MockCondvar<R>> = Condvar::new(alloc)?;
    check_waits(&condvar, checks)?;
    watch.saw(&[Lock(Exclusive), Unlock(Exclusive)]);
    check_notifications(&condvar)?;
    watch.saw(&[]);
    Ok(())
}

#[test]
fn each_wait_is_a_raw_wait(rt: HostRuntime) -> Result<(), Fail> {
    let (checks, mut watch) = watched::<AdmitsAll<HostRuntime>, usize>(rt.alloc(), rt, 0)?;
    check_calls(rt.alloc(), &checks, &mut watch)?;
    watch.verdict()
}
