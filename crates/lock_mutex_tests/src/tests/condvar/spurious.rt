//! Waits of a spurious condition variable, each of which releases the mutex.
use super::calls::WaitCall::{self, Once, While};
use super::calls::WaitEnd::{For, Never, Until};
use super::calls::waited;
use lock_modes::Mode::Exclusive;
use lock_mutex::{Condvar, Mutex, MutexGuard};
use lock_raws_condvar::SpuriousCondvar;
use lock_raws_monitor::TokenRaw;
use lock_recorder::RawCall::{Lock, Unlock};
use lock_test_support::answer::equal;
use lock_test_support::raw_lock::{AdmitsAll, CallWatch};
use lock_traits::{RawMutex, RawMutexTimed};
use std::alloc::Global;
use std::clone::Clone;
use std::sync::Wait;
use std::test::Fail;

/// Each wait, whether it times out, and how many checks it makes.
const WAITS: [(WaitCall<()>, bool, usize); 6] = [
    (Once(Never), false, 0),
    (Once(For(())), true, 0),
    (Once(Until(())), true, 0),
    (While(0, Until(())), false, 1),
    (While(1, Until(())), false, 2),
    (While(2, Until(())), true, 2),
];

/// Makes each wait of `WAITS`. Returns whether the mutex is held after them.
fn check_each<R: RawMutexTimed<Duration = (), Instant = ()>>(
    condvar: &Condvar<SpuriousCondvar<R>>,
    guard: &mut MutexGuard<'_, R, usize>,
) -> Result<bool, Fail> {
    for (row, (call, times_out, made)) in WAITS.into_iter().enumerate() {
        let seen = waited(condvar, guard, call);
        equal((row, seen), (row, (times_out, made)))?;
    }
    Ok(MutexGuard::mutex(guard).is_locked())
}

/// Makes the waits under one guard.
fn check_waits<R: RawMutexTimed<Duration = (), Instant = ()>>(
    condvar: &Condvar<SpuriousCondvar<R>>,
    checks: &Mutex<R, usize>,
) -> Result<bool, Fail> {
    check_each(condvar, &mut checks.lock())
}

fn check<R: RawMutexTimed<Duration = (), Instant = ()> + Drop>(
    alloc: Global,
    waiter: R::Waiter,
) -> Result<(), Fail> {
    let condvar: Condvar<SpuriousCondvar<R>> = Condvar::default(alloc)?;
    let is_held = check_waits(&condvar, &Mutex::new(alloc, waiter, 0)?)?;
    let woken = (condvar.notify_one(), condvar.notify_all());
    equal((is_held, woken), (true, (false, 0)))
}

#[test]
fn a_spurious_wait_ends_at_once(rt: HostRuntime) -> Result<(), Fail> {
    check::<TokenRaw<HostRuntime>>(rt.alloc(), rt)
}

/// Waits that release the mutex once.
const ONCE: [WaitCall<()>; 4] = [
    Once(Never),
    Once(For(())),
    Once(Until(())),
    While(1, Until(())),
];

/// Under one guard, each wait of `ONCE` releases the raw lock and acquires it again.
fn watch_releases<R: RawMutexTimed<Duration = (), Instant = ()>>(
    condvar: &Condvar<SpuriousCondvar<R>>,
    checks: &Mutex<R, usize>,
    watch: &mut CallWatch,
) {
    let mut guard = checks.lock();
    watch.saw(&[Lock(Exclusive)]);
    for call in ONCE {
        waited(condvar, &mut guard, call);
        watch.saw(&[Unlock(Exclusive), Lock(Exclusive)]);
    }
    drop(guard);
    watch.saw(&[Unlock(Exclusive)]);
}

fn check_releases<W: Wait + Clone + Drop>(alloc: Global, waiter: W) -> Result<(), Fail> {
    let raw: AdmitsAll<W> = RawMutex::new(alloc, waiter)?;
    let mut watch = CallWatch::new(raw.log()?);
    let condvar = Condvar::new(alloc)?;
    watch_releases(&condvar, &Mutex::from_raw(raw, 0)?, &mut watch);
    watch.verdict()
}

#[test]
fn each_wait_releases_once(rt: HostRuntime) -> Result<(), Fail> {
    check_releases(rt.alloc(), rt)
}
