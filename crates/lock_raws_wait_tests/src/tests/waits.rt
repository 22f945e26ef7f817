//! Waits of a condition variable that measures time.
use super::{is_over, short};
use lock_modes::Fault;
use lock_raws::TimedRaw;
use lock_raws_condvar::SleepingCondvar;
use lock_test_support::answer::equal;
use lock_test_support::wait_for_flag;
use lock_traits::{RawCondvar, RawCondvarTimed, RawMutex, RawMutexTimed, RawRwLock};
use std::alloc::Global;
use std::sync::Wait;
use std::sync::atomic::{AtomicBool, AtomicU64, Ordering};
use std::test::Fail;
use std::thread::{self, Threads};
use std::time::{Clock, Duration, Instant};

/// A raw lock, and a condition variable for the threads that hold it as a mutex.
#[derive(Drop)]
struct Signal<R: RawMutex> {
    raw: R,
    condvar: SleepingCondvar<R>,
}

impl<R: RawMutex + RawRwLock + Drop> Signal<R> {
    /// Over a lock of four readers.
    fn new(alloc: Global, waiter: <R as RawRwLock>::Waiter) -> Result<Signal<R>, Fault> {
        let raw: R = RawRwLock::new(alloc, waiter, 4)?;
        Ok(Signal {
            raw,
            condvar: RawCondvar::new(alloc)?,
        })
    }
}

/// Waits until the condition variable says that the time is up, for nobody notifies. Whether `short` was over then.
fn waits_in_time<K: Clock, R: RawMutexTimed<Duration = Duration, Instant = Instant>>(
    clock: &K,
    raw: &R,
    condvar: &SleepingCondvar<R>,
) -> Result<bool, Fail>
where
    R::Waiter: Clock,
{
    let start = Instant::now(clock)?;
    let mut token = raw.lock();
    for _ in raw.waiter().forever() {
        let (next, timed_out) = condvar.wait_for(raw, token, &short());
        token = next;
        if timed_out {
            break;
        }
    }
    raw.unlock(token);
    Ok(is_over(clock, start))
}

/// Whether a wait times out in time.
fn times_out<T, R>(rt: &T, alloc: Global) -> Result<bool, Fail>
where
    T: Wait + Clock + Copy + Drop,
    R: RawMutexTimed<Duration = Duration, Instant = Instant>
        + RawMutex<Waiter = T>
        + RawRwLock<Waiter = T>
        + Drop,
{
    let signal: Signal<R> = Signal::new(alloc, *rt)?;
    waits_in_time(rt, &signal.raw, &signal.condvar)
}

#[test]
fn a_wait_that_nobody_ends_times_out(rt: HostRuntime) -> Result<(), Fail> {
    let in_time = times_out::<HostRuntime, TimedRaw<HostRuntime>>(&rt, rt.alloc())?;
    equal(in_time, true)
}

/// Waits until a flag is up under the mutex.
fn wait_until_open<R: RawMutex>(
    raw: &R,
    opened: &SleepingCondvar<R>,
    waiting: &AtomicU64,
    is_open: &AtomicBool,
) {
    let mut token = raw.lock();
    waiting.fetch_add(1, Ordering::SeqCst);
    for _ in raw.waiter().forever() {
        if is_open.load(Ordering::SeqCst) {
            break;
        }
        token = opened.wait(raw, token);
    }
    raw.unlock(token);
    waiting.fetch_sub(1, Ordering::SeqCst);
}

/// Raises the flag once two threads sleep, and notifies them once. Returns how many waits it found, or 0 if a thread
/// sleeps for ten seconds more.
fn open<K: Clock, R: RawMutex>(
    clock: &K,
    raw: &R,
    opened: &SleepingCondvar<R>,
    waiting: &AtomicU64,
    is_open: &AtomicBool,
) -> usize {
    for _ in raw.waiter().forever() {
        if waiting.load(Ordering::SeqCst) == 2 {
            break;
        }
        thread::yield_now();
    }
    clock.sleep(short());
    let token = raw.lock();
    is_open.store(true, Ordering::SeqCst);
    raw.unlock(token);
    let waits = opened.notify_all();
    for _ in 0..500u32 {
        if waiting.load(Ordering::SeqCst) == 0 {
            return waits;
        }
        clock.sleep(short());
    }
    // a thread that still sleeps would hang the test
    opened.notify_all();
    0
}

/// One notification wakes both threads. Then no wait is registered.
fn check_notify_all<T, R>(rt: &T, alloc: Global) -> Result<(), Fail>
where
    T: Threads + Clock + Send + Sync + Copy,
    R: RawMutex<Waiter = T> + RawRwLock<Waiter = T> + Drop + Sync,
{
    let signal: Signal<R> = Signal::new(alloc, *rt)?;
    let (raw, opened) = (&signal.raw, &signal.condvar);
    let (waiting, is_open) = (AtomicU64::new(0), AtomicBool::new(false));
    let told = thread::map_indices(
        rt,
        alloc,
        3,
        &|thread| {
            if thread == 0 {
                return open(rt, raw, opened, &waiting, &is_open);
            }
            wait_until_open(raw, opened, &waiting, &is_open);
            0
        },
    )?;
    equal(
        (told.as_slice(), opened.notify_one(), opened.notify_all()),
        ([2, 0, 0].as_slice(), false, 0),
    )
}

#[test]
fn one_notification_of_all_ends_each_wait(rt: HostRuntime) -> Result<(), Fail> {
    check_notify_all::<HostRuntime, TimedRaw<HostRuntime>>(&rt, rt.alloc())
}

/// The waiter's timeout: long enough for a notification at once, even on a busy machine.
fn patience() -> Duration {
    Duration::from_millis(300)
}

/// Waits for a notification. Whether the wait did not time out. None where the clock can't be read.
fn is_notified_in_time<R: RawMutexTimed<Duration = Duration, Instant = Instant>>(
    raw: &R,
    notified: &SleepingCondvar<R>,
    is_waiting: &AtomicBool,
) -> Option<bool>
where
    R::Waiter: Clock,
{
    let deadline = SleepingCondvar::instant_after(raw, &patience())?;
    let token = raw.lock();
    is_waiting.store(true, Ordering::SeqCst);
    let (token, timed_out) = notified.wait_until(raw, token, &deadline);
    raw.unlock(token);
    Some(!timed_out)
}

/// Notifies at once, and holds the mutex past the waiter's deadline.
fn notify_and_hold<K: Clock, R: RawMutex>(
    clock: &K,
    raw: &R,
    notified: &SleepingCondvar<R>,
    is_waiting: &AtomicBool,
) {
    wait_for_flag(raw.waiter(), is_waiting);
    let token = raw.lock();
    notified.notify_one();
    clock.sleep(patience());
    raw.unlock(token);
}

/// Whether a wait next to a notification did not time out. On a busy machine it may, but not each of five.
fn is_notified_once_in_five<T, R>(rt: &T, raw: &R, notified: &SleepingCondvar<R>) -> bool
where
    T: Threads + Clock + Sync,
    R: RawMutexTimed<Duration = Duration, Instant = Instant> + RawMutex<Waiter = T> + Sync,
{
    for _ in 0..5u32 {
        let is_waiting = AtomicBool::new(false);
        let (in_time, ()) = thread::join(
            rt,
            || is_notified_in_time(raw, notified, &is_waiting),
            || notify_and_hold(rt, raw, notified, &is_waiting),
        );
        if in_time == Some(true) {
            return true;
        }
    }
    false
}

fn is_notified<T, R>(rt: &T, alloc: Global) -> Result<bool, Fail>
where
    T: Threads + Clock + Send + Sync + Copy,
    R: RawMutexTimed<Duration = Duration, Instant = Instant>
        + RawMutex<Waiter = T>
        + RawRwLock<Waiter = T>
        + Drop
        + Sync,
{
    let signal: Signal<R> = Signal::new(alloc, *rt)?;
    Ok(is_notified_once_in_five(rt, &signal.raw, &signal.condvar))
}

#[test]
fn a_wait_that_is_notified_in_time_has_not_timed_out(rt: HostRuntime) -> Result<(), Fail> {
    equal(
        is_notified::<HostRuntime, TimedRaw<HostRuntime>>(&rt, rt.alloc())?,
        true,
    )
}
