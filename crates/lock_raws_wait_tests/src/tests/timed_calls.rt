//! Every timed call: it times out no sooner than its time, and a release before that lets it acquire.
use super::{is_over, short};
use lock_raws::{LockCore, RawLock, RealTime, WordCore};
use lock_test_support::answer::equal;
use lock_test_support::wait_for_flag;
use lock_traits::{RawMutexTimed, RawRwLock, RawRwLockTimed, RawRwLockUpgradeTimed};
use std::alloc::Global;
use std::sync::atomic::{AtomicBool, Ordering};
use std::test::Fail;
use std::thread::{self, Threads};
use std::time::{Clock, Duration, Instant};

/// What a timed call acquires.
#[derive(Clone, Copy, PartialEq, Debug)]
enum Acquisition {
    Lock,
    Shared,
    Exclusive,
    Upgradable,
    /// An exclusive token for an upgradable one.
    Upgrade,
}

use Acquisition::{Exclusive, Lock, Shared, Upgradable, Upgrade};

/// When a timed call ends.
#[derive(Clone, Copy)]
enum TimeLimit {
    For(Duration),
    Until(Instant),
}

use TimeLimit::{For, Until};

/// Returns the timeout, or the deadline that is so long from now.
fn limit<K: Clock>(clock: &K, is_deadline: bool, time: Duration) -> Result<TimeLimit, Fail> {
    if !is_deadline {
        return Ok(For(time));
    }
    let deadline = Instant::now(clock)?.checked_add(time);
    Ok(Until(deadline.ok_or("there is such an instant")?))
}

/// A core that measures time.
trait TimedCore: LockCore<Duration = Duration, Instant = Instant> {}

impl<C: LockCore<Duration = Duration, Instant = Instant>> TimedCore for C {}

/// Whether the call acquires. It releases at once.
fn acquires<C: TimedCore>(raw: &RawLock<C>, what: Acquisition, limit: TimeLimit) -> bool {
    match what {
        Lock => locks(raw, limit),
        Shared => reads(raw, limit),
        Exclusive => writes(raw, limit),
        Upgradable => reads_upgradable(raw, limit),
        Upgrade => upgrades(raw, limit),
    }
}

fn locks<R>(raw: &R, limit: TimeLimit) -> bool
where
    R: RawMutexTimed<Duration = Duration, Instant = Instant>,
{
    let answer = match limit {
        For(time) => raw.try_lock_for(time),
        Until(end) => raw.try_lock_until(end),
    };
    match answer {
        Some(token) => {
            raw.unlock(token);
            true
        }
        None => false,
    }
}

fn reads<R>(raw: &R, limit: TimeLimit) -> bool
where
    R: RawRwLockTimed<Duration = Duration, Instant = Instant>,
{
    let answer = match limit {
        For(time) => raw.try_lock_shared_for(time),
        Until(end) => raw.try_lock_shared_until(end),
    };
    match answer {
        Some(token) => {
            raw.unlock_shared(token);
            true
        }
        None => false,
    }
}

fn writes<R>(raw: &R, limit: TimeLimit) -> bool
where
    R: RawRwLockTimed<Duration = Duration, Instant = Instant>,
{
    let answer = match limit {
        For(time) => raw.try_lock_exclusive_for(time),
        Until(end) => raw.try_lock_exclusive_until(end),
    };
    match answer {
        Some(token) => {
            raw.unlock_exclusive(token);
            true
        }
        None => false,
    }
}

fn reads_upgradable<R>(raw: &R, limit: TimeLimit) -> bool
where
    R: RawRwLockUpgradeTimed + RawRwLockTimed<Duration = Duration, Instant = Instant>,
{
    let answer = match limit {
        For(time) => raw.try_lock_upgradable_for(time),
        Until(end) => raw.try_lock_upgradable_until(end),
    };
    match answer {
        Some(token) => {
            raw.unlock_upgradable(token);
            true
        }
        None => false,
    }
}

/// Whether an upgradable token is upgraded.
fn upgrades<R>(raw: &R, limit: TimeLimit) -> bool
where
    R: RawRwLockUpgradeTimed + RawRwLockTimed<Duration = Duration, Instant = Instant>,
{
    let token = raw.lock_upgradable();
    let answer = match limit {
        For(time) => raw.try_upgrade_for(token, time),
        Until(end) => raw.try_upgrade_until(token, end),
    };
    match answer {
        Ok(token) => {
            raw.unlock_exclusive(token);
            true
        }
        Err(token) => {
            raw.unlock_upgradable(token);
            false
        }
    }
}

/// Whether the call acquires within `short`, next to a token that blocks it, and whether `short` was over when it
/// returned.
fn acquires_beside<K: Clock, C: TimedCore>(
    clock: &K,
    raw: &RawLock<C>,
    what: Acquisition,
    is_deadline: bool,
) -> Result<[bool; 2], Fail> {
    let start = Instant::now(clock)?;
    let limit = limit(clock, is_deadline, short())?;
    let is_acquired = match what {
        Upgrade => {
            let token = raw.lock_shared();
            let is_acquired = upgrades(raw, limit);
            raw.unlock_shared(token);
            is_acquired
        }
        _ => {
            let token = raw.lock_exclusive();
            let is_acquired = acquires(raw, what, limit);
            raw.unlock_exclusive(token);
            is_acquired
        }
    };
    Ok([is_acquired, is_over(clock, start)])
}

/// Holds a token that blocks the call for `short`, and releases it.
fn release_later<K: Clock, R: RawRwLock>(
    clock: &K,
    raw: &R,
    what: Acquisition,
    is_held: &AtomicBool,
) {
    match what {
        Upgrade => {
            let token = raw.lock_shared();
            stay(clock, is_held);
            raw.unlock_shared(token);
        }
        _ => {
            let token = raw.lock_exclusive();
            stay(clock, is_held);
            raw.unlock_exclusive(token);
        }
    }
}

/// Raises the flag, and sleeps for `short`.
fn stay<K: Clock>(clock: &K, is_held: &AtomicBool) {
    is_held.store(true, Ordering::SeqCst);
    clock.sleep(short());
}

/// Whether the call acquires, which begins once another thread holds a token that blocks it for `short`.
fn acquires_after_a_release<R: Threads + Clock + Sync, C: TimedCore + Sync>(
    rt: &R,
    raw: &RawLock<C>,
    what: Acquisition,
    limit: TimeLimit,
) -> bool
where
    C::Waiter: Send,
{
    let is_held = AtomicBool::new(false);
    let (is_acquired, ()) = thread::join(
        rt,
        || {
            wait_for_flag(RawRwLock::waiter(raw), &is_held);
            acquires(raw, what, limit)
        },
        || release_later(rt, raw, what, &is_held),
    );
    is_acquired
}

/// Each call, blocked and released. A timeout past the last instant never ends, and an hour is longer than any test.
fn check_calls<R: Threads + Clock + Sync, C: TimedCore + Sync>(
    rt: &R,
    alloc: Global,
    waiter: C::Waiter,
) -> Result<(), Fail>
where
    C::Waiter: Send,
{
    let raw: RawLock<C> = RawRwLock::new(alloc, waiter, 4)?;
    for what in [Lock, Shared, Exclusive, Upgradable, Upgrade] {
        for is_deadline in [false, true] {
            let seen = acquires_beside(rt, &raw, what, is_deadline)?;
            let hour = limit(rt, is_deadline, Duration::from_secs(3_600))?;
            let released = [
                acquires_after_a_release(rt, &raw, what, hour),
                acquires_after_a_release(rt, &raw, what, For(Duration::MAX)),
            ];
            equal(
                (what, is_deadline, seen, released),
                (what, is_deadline, [false, true], [true; 2]),
            )?;
        }
    }
    Ok(())
}

#[test]
fn timed_calls_wait_for_their_time(rt: HostRuntime) -> Result<(), Fail> {
    check_calls::<HostRuntime, WordCore<HostRuntime, RealTime>>(&rt, rt.alloc(), rt)
}
