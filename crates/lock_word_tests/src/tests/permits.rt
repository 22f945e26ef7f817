//! A holder that waits for permits sleeps until they are released, or until its deadline.
ghost use Rattle.std.specs.Prelude.{◌≡◌, ◌≤◌};
ghost use Rattle.std.specs.Thread.{IsSync};

use crate::tests::deadlines::after;
use crate::tests::sleeper::let_ask;
use lock_ruled::{Holder, Semaphore};
use lock_test_support::answer::equal;
use std::alloc::Global;
use std::sync::Wait;
use std::sync::atomic::{AtomicU64, Ordering};
use std::test::Fail;
use std::thread::{Threads, join};
use std::time::{Clock, Duration, Instant};

/// Releases a permit a while after another thread has asked for one, and counts itself before that.
fn release_later<R: Wait + Clock>(
    rt: &R,
    semaphore: &Semaphore,
    holder: Holder,
    asked: &AtomicU64,
) -> Holder
    requires { (holder.mutex ≡ semaphore.now) × (1 ≤ holder.view.own) }
    ensures { result.mutex ≡ semaphore.now }
{
    let_ask(rt, asked, 1);
    rt.sleep(Duration::from_millis(100));
    asked.fetch_add(1, Ordering::SeqCst);
    semaphore.release(rt, holder, 1)
}

/// Acquires a permit. Returns the count after that.
fn acquire_one<R: Wait>(rt: &R, semaphore: &Semaphore, holder: Holder, asked: &AtomicU64) -> u64
    requires { holder.mutex ≡ semaphore.now }
{
    asked.fetch_add(1, Ordering::SeqCst);
    drop(semaphore.acquire(rt, holder, 1));
    asked.load(Ordering::SeqCst)
}

/// The first holder releases its permit after a while, and the second waits for it. Returns the second's count.
fn pass_on<R: Threads + Wait + Clock + Sync>(
    rt: &R,
    semaphore: &Semaphore,
    first: Holder,
    second: Holder,
    asked: &AtomicU64,
) -> u64
    requires first { (first.mutex ≡ semaphore.now) × (1 ≤ first.view.own) }
    requires second { second.mutex ≡ semaphore.now }
{
    let ((), count) = join(
        rt,
        move || -> ()
            requires { IsSync R.row × (first.mutex ≡ semaphore.now) × (1 ≤ first.view.own) }
        { drop(release_later(rt, semaphore, first, asked)) },
        move || -> u64
            requires { IsSync R.row × (second.mutex ≡ semaphore.now) }
        { acquire_one(rt, semaphore, second, asked) },
    );
    count
}

/// The second holder has its permit only after the first one has counted itself, a while after the second asked.
#[test]
fn released_permit_wakes_sleeper(rt: HostRuntime) -> Result<(), Fail> {
    let (semaphore, holder) = Semaphore::new(rt.alloc(), 1)?;
    let holder = semaphore.acquire(&rt, holder, 1);
    let (first, second) = semaphore.split(holder);
    let asked = AtomicU64::new(0);
    equal(pass_on(&rt, &semaphore, first, second, &asked), 2)
}

/// Acquires the permits by a try, and releases them. Returns whether they were given.
fn is_given<R: Wait>(rt: &R, semaphore: &Semaphore, holder: Holder, permits: u64) -> (Holder, bool)
    requires { holder.mutex ≡ semaphore.now }
    ensures { (result.0.mutex ≡ semaphore.now) × (result.0.parts ≡ holder.parts) }
{
    match semaphore.try_acquire(rt, holder, permits) {
        Ok(holder) => (semaphore.release(rt, holder, permits), true),
        Err(same) => (same, false),
    }
}

/// Acquires the permits by the deadline, and keeps them. Returns whether they were given.
fn is_given_until<R: Wait + Clock>(
    rt: &R,
    semaphore: &Semaphore,
    holder: Holder,
    permits: u64,
    deadline: Instant,
) -> (Holder, bool)
    requires { holder.mutex ≡ semaphore.now }
    ensures { (result.0.mutex ≡ semaphore.now) × (result.0.parts ≡ holder.parts) }
{
    match semaphore.acquire_until(rt, holder, permits, deadline) {
        Ok(holder) => (holder, true),
        Err(same) => (same, false),
    }
}

/// Whether four permits are given, what a closure under three returns, whether three are given, how many are free after
/// that, and whether four are given until the deadline.
type Seen = (bool, u64, bool, u64, bool);

fn seen_of_three<R: Wait + Clock>(
    rt: &R,
    semaphore: &Semaphore,
    holder: Holder,
    deadline: Instant,
) -> (Holder, Seen)
    requires { holder.mutex ≡ semaphore.now }
    ensures { (result.0.mutex ≡ semaphore.now) × (result.0.parts ≡ holder.parts) }
{
    let (holder, four) = is_given(rt, semaphore, holder, 4);
    let (holder, answer) = semaphore.with_permits(rt, holder, 3, || 7u64);
    let (holder, three) = is_given(rt, semaphore, holder, 3);
    let (holder, free) = semaphore.available_permits(rt, holder);
    let (holder, late) = is_given_until(rt, semaphore, holder, 4, deadline);
    (holder, (four, answer, three, free, late))
}

/// After three permits are used, one of two holders keeps two, which do not come back.
fn check_three<R: Wait + Clock>(rt: &R, alloc: Global) -> Result<(), Fail> {
    let (semaphore, holder) = Semaphore::new(alloc, 3)?;
    let deadline = after(rt, 20)?;
    let (holder, seen) = seen_of_three(rt, &semaphore, holder, deadline);
    let (first, second) = semaphore.split(holder);
    let (first, two) = is_given_until(rt, &semaphore, first, 2, deadline);
    let holder = semaphore.join(first, second);
    let left = semaphore.into_permits(holder);
    equal((seen, two, left), ((false, 7, true, 3, false), true, 1))
}

#[test]
fn permits_that_stay_away_are_refused(rt: HostRuntime) -> Result<(), Fail> {
    check_three(&rt, rt.alloc())
}

/// A second holder finds one of three permits free while a closure runs under two, and all are free after it.
fn check_under_two<R: Wait>(rt: &R, alloc: Global) -> Result<(), Fail> {
    let (semaphore, holder) = Semaphore::new(alloc, 3)?;
    let (first, second) = semaphore.split(holder);
    let (first, (second, within)) = semaphore.with_permits(
        rt,
        first,
        2,
        || semaphore.available_permits(rt, second),
    );
    let holder = semaphore.join(first, second);
    let left = semaphore.into_permits(holder);
    equal((within, left), (1, 3))
}

#[test]
fn a_closure_runs_under_its_permits(rt: HostRuntime) -> Result<(), Fail> {
    check_under_two(&rt, rt.alloc())
}
