//! Permits that threads share come back when their guard is dropped, and wake a thread that sleeps for them.
use crate::tests::deadlines::after;
use lock_ruled::SharedSemaphore;
use lock_test_support::answer::equal;
use std::sync::{Arc, Wait};
use std::test::Fail;
use std::thread::{Threads, join};
use std::time::{Clock, Duration, Instant};

/// What is seen of three permits: whether two more are refused beside two, and how many are free then; how many are free
/// while all are held by a closure, how many a token of all has and leaves, and how many are free after that.
type Seen = (bool, u64, u64, (u64, u64), u64);

fn seen_of_three<R: Wait>(rt: &R, semaphore: &SharedSemaphore) -> Seen {
    let two = semaphore.guard(rt, 2);
    let is_refused = semaphore.try_guard(rt, 2).is_none();
    let beside = semaphore.available_permits();
    drop(two);
    let within = semaphore.with_permits(rt, 3, || semaphore.available_permits());
    let token = semaphore.acquire(rt, 3);
    let held = (token.permits(), semaphore.available_permits());
    semaphore.release(token);
    (
        is_refused,
        beside,
        within,
        held,
        semaphore.available_permits(),
    )
}

#[test]
fn dropped_guards_give_permits_back(rt: HostRuntime) -> Result<(), Fail> {
    let semaphore = SharedSemaphore::new(rt.alloc(), 3)?;
    equal(seen_of_three(&rt, &semaphore), (true, 1, 0, (3, 0), 3))
}

/// Whether the only permit is refused beside a guard that outlives its borrow, and given after that; and how many are free
/// in the end.
fn seen_beside_an_arc_guard<R: Wait>(
    rt: &R,
    semaphore: &Arc<SharedSemaphore>,
) -> Result<(bool, bool, u64), Fail> {
    let guard = {
        let other = semaphore.clone()?;
        SharedSemaphore::guard_arc(&other, rt, 1)?
    };
    let is_refused = SharedSemaphore::try_guard_arc(semaphore, rt, 1)?.is_none();
    drop(guard);
    let is_given = SharedSemaphore::try_guard_arc(semaphore, rt, 1)?.is_some();
    Ok((is_refused, is_given, semaphore.available_permits()))
}

#[test]
fn an_arc_guard_outlives_the_borrow(rt: HostRuntime) -> Result<(), Fail> {
    let semaphore = Arc::new(rt.alloc(), SharedSemaphore::new(rt.alloc(), 1)?)?;
    equal(seen_beside_an_arc_guard(&rt, &semaphore)?, (true, true, 1))
}

/// Whether two permits are refused until the deadline, whether that is over then, and whether the only one is given.
fn seen_until<R: Wait + Clock>(
    rt: &R,
    semaphore: &SharedSemaphore,
    deadline: Instant,
) -> Result<[bool; 3], Fail> {
    let is_refused = semaphore.guard_until(rt, 2, deadline).is_none();
    let is_over = Instant::now(rt)? >= deadline;
    let is_given = semaphore.guard_until(rt, 1, deadline).is_some();
    Ok([is_refused, is_over, is_given])
}

#[test]
fn a_refused_wait_lasts_until_its_deadline(rt: HostRuntime) -> Result<(), Fail> {
    let semaphore = SharedSemaphore::new(rt.alloc(), 1)?;
    equal(seen_until(&rt, &semaphore, after(&rt, 20)?)?, [true; 3])
}

/// Drops the guard of the only permit after a while, beside a thread that waits for it.
fn pass_on<R: Threads + Wait + Clock + Sync>(rt: &R, semaphore: &SharedSemaphore) {
    let only = semaphore.guard(rt, 1);
    join(
        rt,
        move || {
            rt.sleep(Duration::from_millis(100));
            drop(only);
        },
        || drop(semaphore.guard(rt, 1)),
    );
}

#[test]
fn a_dropped_guard_wakes_a_sleeper(rt: HostRuntime) -> Result<(), Fail> {
    let semaphore = SharedSemaphore::new(rt.alloc(), 1)?;
    pass_on(&rt, &semaphore);
    assert_eq!(rt; semaphore.available_permits(), 1);
    Ok(())
}
