//! A user that waits until a deadline returns at it, and is woken before it.
ghost use Rattle.std.specs.Prelude.{◌≡◌};
ghost use Rattle.std.specs.Thread.{IsSync};

use crate::tests::counter::{Adder, Counter};
use lock_ruled::{AddsOne, SameView, Sums};
use lock_test_support::answer::equal;
use std::alloc::Global;
use std::sync::Wait;
use std::test::Fail;
use std::thread::{Threads, join};
use std::time::{Clock, Duration, Instant};

/// Whether another user holds the mutex, its value, and whether `lock_until` acquires it, and `lock_when_until` for a value
/// of at least 5.
const CASES: [(bool, u64, (bool, bool)); 3] = [
    (true, 5, (false, false)),
    (false, 4, (true, false)),
    (false, 5, (true, true)),
];

/// The instant that is so many milliseconds from now.
pub fn after<K: Clock>(clock: &K, millis: u64) -> Result<Instant, Fail> {
    let deadline = Instant::now(clock)?.checked_add(Duration::from_millis(millis));
    Ok(deadline.ok_or("there is such an instant")?)
}

/// Makes both calls, and returns whether they acquire.
fn acquire_until<R: Wait + Clock>(
    rt: &R,
    counter: &Counter,
    user: Adder,
    deadline: Instant,
) -> (bool, bool)
    requires { user.mutex ≡ counter.now }
{
    let (user, by_lock) = match counter.lock_until(rt, user, deadline) {
        Ok(value) => (counter.unlock_ready::<SameView>(value), true),
        Err(same) => (same, false),
    };
    (by_lock, is_five_until(rt, counter, user, deadline))
}

/// Whether the mutex is acquired with a value of at least 5.
fn is_five_until<R: Wait + Clock>(rt: &R, counter: &Counter, user: Adder, deadline: Instant) -> bool
    requires { user.mutex ≡ counter.now }
{
    match counter.lock_when_until(rt, user, |count: &u64| *count >= 5, deadline) {
        Ok(value) => {
            drop(counter.unlock_ready::<SameView>(value));
            true
        }
        Err(same) => {
            drop(same);
            false
        }
    }
}

/// Makes both calls, beside a user that holds the mutex if one does. Returns whether they acquire.
fn acquire_beside<R: Wait + Clock>(
    rt: &R,
    counter: &Counter,
    users: (Adder, Adder),
    is_held: bool,
    deadline: Instant,
) -> (bool, bool)
    requires holder { users.0.mutex ≡ counter.now }
    requires waiter { users.1.mutex ≡ counter.now }
{
    let (holder, waiter) = users;
    if !is_held {
        return acquire_until(rt, counter, waiter, deadline);
    }
    let held = counter.lock(rt, holder);
    let seen = acquire_until(rt, counter, waiter, deadline);
    drop(counter.unlock_ready::<SameView>(held));
    seen
}

/// Whether both calls acquire as they should, and whether the deadline is over unless both do.
fn check_case<R: Wait + Clock>(
    rt: &R,
    alloc: Global,
    case: (bool, u64, (bool, bool)),
) -> Result<(), Fail> {
    let (is_held, value, acquired) = case;
    let (counter, user) = Counter::new(alloc, value)?;
    let users = counter.split_ready::<Sums>(user);
    let deadline = after(rt, 20)?;
    let seen = acquire_beside(rt, &counter, users, is_held, deadline);
    let is_over = Instant::now(rt)? >= deadline;
    equal(
        (is_held, value, seen, is_over || seen == (true, true)),
        (is_held, value, acquired, true),
    )
}

#[test]
fn refused_waits_last_until_their_deadline(rt: HostRuntime) -> Result<(), Fail> {
    for case in CASES {
        check_case(&rt, rt.alloc(), case)?;
    }
    Ok(())
}

/// Adds one after a while, and holds the mutex for a while.
fn add_slowly<R: Wait + Clock>(rt: &R, counter: &Counter, user: Adder)
    requires { user.mutex ≡ counter.now }
{
    rt.sleep(Duration::from_millis(50));
    let mut count = counter.lock(rt, user);
    rt.sleep(Duration::from_millis(50));
    *count = count.wrapping_add(1);
    drop(counter.unlock_ready::<AddsOne>(count));
}

/// Whether a call acquires that waits for what another user adds.
fn is_five_beside<R: Threads + Wait + Clock + Sync>(
    rt: &R,
    counter: &Counter,
    adder: Adder,
    waiter: Adder,
    deadline: Instant,
) -> bool
    requires adder { adder.mutex ≡ counter.now }
    requires waiter { waiter.mutex ≡ counter.now }
{
    let (is_five, ()) = join(
        rt,
        move || -> bool
            requires { IsSync R.row × (waiter.mutex ≡ counter.now) }
        { is_five_until(rt, counter, waiter, deadline) },
        move || -> ()
            requires { IsSync R.row × (adder.mutex ≡ counter.now) }
        { add_slowly(rt, counter, adder) },
    );
    is_five
}

/// The deadline is past the end of any test.
fn check_wake<R: Threads + Wait + Clock + Sync>(rt: &R, alloc: Global) -> Result<(), Fail> {
    let (counter, user) = Counter::new(alloc, 4)?;
    let (adder, waiter) = counter.split_ready::<Sums>(user);
    let deadline = after(rt, 3_600_000)?;
    equal(is_five_beside(rt, &counter, adder, waiter, deadline), true)
}

#[test]
fn unlock_wakes_before_the_deadline(rt: HostRuntime) -> Result<(), Fail> {
    check_wake(&rt, rt.alloc())
}
