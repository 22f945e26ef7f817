//! Each user that sleeps for the value is woken.
ghost use Rattle.std.specs.Prelude.{◌≡◌};
ghost use Rattle.std.specs.Thread.{IsSync};

use crate::tests::counter::{Adder, Counter};
use lock_ruled::{AddsOne, Sums};
use lock_test_support::answer::equal;
use std::sync::Wait;
use std::sync::atomic::{AtomicU64, Ordering};
use std::test::Fail;
use std::thread::{Threads, join, yield_now};
use std::time::{Clock, Duration};

/// Waits until so many threads have asked.
pub fn let_ask<R: Wait>(rt: &R, asked: &AtomicU64, threads: u64) {
    for _ in rt.forever() {
        if asked.load(Ordering::SeqCst) == threads {
            break;
        }
        yield_now();
    }
}

/// Adds one, and returns the value before. It keeps the mutex until all three have asked for it, and a while longer.
fn add_slowly<R: Wait + Clock>(rt: &R, counter: &Counter, user: Adder, asked: &AtomicU64) -> u64
    requires { user.mutex ≡ counter.now }
{
    asked.fetch_add(1, Ordering::SeqCst);
    let mut value = counter.lock(rt, user);
    let_ask(rt, asked, 3);
    rt.sleep(Duration::from_millis(200));
    let found = *value;
    *value = value.wrapping_add(1);
    drop(counter.unlock_ready::<AddsOne>(value));
    found
}

/// Two users add, each on a thread.
fn add_at_once<R: Threads + Wait + Clock + Sync>(
    rt: &R,
    counter: &Counter,
    first: Adder,
    second: Adder,
    asked: &AtomicU64,
) -> (u64, u64)
    requires first { first.mutex ≡ counter.now }
    requires second { second.mutex ≡ counter.now }
{
    join(
        rt,
        move || -> u64
            requires { IsSync R.row × (first.mutex ≡ counter.now) }
        { add_slowly(rt, counter, first, asked) },
        move || -> u64
            requires { IsSync R.row × (second.mutex ≡ counter.now) }
        { add_slowly(rt, counter, second, asked) },
    )
}

/// Three users add. This returns only where each unlock wakes the next of those that sleep.
fn add_beside_two<R: Threads + Wait + Clock + Sync>(
    rt: &R,
    counter: &Counter,
    two: (Adder, Adder),
    third: Adder,
    asked: &AtomicU64,
) -> ((u64, u64), u64)
    requires first { two.0.mutex ≡ counter.now }
    requires second { two.1.mutex ≡ counter.now }
    requires third { third.mutex ≡ counter.now }
{
    let (first, second) = two;
    join(
        rt,
        move || -> (u64, u64)
            requires { IsSync R.row × (first.mutex ≡ counter.now) × (second.mutex ≡ counter.now) }
        { add_at_once(rt, counter, first, second, asked) },
        move || -> u64
            requires { IsSync R.row × (third.mutex ≡ counter.now) }
        { add_slowly(rt, counter, third, asked) },
    )
}

/// The first user keeps the mutex until the other two have asked for it. So these two wait, and the last one finds 2.
#[test]
fn each_that_sleeps_is_woken(rt: HostRuntime) -> Result<(), Fail> {
    let (counter, user) = Counter::new(rt.alloc(), 0)?;
    let (first, second) = counter.split_ready::<Sums>(user);
    let (first, third) = counter.split_ready::<Sums>(first);
    let asked = AtomicU64::new(0);
    let ((first, second), third) = add_beside_two(&rt, &counter, (first, second), third, &asked);
    equal(first.max(second).max(third), 2)
}
