//! A counter to which threads add.
ghost use Rattle.std.specs.Prelude.{◌≡◌, ◌+◌, ◌-◌, ◌*◌, ◌^◌, ◌<◌, ◌≤◌, IfOk, IfErr};
ghost use Rattle.std.specs.Thread.{IsSync};

use lock_api::Fault;
use lock_api::ruled::{AddsOne, Measure, RuledMutex, Sums, Tally, User};
use std::alloc::Global;
use std::sync::Wait;
use std::thread::{Threads, join};

/// The measure of the counter: its value, which is what users added.
pub struct Added;

impl Measure<u64> for Added {
    ghost measure = { λ count. count };
}

/// A counter to which threads add.
pub type Counter = RuledMutex<u64, u64, Tally<Added>>;

/// Adds one `times` times, each time under the lock.
fn add<R: Wait>(rt: &R, counter: &Counter, user: User<u64, u64>, each: u64) -> User<u64, u64>
    requires { user.mutex ≡ counter.now }
    ensures { result ≡ record user { view = user.view + each } }
{
    let mut user = user;
    for done in 0..each {
        let mut value = counter.lock(rt, user);
        *value = value.wrapping_add(1);
        user = counter.unlock_ready::<AddsOne>(value);
    }
    user
}

/// Adds one, unless the mutex is held.
pub fn try_add(counter: &Counter, user: User<u64, u64>) -> Result<User<u64, u64>, User<u64, u64>>
    requires { user.mutex ≡ counter.now }
    ensures added { IfOk result (λ after. after ≡ record user { view = user.view + 1 }) }
    ensures refused { IfErr result (λ same. same ≡ user) }
{
    let mut value = counter.try_lock(user)?;
    *value = value.wrapping_add(1);
    Ok(counter.unlock_ready::<AddsOne>(value))
}

/// Adds one under the lock, and returns the count before.
pub fn next_number<R: Wait>(
    rt: &R,
    counter: &Counter,
    user: User<u64, u64>,
) -> (User<u64, u64>, u64)
    requires { user.mutex ≡ counter.now }
    ensures { result.0 ≡ record user { view = user.view + 1 } }
{
    counter.with::<AddsOne, R, u64, _>(rt, user, |count: &mut u64| {
        let number = *count;
        *count = number.wrapping_add(1);
        number
    })
}

/// Several threads add one several times each, the last of them as this user.
fn work<R: Threads + Wait + Sync>(
    rt: &R,
    counter: &Counter,
    user: User<u64, u64>,
    threads: u64,
    each: u64,
) -> User<u64, u64>
    requires mutex { user.mutex ≡ counter.now }
    requires parts { (0 < threads) × (threads ≤ user.parts) }
    ensures { result ≡ record user { view = user.view + threads * each } }
{
    if threads == 1 {
        return add(rt, counter, user, each);
    }
    let (user, other) = counter.split_ready::<Sums>(user);
    let (user, other) = join(
        rt,
        move || -> User<u64, u64>
            requires { IsSync R.row × (user.mutex ≡ counter.now) × (1 < threads) × (threads ≤ user.parts + 1) }
            ensures { result ≡ record user { view = user.view + (threads - 1) * each } }
        { work(rt, counter, user, threads - 1, each) },
        move || -> User<u64, u64>
            requires { IsSync R.row × (other.mutex ≡ counter.now) }
            ensures { result ≡ record other { view = other.view + each } }
        { add(rt, counter, other, each) },
    );
    counter.join_ready::<Sums>(user, other)
}

/// Returns the count of several threads that add one several times each.
pub fn count<R: Threads + Wait + Sync>(
    rt: &R,
    alloc: Global,
    threads: u64,
    each: u64,
) -> Result<u64, Fault>
    requires threads { (0 < threads) × (threads ≤ 2 ^ 32) }
    requires room { threads * each < 2 ^ 64 }
    ensures { IfOk result (λ sum. sum ≡ threads * each) }
{
    let (counter, user) = Counter::new(alloc, 0)?;
    let user = work(rt, &counter, user, threads, each);
    Ok(counter.into_inner_ready(user))
}
