//! The makers of a mutex, and what a consumed mutex returns.
use lock_modes::Fault;
use lock_mutex::{Condvar, Mutex};
use lock_raws_condvar::SleepingCondvar;
use lock_raws_monitor::TokenRaw;
use lock_recorder::Recorder;
use lock_test_support::answer::{answers_or_lacks_memory, equal};
use lock_traits::{RawCondvar, RawMutex};
use std::alloc::Global;
use std::test::Fail;

/// The value of a mutex, and whether the raw lock is free and got no call.
type Made = (u64, bool);

fn consumed<R: RawMutex + Drop>(mutex: Mutex<Recorder<R>, u64>) -> Made {
    let (raw, value) = mutex.into_inner_with_raw();
    (value, raw.has_no_calls() && !raw.is_locked())
}

/// What `new`, `from` and `default` make.
fn made<R: RawMutex + Drop>(alloc: Global, waiters: [R::Waiter; 3]) -> Result<[Made; 3], Fault> {
    let [first, second, third] = waiters;
    Ok([
        consumed::<R>(Mutex::new(alloc, first, 5)?),
        consumed::<R>(Mutex::from(alloc, second, 6)?),
        consumed::<R>(Mutex::default(alloc, third)?),
    ])
}

const WANTED: [Made; 3] = [(5, true), (6, true), (0, true)];

/// Each with its maker's name.
fn named([new, from, default]: [Made; 3]) -> [(&'static str, Made); 3] {
    [("new", new), ("from", from), ("default", default)]
}

#[test]
fn makers_of_a_mutex_lock_nothing(rt: HostRuntime) -> Result<(), Fail> {
    let made = made::<TokenRaw<HostRuntime>>(rt.alloc(), [rt; 3])?;
    equal(named(made), named(WANTED))
}

#[test]
fn refused_memory_in_makers_of_a_mutex(rt: HostRuntime) -> Result<(), Fail> {
    let made = made::<TokenRaw<HostRuntime>>(rt.alloc(), [rt; 3]);
    answers_or_lacks_memory(&rt, made.map(named), named(WANTED))
}

/// How many waiters a new condition variable wakes.
fn woken<C: RawCondvar + Drop>(alloc: Global) -> Result<usize, Fault> {
    let condvar: Condvar<C> = Condvar::new(alloc)?;
    Ok(condvar.notify_all())
}

/// A condition variable whose waiters sleep allocates their count. A new one has none.
#[test]
fn refused_memory_condvar(rt: HostRuntime) -> Result<(), Fail> {
    let woken = woken::<SleepingCondvar<TokenRaw<HostRuntime>>>(rt.alloc());
    answers_or_lacks_memory(&rt, woken, 0)
}
