//! The makers of a reentrant lock, and what a consumed lock returns.
use lock_modes::Mode::Exclusive;
use lock_modes::{Fault, PartyId};
use lock_raws_monitor::TokenRaw;
use lock_recorder::RawCall::Lock;
use lock_recorder::Recorder;
use lock_remutex::{RawReentrantMutex, ReentrantMutex};
use lock_test_support::answer::{answers_or_lacks_memory, equal};
use lock_test_support::party;
use lock_test_support::raw_lock::CallWatch;
use lock_traits::RawMutex;
use std::alloc::Global;
use std::mem;
use std::rt::Env;
use std::test::Fail;

/// The value of a lock, how many of a hundred levels a party gets, and whether they are one raw call.
type Made = (u8, u8, bool);

/// How many of a hundred levels the party gets. They stay held.
fn levels<R: RawMutex>(lock: &ReentrantMutex<R, u8>, party: PartyId) -> u8 {
    let mut levels = 0_u8;
    for _ in 0..100 {
        if let Ok(guard) = lock.lock(party) {
            mem::forget(guard);
            levels = levels.wrapping_add(1);
        }
    }
    levels
}

/// Acquires levels of a new lock, and consumes it.
fn consumed<R: RawMutex + Drop>(
    lock: Result<ReentrantMutex<Recorder<R>, u8>, Fault>,
    party: PartyId,
) -> Result<Made, Fault> {
    let lock = lock?;
    let levels = levels(&lock, party);
    let (raw, value) = lock.into_inner_with_raw();
    let mut watch = CallWatch::new(raw.log()?);
    watch.saw(&[Lock(Exclusive)]);
    Ok((value, levels, watch.is_right()))
}

/// What `new`, `from`, `default`, `with_levels` and `from_raw` make.
fn made<R: RawMutex + Drop>(
    alloc: Global,
    waiters: [R::Waiter; 5],
    one: PartyId,
) -> Result<[Made; 5], Fault>
where
    R::Guard: Send,
{
    let [first, second, third, fourth, fifth] = waiters;
    let raw: Recorder<R> = RawMutex::new(alloc, fifth)?;
    Ok([
        consumed::<R>(ReentrantMutex::new(alloc, first, 5), one)?,
        consumed::<R>(ReentrantMutex::from(alloc, second, 6), one)?,
        consumed::<R>(ReentrantMutex::default(alloc, third), one)?,
        consumed::<R>(ReentrantMutex::with_levels(alloc, fourth, 3, 7), one)?,
        consumed::<R>(ReentrantMutex::from_raw(alloc, raw, 8), one)?,
    ])
}

const WANTED: [Made; 5] = [
    (5, 100, true),
    (6, 100, true),
    (0, 100, true),
    (7, 3, true),
    (8, 100, true),
];

/// Each with its maker's name.
fn named([new, from, default, with_levels, from_raw]: [Made; 5]) -> [(&'static str, Made); 5] {
    [
        ("new", new),
        ("from", from),
        ("default", default),
        ("with_levels", with_levels),
        ("from_raw", from_raw),
    ]
}

#[test]
fn makers_of_a_reentrant_lock_lock_nothing(rt: HostRuntime) -> Result<(), Fail> {
    let made = made::<TokenRaw<HostRuntime>>(rt.alloc(), [rt; 5], party(1)?)?;
    equal(named(made), named(WANTED))
}

/// Leaves out the raw calls, since their record may lack one for want of memory.
fn without_calls(made: [Made; 5]) -> [(&'static str, u8, u8); 5] {
    named(made).map(|(maker, (value, levels, _))| (maker, value, levels))
}

#[test]
fn refused_memory_in_makers_of_a_reentrant_lock(rt: HostRuntime) -> Result<(), Fail> {
    let made = made::<TokenRaw<HostRuntime>>(rt.alloc(), [rt; 5], party(1)?);
    answers_or_lacks_memory(&rt, made.map(without_calls), without_calls(WANTED))
}

/// Whether the party gets a level of the lock, if there is one.
fn gets_level<R: RawMutex + Drop>(
    made: Result<RawReentrantMutex<R>, Fault>,
    party: PartyId,
) -> Result<Result<bool, Fault>, Fault> {
    let lock = made?;
    Ok(lock.try_lock(party))
}

/// Checks that the party gets a level of each lock, or that its maker lacked memory.
fn check_raw_makers<R: RawMutex + Drop, E: Env>(
    rt: &E,
    alloc: Global,
    waiters: [R::Waiter; 2],
    one: PartyId,
) -> Result<(), Fail>
where
    R::Guard: Send,
{
    let [first, last] = waiters;
    let new = gets_level::<R>(RawReentrantMutex::new(alloc, first), one);
    let with_levels = gets_level::<R>(RawReentrantMutex::with_levels(alloc, last, 3), one);
    answers_or_lacks_memory(rt, new, Ok(true))?;
    answers_or_lacks_memory(rt, with_levels, Ok(true))
}

#[test]
fn refused_memory_raw_reentrant_mutex(rt: HostRuntime) -> Result<(), Fail> {
    check_raw_makers::<TokenRaw<HostRuntime>, HostRuntime>(&rt, rt.alloc(), [rt; 2], party(1)?)
}
