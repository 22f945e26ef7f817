//! Makers of raw locks to which memory is refused.
use lock_modes::Fault;
use lock_raws::{LockCore, NoTime, RawLock, WordCore};
use lock_raws_monitor::{Monitor, Recorded};
use lock_test_support::answer::{equal, lacks_memory};
use lock_traits::{RawMutex, RawRwLock};
use std::alloc::Global;
use std::rt::Env;
use std::test::Fail;

/// Checks that a maker made a free lock, or lacked memory.
fn is_free<E: Env, C: LockCore>(rt: &E, made: Result<RawLock<C>, Fault>) -> Result<(), Fail> {
    match made {
        Ok(raw) => equal(RawRwLock::is_locked(&raw), false),
        Err(fault) => lacks_memory(rt, fault),
    }
}

/// Checks the two makers of the raw traits.
fn check_makers<E: Env, C: LockCore>(
    rt: &E,
    alloc: Global,
    waiters: [C::Waiter; 2],
) -> Result<(), Fail> {
    let [first, second] = waiters;
    let mutex: Result<RawLock<C>, Fault> = RawMutex::new(alloc, first);
    is_free(rt, mutex)?;
    let rwlock: Result<RawLock<C>, Fault> = RawRwLock::new(alloc, second, 4);
    is_free(rt, rwlock)
}

#[test]
fn refused_memory_in_makers_on_a_word(rt: HostRuntime) -> Result<(), Fail> {
    check_makers::<HostRuntime, WordCore<HostRuntime, NoTime>>(&rt, rt.alloc(), [rt; 2])
}

#[test]
fn refused_memory_in_makers_of_a_recording_lock(rt: HostRuntime) -> Result<(), Fail> {
    check_makers::<HostRuntime, Monitor<Recorded, HostRuntime>>(&rt, rt.alloc(), [rt; 2])
}
