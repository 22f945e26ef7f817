//! A bump of a guard whose only level another thread acquires meanwhile.
use super::Gated;
use lock_modes::{Fault, PartyId};
use lock_remutex::{ReentrantMutex, ReentrantMutexGuard};
use lock_test_support::answer::equal;
use lock_test_support::{party, wait_for_flag};
use lock_traits::{RawMutex, RawMutexFair};
use std::sync::Wait;
use std::sync::atomic::{AtomicBool, Ordering};
use std::test::Fail;
use std::thread;

/// Bumps a guard. Returns whether the party owns the lock once the level of the other thread is released.
fn bump<W: Wait, R: RawMutexFair>(
    lock: &ReentrantMutex<R, u8>,
    party: PartyId,
    waiter: &W,
    is_held: &AtomicBool,
    is_over: &AtomicBool,
) -> Result<bool, Fault> {
    let mut guard = lock.lock(party)?;
    is_held.store(true, Ordering::SeqCst);
    ReentrantMutexGuard::bump(&mut guard);
    wait_for_flag(waiter, is_over);
    Ok(lock.is_owned_by_current_thread(party))
}

/// Blocks until the party has no level.
fn wait_for_level<W: Wait, R: RawMutex>(lock: &ReentrantMutex<R, u8>, party: PartyId, waiter: &W) {
    for _ in waiter.forever() {
        if !lock.is_owned_by_current_thread(party) {
            return;
        }
        thread::yield_now();
    }
}

/// Blocks until the raw lock is free.
fn wait_for_release<W: Wait, R: RawMutex>(lock: &ReentrantMutex<R, u8>, waiter: &W) {
    for _ in waiter.forever() {
        if !lock.is_locked() {
            return;
        }
        thread::yield_now();
    }
}

/// Acquires the only level during the bump, and keeps it while the bump tries to reacquire it.
fn lock_during_bump<W: Wait, R: RawMutex>(
    lock: &ReentrantMutex<R, u8>,
    party: PartyId,
    waiter: &W,
    is_held: &AtomicBool,
    is_over: &AtomicBool,
) -> Result<(), Fault> {
    wait_for_flag(waiter, is_held);
    wait_for_level(lock, party, waiter);
    let guard = lock.lock(party)?;
    // the raw bump ends, and its token is released again
    wait_for_release(lock, waiter);
    for _ in 0..10_000u32 {
        thread::yield_now();
    }
    drop(guard);
    is_over.store(true, Ordering::SeqCst);
    Ok(())
}

#[test]
fn a_bump_waits_for_a_level(rt: HostRuntime) -> Result<(), Fail> {
    let one = party(1)?;
    let lock: ReentrantMutex<Gated<HostRuntime>, u8> = ReentrantMutex::with_levels(
        rt.alloc(),
        rt,
        1,
        0,
    )?;
    let (is_held, is_over) = (AtomicBool::new(false), AtomicBool::new(false));
    let ends = thread::join(
        &rt,
        || bump(&lock, one, &rt, &is_held, &is_over),
        || lock_during_bump(&lock, one, &rt, &is_held, &is_over),
    );
    equal(ends, (Ok(true), Ok(())))
}
