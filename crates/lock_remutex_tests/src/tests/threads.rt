//! Parties that are threads.
use lock_modes::{Fault, PartyId};
use lock_raws_monitor::TokenRaw;
use lock_recorder::CallLog;
use lock_remutex::{ReentrantMutex, ReentrantMutexGuard};
use lock_test_support::answer::equal;
use lock_test_support::raw_lock::AdmitsAll;
use lock_test_support::{two_parties, wait_for_calls, wait_for_flag};
use lock_traits::RawMutex;
use std::sync::Wait;
use std::sync::atomic::{AtomicBool, AtomicU64, Ordering};
use std::test::Fail;
use std::thread;

/// Adds 1 by a separate read and write, at the inner level. The outer level ends first.
fn add_one<R: RawMutex>(
    outer: ReentrantMutexGuard<'_, R, AtomicU64>,
    inner: Result<ReentrantMutexGuard<'_, R, AtomicU64>, Fault>,
) -> Result<(), Fault> {
    drop(outer);
    let inner = inner?;
    let found = inner.load(Ordering::SeqCst);
    inner.store(found.wrapping_add(1), Ordering::SeqCst);
    Ok(())
}

/// Adds 1 a thousand times.
fn count_up<R: RawMutex>(
    count: &ReentrantMutex<R, AtomicU64>,
    party: PartyId,
) -> Result<(), Fault> {
    for _ in 0..1_000 {
        add_one(count.lock(party)?, count.lock(party))?;
    }
    Ok(())
}

#[test]
fn two_parties_take_turns(rt: HostRuntime) -> Result<(), Fail> {
    let (one, two) = two_parties()?;
    let zero = AtomicU64::new(0);
    let count: ReentrantMutex<TokenRaw<HostRuntime>, AtomicU64> = ReentrantMutex::new(
        rt.alloc(),
        rt,
        zero,
    )?;
    let ends = thread::join(&rt, || count_up(&count, one), || count_up(&count, two));
    equal(ends, (Ok(()), Ok(())))?;
    assert_eq!(rt; count.into_inner().load(Ordering::SeqCst), 2_000);
    Ok(())
}

/// Owns the lock, and says so, until the raw lock got six calls: one acquisition of the owner, and three of another
/// party, of which each but the last was followed by the release of the token that came too early.
fn own_for_six_calls<W: Wait, R: RawMutex>(
    lock: &ReentrantMutex<R, u8>,
    party: PartyId,
    waiter: &W,
    calls: &CallLog,
    is_owned: &AtomicBool,
) -> Result<(), Fault> {
    let _guard = lock.lock(party)?;
    is_owned.store(true, Ordering::SeqCst);
    wait_for_calls(waiter, calls, 6);
    Ok(())
}

/// Acquires the lock once another party owns it. Returns whether this party owns it then.
fn lock_once_owned<W: Wait, R: RawMutex>(
    lock: &ReentrantMutex<R, u8>,
    party: PartyId,
    waiter: &W,
    is_owned: &AtomicBool,
) -> Result<bool, Fault> {
    wait_for_flag(waiter, is_owned);
    let _guard = lock.lock(party)?;
    Ok(lock.is_owned_by_current_thread(party))
}

/// It ends only if `lock` calls such a raw lock again and again, and acquires in the end.
#[test]
fn lock_asks_again_while_another_owns(rt: HostRuntime) -> Result<(), Fail> {
    let (one, two) = two_parties()?;
    let raw: AdmitsAll<HostRuntime> = RawMutex::new(rt.alloc(), rt)?;
    let calls = raw.log()?;
    let lock = ReentrantMutex::from_raw(rt.alloc(), raw, 0u8)?;
    let is_owned = AtomicBool::new(false);
    let ends = thread::join(
        &rt,
        || own_for_six_calls(&lock, one, &rt, &calls, &is_owned),
        || lock_once_owned(&lock, two, &rt, &is_owned),
    );
    equal(ends, (Ok(()), Ok(true)))
}
