//! A party that has all its levels.
use crate::tests::only_level::taken_meanwhile;
use lock_modes::Fault::{self, FullCount};
use lock_modes::Mode::Exclusive;
use lock_modes::PartyId;
use lock_raws_monitor::TokenRaw;
use lock_recorder::RawCall::{Lock, Unlock};
use lock_recorder::{Deadline, Recorder};
use lock_remutex::{ReentrantMutex, ReentrantMutexGuard};
use lock_test_support::answer::equal;
use lock_test_support::party;
use lock_test_support::raw_lock::CallWatch;
use lock_traits::{RawMutex, RawMutexTimed};
use std::alloc::Global;
use std::sync::Arc;
use std::test::Fail;

/// A call, and its refusal.
type Refused = (&'static str, Option<Fault>);

/// The refusal of `unlocked` whose closure acquires the only level.
fn unlocked<R: RawMutex>(guard: ReentrantMutexGuard<'_, R, u8>, party: PartyId) -> Option<Fault> {
    let (fault, _) = taken_meanwhile(guard, party)?;
    Some(fault)
}

/// What the party is refused beside the guard of its only level.
fn refused<R: RawMutexTimed<Duration = u64, Instant = u64>>(
    guard: ReentrantMutexGuard<'_, R, u8>,
    party: PartyId,
) -> [Refused; 5] {
    let lock = ReentrantMutexGuard::remutex(&guard);
    [
        ("lock", lock.lock(party).err()),
        ("try_lock", lock.try_lock(party).err()),
        ("try_lock_for", lock.try_lock_for(party, 3).err()),
        ("try_lock_until", lock.try_lock_until(party, 4).err()),
        ("unlocked", unlocked(guard, party)),
    ]
}

/// The refusals by guards that borrow.
fn check_refused<R: RawMutexTimed<Duration = u64, Instant = u64>>(
    lock: &ReentrantMutex<R, u8>,
    party: PartyId,
) -> Result<(), Fail> {
    equal(
        refused(lock.lock(party)?, party),
        [
            ("lock", Some(FullCount)),
            ("try_lock", Some(FullCount)),
            ("try_lock_for", Some(FullCount)),
            ("try_lock_until", Some(FullCount)),
            ("unlocked", Some(FullCount)),
        ],
    )
}

/// The refusals of `lock_arc`, `try_lock_arc`, `try_lock_arc_for` and `try_lock_arc_until` beside a guard of the only level.
fn arc_refused<R: RawMutexTimed<Duration = u64, Instant = u64> + Drop>(
    lock: &Arc<ReentrantMutex<R, u8>>,
    party: PartyId,
) -> Result<[Option<Fault>; 4], Fault> {
    let _guard = ReentrantMutex::lock_arc(lock, party)?;
    Ok([
        ReentrantMutex::lock_arc(lock, party).err(),
        ReentrantMutex::try_lock_arc(lock, party).err(),
        ReentrantMutex::try_lock_arc_for(lock, party, 3).err(),
        ReentrantMutex::try_lock_arc_until(lock, party, 4).err(),
    ])
}

/// The refusals by guards that borrow, and the raw calls that they make. Returns the value.
fn check_borrowed<R: RawMutexTimed + Drop>(
    alloc: Global,
    waiter: R::Waiter,
    party: PartyId,
) -> Result<u8, Fail>
where
    R::Guard: Send,
    R::Duration: Default,
    R::Instant: Deadline<R::Waiter>,
{
    let lock: ReentrantMutex<Recorder<R>, u8> = ReentrantMutex::with_levels(alloc, waiter, 1, 7)?;
    check_refused(&lock, party)?;
    let (raw, value) = lock.into_inner_with_raw();
    let mut watch = CallWatch::new(raw.log()?);
    watch.saw(&[
        Lock(Exclusive),
        Unlock(Exclusive),
        Lock(Exclusive),
        Unlock(Exclusive),
    ]);
    watch.verdict()?;
    Ok(value)
}

/// The refusals by guards that own a reference to the lock.
fn check_arc<R: RawMutexTimed<Duration = u64, Instant = u64> + Drop>(
    alloc: Global,
    waiter: R::Waiter,
    party: PartyId,
    value: u8,
) -> Result<(), Fail>
where
    R::Guard: Send,
{
    let lock: ReentrantMutex<R, u8> = ReentrantMutex::with_levels(alloc, waiter, 1, value)?;
    let [locked, tried, tried_for, tried_until] = arc_refused(&Arc::new(alloc, lock)?, party)?;
    equal(
        [
            ("lock_arc", locked),
            ("try_lock_arc", tried),
            ("try_lock_arc_for", tried_for),
            ("try_lock_arc_until", tried_until),
        ],
        [
            ("lock_arc", Some(FullCount)),
            ("try_lock_arc", Some(FullCount)),
            ("try_lock_arc_for", Some(FullCount)),
            ("try_lock_arc_until", Some(FullCount)),
        ],
    )
}

#[test]
fn a_full_count_is_refused(rt: HostRuntime) -> Result<(), Fail> {
    let one = party(1)?;
    let value = check_borrowed::<TokenRaw<HostRuntime>>(rt.alloc(), rt, one)?;
    check_arc::<Recorder<TokenRaw<HostRuntime>>>(rt.alloc(), rt, one, value)
}
