//! The raw calls of guards of parts, and of calls that make none.
use crate::tests::Table;
use lock_modes::Mode::Exclusive;
use lock_modes::{Fault, PartyId};
use lock_raws::{LockCore, RawLock};
use lock_recorder::Recorder;
use lock_remutex::{
    ArcReentrantMutexGuard, MappedReentrantMutexGuard, ReentrantMutex, ReentrantMutexGuard,
};
use lock_test_support::answer::equal;
use lock_test_support::party;
use lock_test_support::project::{Item0, Item1, NthItem};
use lock_test_support::raw_lock::{CallWatch, MAPS, MapCall, watch_fair_end};
use lock_traits::{RawMutex, RawMutexFair};
use std::alloc::Global;
use std::sync::Arc;
use std::test::Fail;

type Pair = (u64, u64);

/// Maps a guard that was just acquired.
fn watch_map<R: RawMutexFair>(
    guard: ReentrantMutexGuard<'_, R, Pair>,
    call: MapCall,
    watch: &mut CallWatch,
) {
    match call {
        MapCall::Map => watch.saw_hold(ReentrantMutexGuard::map(guard, Item0), Exclusive),
        MapCall::MapEnd => {
            watch_fair_end(ReentrantMutexGuard::map(guard, Item0), Exclusive, watch);
        }
        MapCall::TryMap(index) => {
            watch.saw_hold(
                ReentrantMutexGuard::try_map(guard, NthItem(index)),
                Exclusive,
            );
        }
        MapCall::TryMapOrErr(index) => {
            watch.saw_hold(
                ReentrantMutexGuard::try_map_or_err(guard, NthItem(index)),
                Exclusive,
            );
        }
    }
}

/// Misses a third and a sixth item, and then reads the second. Returns the last miss and the item.
fn missed_and_read<R: RawMutexFair>(
    guard: Result<ReentrantMutexGuard<'_, R, Pair>, Fault>,
) -> Option<(usize, u64)> {
    let guard = ReentrantMutexGuard::try_map(guard.ok()?, NthItem(2)).err()?;
    let (guard, missed) = ReentrantMutexGuard::try_map_or_err(guard, NthItem(5)).err()?;
    let part = ReentrantMutexGuard::map(guard, Item1);
    let item = *part;
    MappedReentrantMutexGuard::unlock_fair(part);
    Some((missed, item))
}

/// `missed_and_read` by an inner guard, which is released before the outer one.
fn inner_maps<R: RawMutexFair>(
    outer: ReentrantMutexGuard<'_, R, Pair>,
    party: PartyId,
    watch: &mut CallWatch,
) -> Option<(usize, u64)> {
    let seen = missed_and_read(ReentrantMutexGuard::remutex(&outer).lock(party));
    watch.saw_hold(outer, Exclusive);
    seen
}

/// Maps guards of the lock.
fn check_maps<R: RawMutexFair>(
    lock: &ReentrantMutex<R, Pair>,
    watch: &mut CallWatch,
    party: PartyId,
) -> Result<(), Fail> {
    for call in MAPS {
        watch_map(lock.lock(party)?, call, watch);
    }
    equal(inner_maps(lock.lock(party)?, party, watch), Some((5, 2)))
}

/// Writes the value of a lock, and consumes it.
fn written<R: RawMutex + Drop>(lock: ReentrantMutex<R, Pair>, watch: &mut CallWatch) -> (R, Pair) {
    let mut lock = lock;
    *lock.get_mut() = (3, 4);
    let parts = lock.into_inner_with_raw();
    watch.saw(&[]);
    parts
}

/// The guard of a lock that it owns a reference to.
fn watch_arc_guard<R: RawMutex + Drop>(
    lock: &Arc<ReentrantMutex<R, Pair>>,
    watch: &mut CallWatch,
    party: PartyId,
) -> Result<(), Fault> {
    let guard = ReentrantMutex::lock_arc(lock, party)?;
    ArcReentrantMutexGuard::remutex(&guard);
    watch.saw_hold(guard, Exclusive);
    Ok(())
}

/// Guards that borrow the lock, guards that own a reference to it, and the end of the last reference.
fn check<R: RawMutexFair + Drop>(
    alloc: Global,
    raw: R,
    watch: &mut CallWatch,
    party: PartyId,
) -> Result<(), Fail>
where
    R::Guard: Send,
{
    let lock = ReentrantMutex::from_raw(alloc, raw, (1, 2))?;
    check_maps(&lock, watch, party)?;
    let (raw, value) = written(lock, watch);
    let lock = Arc::new(alloc, ReentrantMutex::from_raw(alloc, raw, value)?)?;
    watch_arc_guard(&lock, watch, party)?;
    drop(lock);
    watch.saw(&[]);
    Ok(())
}

fn check_recorded<C: LockCore>(alloc: Global, waiter: C::Waiter, party: PartyId) -> Result<(), Fail>
where
    C::Token: Send,
{
    let raw: Recorder<RawLock<C>> = RawMutex::new(alloc, waiter)?;
    let mut watch = CallWatch::new(raw.log()?);
    check(alloc, raw, &mut watch, party)?;
    watch.verdict()
}

#[test]
fn maps_make_no_raw_calls(rt: HostRuntime) -> Result<(), Fail> {
    check_recorded::<Table>(rt.alloc(), rt, party(1)?)
}
