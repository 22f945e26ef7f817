//! How a reentrant lock and its guards print, by `Debug` and by `Display`.
use lock_modes::{Fault, PartyId};
use lock_remutex::{ReentrantMutex, ReentrantMutexGuard};
use lock_test_support::answer::{debug_is, equal, texts_are};
use lock_test_support::party;
use lock_test_support::project::Item0;
use lock_test_support::raw_lock::AdmitsAll;
use lock_traits::RawMutex;
use std::alloc::Global;
use std::test::Fail;

type Pair = (u64, u64);

/// Whether a lock of 5 prints so while it is free and while it is held, and whether its guard does.
fn lock_prints<R: RawMutex>(
    alloc: Global,
    lock: &ReentrantMutex<R, u64>,
    party: PartyId,
) -> Result<[bool; 3], Fault> {
    let free = debug_is(alloc, lock, "ReentrantMutex { data: 5 }");
    let guard = lock.lock(party)?;
    let held = debug_is(alloc, lock, "ReentrantMutex { data: <locked> }");
    Ok([free, held, texts_are(alloc, guard, "5")])
}

/// Whether the guard of a part, which is 5, prints so.
fn part_prints<R: RawMutex>(
    alloc: Global,
    pair: &ReentrantMutex<R, Pair>,
    party: PartyId,
) -> Result<bool, Fault> {
    let part = ReentrantMutexGuard::map(pair.lock(party)?, Item0);
    Ok(texts_are(alloc, part, "5"))
}

fn check_lock<R: RawMutex + Drop>(
    alloc: Global,
    waiter: R::Waiter,
    party: PartyId,
) -> Result<(), Fail>
where
    R::Guard: Send,
{
    let lock: ReentrantMutex<R, u64> = ReentrantMutex::new(alloc, waiter, 5)?;
    let [free, held, guard] = lock_prints(alloc, &lock, party)?;
    equal(
        [
            ("free ReentrantMutex", free),
            ("held ReentrantMutex", held),
            ("ReentrantMutexGuard", guard),
        ],
        [
            ("free ReentrantMutex", true),
            ("held ReentrantMutex", true),
            ("ReentrantMutexGuard", true),
        ],
    )
}

fn check_part<R: RawMutex + Drop>(
    alloc: Global,
    waiter: R::Waiter,
    party: PartyId,
) -> Result<(), Fail>
where
    R::Guard: Send,
{
    let pair: ReentrantMutex<R, Pair> = ReentrantMutex::new(alloc, waiter, (5, 2))?;
    let is_shown = part_prints(alloc, &pair, party)?;
    equal(
        ("MappedReentrantMutexGuard", is_shown),
        ("MappedReentrantMutexGuard", true),
    )
}

/// Over a raw lock that always says that it is free.
#[test]
fn reentrant_mutexes_and_guards_print_their_value(rt: HostRuntime) -> Result<(), Fail> {
    let one = party(1)?;
    check_lock::<AdmitsAll<HostRuntime>>(rt.alloc(), rt, one)?;
    check_part::<AdmitsAll<HostRuntime>>(rt.alloc(), rt, one)
}
