//! A guard that is parked and bumped, and then ends as the guard of a part.
use lock_guard::guard::{AcquireFair, Mapped, ValueGuard};
use lock_mutex::{Guard, Mutex};
use lock_raws::WordRaw;
use lock_raws_monitor::TokenRaw;
use lock_test_support::answer::equal;
use lock_test_support::project::Item0;
use lock_traits::{RawMutex, RawMutexFair};
use std::alloc::Global;
use std::test::Fail;

type Pair = (u64, u64);

/// Whether the mutex is held: within `unlocked`, after a bump, within `unlocked_fair`, beside the part, and after its end.
/// Then the part.
type Seen = ([bool; 5], u64);

fn parked_and_mapped<R: RawMutex, L: AcquireFair>(mutex: &Mutex<R, Pair>, guard: Guard<L>) -> Seen
where
    L::Shown: ValueGuard<Value = Pair>,
{
    let is_held = || mutex.is_locked();
    let mut guard = guard;
    let parked = Guard::unlocked(&mut guard, is_held);
    Guard::bump(&mut guard);
    let bumped = mutex.is_locked();
    let parked_fair = Guard::unlocked_fair(&mut guard, is_held);
    let part = Guard::map(guard, Item0);
    let item = *part;
    let mapped = mutex.is_locked();
    Mapped::unlock_fair(part);
    (
        [parked, bumped, parked_fair, mapped, mutex.is_locked()],
        item,
    )
}

const WANTED: Seen = ([false, true, false, true, false], 1);

fn check<R: RawMutexFair + Drop>(name: &str, alloc: Global, waiter: R::Waiter) -> Result<(), Fail> {
    let mutex: Mutex<R, Pair> = Mutex::new(alloc, waiter, (1, 2))?;
    let seen = parked_and_mapped(&mutex, mutex.lock());
    equal((name, seen), (name, WANTED))
}

#[test]
fn a_parked_guard_ends_as_a_part(rt: HostRuntime) -> Result<(), Fail> {
    check::<TokenRaw<HostRuntime>>("over a table", rt.alloc(), rt)?;
    check::<WordRaw<HostRuntime>>("over a word", rt.alloc(), rt)
}
