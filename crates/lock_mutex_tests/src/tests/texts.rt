//! How a mutex, its guards and a condition variable print, by `Debug` and by `Display`.
use lock_modes::Fault;
use lock_mutex::{Condvar, Mutex, MutexGuard};
use lock_raws::WordRaw;
use lock_raws_condvar::SpuriousCondvar;
use lock_test_support::answer::{debug_is, equal, texts_are};
use lock_test_support::project::Item0;
use lock_traits::{RawCondvar, RawMutex};
use std::alloc::Global;
use std::test::Fail;

type Pair = (u64, u64);

/// What prints, and whether it prints as it should.
type Shown = (&'static str, bool);

/// A mutex of 5, while it is free and while it is held, and its guard. Then the guard of a part, which is 5.
fn of_a_mutex<R: RawMutex>(
    alloc: Global,
    mutex: &Mutex<R, u64>,
    pair: &Mutex<R, Pair>,
) -> [Shown; 4] {
    let free = debug_is(alloc, mutex, "Mutex { data: 5 }");
    let guard = mutex.lock();
    let held = debug_is(alloc, mutex, "Mutex { data: <locked> }");
    let part = MutexGuard::map(pair.lock(), Item0);
    [
        ("free Mutex", free),
        ("held Mutex", held),
        ("MutexGuard", texts_are(alloc, guard, "5")),
        ("MappedMutexGuard", texts_are(alloc, part, "5")),
    ]
}

fn check_mutexes<R: RawMutex + Drop>(alloc: Global, waiters: [R::Waiter; 2]) -> Result<(), Fail> {
    let [first, last] = waiters;
    let mutex: Mutex<R, u64> = Mutex::new(alloc, first, 5)?;
    let pair: Mutex<R, Pair> = Mutex::new(alloc, last, (5, 2))?;
    equal(
        of_a_mutex(alloc, &mutex, &pair),
        [
            ("free Mutex", true),
            ("held Mutex", true),
            ("MutexGuard", true),
            ("MappedMutexGuard", true),
        ],
    )
}

/// Whether a condition variable prints as it should.
fn condvar_prints<C: RawCondvar + Drop>(alloc: Global) -> Result<bool, Fault> {
    let condvar: Condvar<C> = Condvar::new(alloc)?;
    Ok(debug_is(alloc, &condvar, "Condvar { .. }"))
}

#[test]
fn mutexes_and_guards_print_their_value(rt: HostRuntime) -> Result<(), Fail> {
    check_mutexes::<WordRaw<HostRuntime>>(rt.alloc(), [rt; 2])?;
    let is_shown = condvar_prints::<SpuriousCondvar<WordRaw<HostRuntime>>>(rt.alloc())?;
    equal(("Condvar", is_shown), ("Condvar", true))
}
