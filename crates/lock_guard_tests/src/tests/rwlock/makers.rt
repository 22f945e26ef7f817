//! The makers of a lock.
use lock_guard::forget;
use lock_modes::Fault;
use lock_raws_monitor::TokenRaw;
use lock_recorder::Recorder;
use lock_rwlock::RwLock;
use lock_test_support::answer::{answers_or_lacks_memory, equal};
use lock_traits::RawRwLock;
use std::alloc::Global;
use std::rt::Env;
use std::test::Fail;

/// A maker's name, its lock, how many readers that admits, and its value.
type Made<R> = (&'static str, Result<RwLock<R, u64>, Fault>, u64, u64);

/// What `new`, `from`, `default` and `with_readers` make.
type Makers<R> = (Made<R>, Made<R>, Made<R>, Made<R>);

fn made<R: RawRwLock>(alloc: Global, waiters: [R::Waiter; 4]) -> Makers<R> {
    let [first, second, third, last] = waiters;
    (
        ("new", RwLock::new(alloc, first, 5), 64, 5),
        ("from", RwLock::from(alloc, second, 6), 64, 6),
        ("default", RwLock::default(alloc, third), 64, 0),
        (
            "with_readers",
            RwLock::with_readers(alloc, last, 3, 7),
            3,
            7,
        ),
    )
}

/// How many of 66 tries get a shared token, none of which is released.
fn readers_of_66<R: RawRwLock>(raw: &R) -> u64 {
    let mut readers = 0_u64;
    for _ in 0..66_u32 {
        if let Some(token) = raw.try_lock_shared() {
            unsafe { forget(token) };
            readers = readers.wrapping_add(1);
        }
    }
    readers
}

/// A maker's name, whether it made no raw call, how many readers its lock admits, and its value.
type Seen = (&'static str, bool, u64, u64);

/// What a lock shows, and what it should.
fn seen<R: RawRwLock + Drop>(made: Made<Recorder<R>>) -> (Result<Seen, Fault>, Seen) {
    let (name, lock, readers, value) = made;
    let found = match lock {
        Ok(lock) => {
            let (raw, found) = lock.into_inner_with_raw();
            Ok((name, raw.has_no_calls(), readers_of_66(&raw), found))
        }
        Err(fault) => Err(fault),
    };
    (found, (name, true, readers, value))
}

pub fn check<R: RawRwLock + Drop>(alloc: Global, waiters: [R::Waiter; 4]) -> Result<(), Fail> {
    let (new, from, default, with_readers) = made::<Recorder<R>>(alloc, waiters);
    for (found, wanted) in [seen(new), seen(from), seen(default), seen(with_readers)] {
        equal(found, Ok(wanted))?;
    }
    Ok(())
}

type Named = (&'static str, u64);

/// A maker's name and the value of its lock, and what they should be.
fn named<R: RawRwLock + Drop>(made: Made<R>) -> (Result<Named, Fault>, Named) {
    let (name, lock, _, value) = made;
    let found = match lock {
        Ok(lock) => Ok((name, lock.into_inner())),
        Err(fault) => Err(fault),
    };
    (found, (name, value))
}

/// Checks that each maker gave a lock of its value, or that it lacked memory.
fn check_all_or_lack<R: RawRwLock + Drop, E: Env>(
    rt: &E,
    alloc: Global,
    waiters: [R::Waiter; 4],
) -> Result<(), Fail> {
    let (new, from, default, with_readers) = made::<R>(alloc, waiters);
    for (found, wanted) in [named(new), named(from), named(default), named(with_readers)] {
        answers_or_lacks_memory(rt, found, wanted)?;
    }
    Ok(())
}

#[test]
fn refused_memory_rwlock_makers(rt: HostRuntime) -> Result<(), Fail> {
    check_all_or_lack::<TokenRaw<HostRuntime>, HostRuntime>(&rt, rt.alloc(), [rt; 4])
}
