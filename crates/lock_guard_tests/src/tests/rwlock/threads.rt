//! Threads that count behind a lock, readers at the same time, and readers against a writer.
mod pairs;

use lock_raws::WordRaw;
use lock_rwlock::RwLock;
use lock_test_support::raw_lock::AdmitsAll;
use lock_test_support::{Count, add_in_four_threads};
use lock_traits::RawRwLock;
use std::sync::atomic::{AtomicBool, Ordering};
use std::test::Fail;
use std::thread;

/// A lock that threads count behind.
#[derive(Drop)]
struct CountedRwLock<'a, R>(&'a RwLock<R, u64>);

impl<R: RawRwLock> Count for CountedRwLock<'_, R> {
    type Waiter = R::Waiter;

    fn add_one(&self) {
        self.0.with_write(|count| *count = count.wrapping_add(1));
    }
}

/// Raises a flag, and looks for the other thread's.
fn sees_the_other(mine: &AtomicBool, other: &AtomicBool) -> bool {
    mine.store(true, Ordering::SeqCst);
    for _ in 0..100_000_000_u32 {
        if other.load(Ordering::SeqCst) {
            return true;
        }
    }
    false
}

/// One thread alone never sees the other's flag.
fn sees_while_it_reads<R: RawRwLock>(
    lock: &RwLock<R, u64>,
    mine: &AtomicBool,
    other: &AtomicBool,
) -> bool {
    lock.with_read(|_| sees_the_other(mine, other))
}

/// Over a raw lock that admits everyone, so that only the value's lock excludes the threads.
#[test]
fn four_threads_count_and_two_read_at_once(rt: HostRuntime) -> Result<(), Fail> {
    let lock: RwLock<AdmitsAll<HostRuntime>, u64> = RwLock::new(rt.alloc(), rt, 0)?;
    add_in_four_threads(&rt, &CountedRwLock(&lock));
    let first = AtomicBool::new(false);
    let second = AtomicBool::new(false);
    let seen = thread::join(
        &rt,
        || sees_while_it_reads(&lock, &first, &second),
        || sees_while_it_reads(&lock, &second, &first),
    );
    assert_eq!(rt; (seen, lock.into_inner()), ((true, true), 4_000));
    Ok(())
}

#[test]
fn four_threads_count_behind_a_word(rt: HostRuntime) -> Result<(), Fail> {
    for readers in [1, 4, 4_294_967_295] {
        let lock: RwLock<WordRaw<HostRuntime>, u64> = RwLock::with_readers(
            rt.alloc(),
            rt,
            readers,
            0,
        )?;
        for _ in 0..10 {
            add_in_four_threads(&rt, &CountedRwLock(&lock));
        }
        assert_eq!(rt; lock.into_inner(), 40_000);
    }
    Ok(())
}
