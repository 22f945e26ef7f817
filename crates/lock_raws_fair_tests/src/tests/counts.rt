//! Threads that count under a raw lock.
use super::parts::{Parts, play_in_threads};
use lock_modes::{DEFAULT_READERS, Fault};
use lock_test_support::{Count, add_in_four_threads};
use lock_traits::{RawMutex, RawRwLock};
use std::alloc::Global;
use std::sync::atomic::{AtomicU64, Ordering};
use std::test::Fail;
use std::thread::Threads;

/// A count that changes only under the raw lock.
#[derive(Drop)]
struct RawCount<R> {
    raw: R,
    count: AtomicU64,
}

impl<R> RawCount<R> {
    fn new(raw: R) -> RawCount<R> {
        RawCount {
            raw,
            count: AtomicU64::new(0),
        }
    }

    fn get(&self) -> u64 {
        self.count.load(Ordering::SeqCst)
    }

    /// Adds 1, by a separate read and write.
    fn add(&self) {
        self.count
            .store(self.get().wrapping_add(1), Ordering::SeqCst);
    }
}

impl<R: RawMutex> Count for RawCount<R> {
    type Waiter = R::Waiter;

    fn add_one(&self) {
        let token = self.raw.lock();
        self.add();
        self.raw.unlock(token);
    }
}

/// Returns how far four threads count, five times.
pub fn count_in_four_threads<T: Threads + Sync, R: RawMutex + Drop + Sync>(
    rt: &T,
    alloc: Global,
    waiter: R::Waiter,
) -> Result<u64, Fault>
where
    R::Waiter: Send,
{
    let count: RawCount<R> = RawCount::new(RawMutex::new(alloc, waiter)?);
    for _ in 0..5 {
        add_in_four_threads(rt, &count);
    }
    Ok(count.get())
}

/// The first thread writes a hundred times. Each other reads until then.
impl<R: RawRwLock> Parts for RawCount<R> {
    type Waiter = R::Waiter;

    fn play(&self, thread: usize) {
        if thread == 0 {
            write_a_hundred(self);
        } else {
            read_until_a_hundred(self);
        }
    }
}

/// Adds 100, one write at a time.
fn write_a_hundred<R: RawRwLock>(count: &RawCount<R>) {
    for _ in 0..100u32 {
        let token = count.raw.lock_exclusive();
        count.add();
        count.raw.unlock_exclusive(token);
    }
}

/// Reads again and again until the count is 100.
fn read_until_a_hundred<R: RawRwLock>(count: &RawCount<R>) {
    for _ in count.raw.waiter().forever() {
        if count.get() == 100 {
            return;
        }
        count.raw.unlock_shared(count.raw.lock_shared());
    }
}

/// Returns how far a writer counts next to three readers, which read until it ends.
pub fn count_beside_readers<T: Threads + Sync, R: RawRwLock + Drop + Sync>(
    rt: &T,
    alloc: Global,
    waiter: R::Waiter,
) -> Result<u64, Fail>
where
    R::Waiter: Send,
{
    let count: RawCount<R> = RawCount::new(RawRwLock::new(alloc, waiter, DEFAULT_READERS)?);
    play_in_threads(rt, alloc, 4, &count)?;
    Ok(count.get())
}
