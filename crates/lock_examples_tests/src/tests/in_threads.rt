//! What two threads count on what they share.
use lock_api::{Mutex, RawMutex};
use std::sync::Wait;
use std::thread::{self, Threads};

/// What each of several threads does with what they share.
pub trait Counts {
    /// Where a thread waits.
    type Waiter: Wait;

    /// How often it was done.
    fn count(&self) -> u64;
}

/// What each of two threads counts.
pub fn twice<T: Threads, S: Counts + Sync>(rt: &T, shared: &S) -> (u64, u64) {
    thread::join(rt, || shared.count(), || shared.count())
}

impl<R: RawMutex> Counts for Mutex<R, u64> {
    type Waiter = R::Waiter;

    fn count(&self) -> u64 {
        for _ in 0..1_000 {
            let mut count = self.lock();
            *count = count.wrapping_add(1);
        }
        1_000
    }
}
