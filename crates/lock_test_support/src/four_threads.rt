//! Four threads that count behind one lock.
use std::sync::Wait;
use std::thread::{self, Threads};

/// A count behind a lock.
pub trait Count {
    /// The permission to block.
    type Waiter: Wait;

    /// Adds 1 to the count, by a separate read and write.
    fn add_one(&self);
}

/// Adds 4,000 to the count.
pub fn add_in_four_threads<R: Threads + Sync, C: Count + Sync>(rt: &R, count: &C) {
    thread::join(
        rt,
        || add_in_two_threads(rt, count),
        || add_in_two_threads(rt, count),
    );
}

fn add_in_two_threads<R: Threads, C: Count + Sync>(rt: &R, count: &C) {
    thread::join(rt, || add_a_thousand(count), || add_a_thousand(count));
}

fn add_a_thousand<C: Count>(count: &C) {
    for _ in 0..1_000 {
        count.add_one();
    }
}
