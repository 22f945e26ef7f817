//! Where threads wait for one another, and what they tell one another.
use std::sync::atomic::{AtomicU64, Ordering};
use std::sync::{Barrier, Wait};
use std::{hint, thread};

/// Counts of what threads have done.
#[derive(Drop)]
pub struct Meeting {
    threads: u64,
    barrier: Barrier,
    departures: AtomicU64,
    arrivals: AtomicU64,
    reads: AtomicU64,
    writes: AtomicU64,
}

impl Meeting {
    /// A meeting of so many threads.
    pub fn of(threads: u32) -> Meeting {
        Meeting {
            threads: threads as u64,
            barrier: Barrier::new(threads as usize),
            departures: AtomicU64::new(0),
            arrivals: AtomicU64::new(0),
            reads: AtomicU64::new(0),
            writes: AtomicU64::new(0),
        }
    }

    /// Blocks until all threads have come as often as this one. They leave at once, if the machine runs them all.
    pub fn meet<W: Wait>(&self, waiter: &W) {
        self.barrier.wait(waiter);
        let before = self.departures.fetch_add(1, Ordering::SeqCst);
        let round = before.checked_div(self.threads).unwrap_or(0);
        let all = round.wrapping_add(1).wrapping_mul(self.threads);
        for _ in 0..2_000u32 {
            if self.departures.load(Ordering::SeqCst) >= all {
                return;
            }
            hint::spin_loop();
        }
    }

    /// Looks for all other threads. Returns whether they came within some turns.
    pub fn sees_all(&self) -> bool {
        self.arrivals.fetch_add(1, Ordering::SeqCst);
        for _ in 0..10_000_000u32 {
            if self.arrivals.load(Ordering::SeqCst) >= self.threads {
                return true;
            }
            thread::yield_now();
        }
        false
    }

    pub fn write(&self) {
        self.writes.fetch_add(1, Ordering::SeqCst);
    }

    pub fn is_written(&self) -> bool {
        self.writes() != 0
    }

    pub fn writes(&self) -> u64 {
        self.writes.load(Ordering::SeqCst)
    }

    pub fn await_write<W: Wait>(&self, waiter: &W) {
        wait_for(waiter, &self.writes, 1);
    }

    /// Reads until another thread does, so that the lock is never free as long as later readers are admitted; or for
    /// some turns.
    pub fn let_another_read(&self) {
        let before = self.reads.fetch_add(1, Ordering::SeqCst).wrapping_add(1);
        for _ in 0..200u32 {
            if self.reads.load(Ordering::SeqCst) != before {
                return;
            }
            thread::yield_now();
        }
    }
}

/// Waits until the count is that large.
fn wait_for<W: Wait>(waiter: &W, count: &AtomicU64, least: u64) {
    for _ in waiter.forever() {
        if count.load(Ordering::SeqCst) >= least {
            return;
        }
        thread::yield_now();
    }
    unreachable!()
}
