//! Deadlines that have passed.
use std::time::{Clock, Instant};

/// The deadlines of a raw lock, where `W` is its permission to block. A raw lock with deadlines of its own implements
/// this for their type.
pub trait Deadline<W>: Sized {
    /// Returns a deadline that has passed, or `None` if the clock cannot be read.
    fn passed(waiter: &W) -> Option<Self>;
}

impl<W> Deadline<W> for () {
    fn passed(_waiter: &W) -> Option<()> {
        Some(())
    }
}

impl<W> Deadline<W> for u64 {
    fn passed(_waiter: &W) -> Option<u64> {
        Some(0)
    }
}

impl<W: Clock> Deadline<W> for Instant {
    fn passed(waiter: &W) -> Option<Instant> {
        Instant::now(waiter).ok()
    }
}
