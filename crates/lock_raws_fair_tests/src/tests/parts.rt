//! Threads that each play their own part.
use std::alloc::{AllocError, Global};
use std::sync::Wait;
use std::thread::{self, Threads};

/// What each of several threads does.
pub trait Parts {
    /// The permission to block.
    type Waiter: Wait;

    /// Plays the part of this thread, counted from 0.
    fn play(&self, thread: usize);
}

/// Plays the parts of so many threads, each in a thread of its own.
pub fn play_in_threads<R: Threads + Sync, P: Parts + Sync>(
    rt: &R,
    alloc: Global,
    threads: usize,
    parts: &P,
) -> Result<(), AllocError> {
    thread::map_indices(rt, alloc, threads, &|thread| parts.play(thread))?;
    Ok(())
}
