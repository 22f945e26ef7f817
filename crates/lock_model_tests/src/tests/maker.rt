//! Desks of the three kinds.
use lock_desk::Desk;
use lock_modes::{Fault, RawState};
use std::alloc::Global;

/// The kind of a desk, its places, its limit if it has one, and its first value.
#[derive(Clone, Copy)]
pub enum DeskMaker {
    Mutex(u64, u64),
    RwLock(u64, u64, u64),
    Reentrant(u64, u64, u64),
}

impl DeskMaker {
    pub fn desk<R: RawState>(self, alloc: Global) -> Result<Desk<R, u64>, Fault> {
        match self {
            DeskMaker::Mutex(places, value) => Desk::mutex(alloc, places, value),
            DeskMaker::RwLock(places, readers, value) => Desk::rwlock(
                alloc, places, readers, value,
            ),
            DeskMaker::Reentrant(places, levels, value) => {
                Desk::reentrant(alloc, places, levels, value)
            }
        }
    }
}
