//! How a script is run on a lock.

/// How a script's calls are made on a lock.
#[derive(Clone, Copy, PartialEq, Eq, Debug)]
pub struct Manner {
    pub park_by: ParkBy,
    /// Guards own an `Arc` of the lock. Otherwise they borrow it.
    pub is_arc: bool,
}

/// How a script's `park` and `resume` are made on a lock.
#[derive(Clone, Copy, PartialEq, Eq, Debug)]
pub enum ParkBy {
    /// `park` releases the guard, and `resume` acquires in the same mode.
    Release,
    /// `unlocked` of the guard, whose closure makes the lines until the guard is resumed. A guard that is parked within
    /// that closure, or is never resumed, is released.
    Unlocked,
}
