//! What a look for an order of a plan's locks finds. Parties, places and locks are counted from 0.

/// What a look for an order of the locks found.
#[derive(Drop)]
pub enum LockOrder {
    /// The locks, in an order that each program keeps.
    Kept(Vec<usize>),
    /// No order of the locks, but ranks of the waits: no circle of waits can hold up its parties.
    NoCircle,
    /// Why neither was found.
    Broken(Vec<Obstacle>),
}

/// Why programs keep no order of the locks, or why the order says nothing of them.
#[derive(Clone, Copy, PartialEq, Eq, Debug)]
pub enum Obstacle {
    /// A wait of a circle of waits.
    Waits(HeldWait),
    /// There are too many waits to compare each two, so only an order of the locks is looked for.
    TooManyWaits,
    /// The act at this place of this party is an upgrade, an announcement, a signal or a timed sleep.
    Uncovered(usize, usize),
    /// The party ends while it holds this lock.
    Ends(usize, usize),
    /// No machine of guards is such a lock.
    Unfit(usize),
}

/// A party blocks at a place for the lock of its call while it holds another one.
#[derive(Clone, Copy, PartialEq, Eq, Debug)]
pub struct HeldWait {
    pub party: usize,
    pub place: usize,
    pub held: usize,
    pub wanted: usize,
}
