//! The law of threads with ranked locks, at one moment. It is the contract of a function with an empty body.
ghost use Rattle.lock_ranked.specs.Moments.{SomeHolderIsAwake};

/// If a thread sleeps for a lock, some holder, pending writer or reader whose turn it is is awake. The premises: each thread
/// sleeps above all that it holds, as the contracts of ranked locks require; no wake-up is owed, and no woken thread has yet to look.
///
/// It speaks of locks of one word, mutexes too, each in a state of which `every_run_is_served` speaks. A thread may be
/// several parties of a lock. An upgrade is left out, since that thread sleeps for a lock that it holds. No law says
/// that an awake thread runs, or that it releases.
pub fn some_holder_is_awake()
    ensures { SomeHolderIsAwake }
{}
