//! What the steps mean. Each law is the contract of a function with an empty body.
ghost use Rattle.lock_events.specs.Runs.{EveryWaitIsReached};
ghost use Rattle.lock_events.specs.Mutexes.{WaitsHandOverTheMutex};

/// Takes a new condition variable and any acts of any number of calls, in any order, one atomic step at a time.
///
/// A wait registers before it releases its mutex, or it does not sleep. A notification that begins later has yet to end the
/// epoch of the wait, or the epoch has ended before the notification wakes or ends. So while the wait sleeps in the present
/// epoch, no such notification has ended. A notification of one makes no wake-up only if each counted wait is claimed, and
/// claims one more wait at most. A wait that ends takes a claim away.
pub fn every_wait_is_reached()
    ensures { EveryWaitIsReached }
{}

/// Whatever the actions of a wait are answered, it sleeps without its mutex and ends with it. It releases the mutex only while
/// it holds it, and acquires it only while it does not.
pub fn waits_hand_over_the_mutex()
    ensures { WaitsHandOverTheMutex }
{}
