//! What the driver of a condition variable does next.

/// One atomic step on the word, a sleep, a wake-up, a step on the mutex, or the end of the call. The driver answers each with
/// a number.
#[derive(Clone, Copy, PartialEq, Eq, Debug)]
pub enum EventAction {
    /// Loads the word. The answer is its value.
    Load,
    /// Replaces the first number by the second one, if the word is the first. The answer is the value before.
    Exchange(u64, u64),
    /// Subtracts the number. The answer is the value before.
    Subtract(u64),
    /// Sets the bits of the number. The answer is the value before.
    Or(u64),
    /// Sleeps while the epoch, the low half of the word, is this number. A sleep may end early. The answer is 1 if the deadline
    /// of the call has passed, and 0 otherwise.
    Park(u64),
    /// Wakes one thread that sleeps on the epoch.
    WakeOne,
    /// Wakes all threads that sleep on the epoch.
    WakeAll,
    /// Yields to another thread. The answer is that of a sleep.
    Yield,
    /// Releases the mutex of a wait.
    Unlock,
    /// Acquires the mutex of a wait.
    Lock,
    /// Ends the call with this answer.
    End(bool),
}
