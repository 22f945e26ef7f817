//! What the driver does next.

use lock_word::Down;

/// What a wake-up sees of a sleeper.
#[derive(Clone, Copy, PartialEq, Eq, Debug)]
pub enum Sleeper {
    /// It may pass a bar: it has set it, or upgrades.
    Next,
    /// It is a reader, which may take a turn.
    Reader,
    /// Any other sleeper.
    Other,
}

/// One atomic step on the word, a pause, a sleep, a wake-up, or the end of the call. The driver answers each with a number.
#[derive(Clone, Copy, PartialEq, Eq, Debug)]
pub enum Action {
    /// Loads the word. The answer is its value.
    Load,
    /// Replaces the first number by the second one, if the word is the first. The answer is the value before.
    Exchange(u64, u64),
    /// Subtracts from the word what this release takes. The answer is the value before.
    Subtract(Down),
    /// Sleeps while the word is this number, as a sleeper of this class. The flag says that the sleep is brief. A sleep may
    /// end early. The answer is 1 if the deadline of the call has passed, 2 if the time of a brief sleep is over, and 0
    /// otherwise.
    Sleep(u64, Sleeper, bool),
    /// Wakes one thread that sleeps on the word.
    WakeOne,
    /// Wakes all threads that sleep on the word.
    WakeAll,
    /// Wakes the threads that sleep on the word and may pass a bar.
    WakeNext,
    /// Wakes the readers that sleep on the word, and the threads that may pass a bar.
    WakeTurn,
    /// Spins two to the power of this number of times.
    Spin(u32),
    /// Yields to another thread. The answer is that of a sleep.
    Yield,
    /// Ends the call with this answer.
    End(bool),
}
