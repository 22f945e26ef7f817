//! How far a call has come.

/// The step whose answer a call awaits.
#[derive(Clone, Copy, PartialEq, Eq, Debug)]
pub enum Stage {
    /// A load.
    Look,
    /// The exchange that acquires.
    Try,
    /// A pause.
    Pause,
    /// The exchange that sets the bit of sleepers, and the bar or the turn of readers.
    Mark,
    /// The sleep.
    Sleep,
    /// The exchange that clears the bar of the call, or its turn, after its deadline.
    Withdraw,
    /// The exchange that sets the bit of sleepers of a mutex after the deadline of the call.
    Leave,
    /// A load, before the subtraction that releases a shared hold.
    LookToRemove,
    /// The subtraction that releases or downgrades. It leaves the bit of sleepers.
    Subtract,
    /// The exchange that releases or downgrades.
    Release,
    /// The wake-up after it.
    Wake,
    /// The wake-up after a withdrawal.
    WakeRefused,
    /// The wake-up after an acquisition that took the turn.
    WakeAcquired,
    /// No step: the call has acquired.
    Acquired,
    /// No step: the call is refused.
    Refused,
    /// No step: the call has ended.
    Ended,
}
