//! The replies of the machine.
use lock_modes::Fault;

/// The reply to a call. `A` is the type of the operations' answers.
#[derive(Clone, Copy, PartialEq, Eq, Debug)]
pub enum Reply<A> {
    /// The number of a new guard.
    Guard(u64),
    /// A try that was not admitted.
    NoGuard,
    Done,
    Answer(A),
    Bool(bool),
    Count(u64),
    /// The call was refused, and changed nothing.
    Refused(Fault),
}
