//! The acts of a run of calls on one condition variable.
use crate::call::EventCall;

/// One act of a run of calls on one condition variable. Calls are numbered from 0. It exists in contracts only.
pub enum EventAct {
    /// A new call waits.
    Wait,
    /// A new call notifies all waits, or one.
    Notify(bool),
    /// The call makes the step that it asks for. A step that reads no word is answered with the second number.
    Step(u64, u64),
}

/// A call of a run. It exists in contracts only.
pub struct Begun {
    /// The call after its last step.
    pub call: EventCall,
    /// How many calls had begun when it registered, if it is a wait that has.
    pub before: u64,
}
