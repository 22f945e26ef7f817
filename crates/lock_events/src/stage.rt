//! How far a call on a condition variable has come.

/// The step whose answer a wait or a notification awaits.
#[derive(Clone, Copy, PartialEq, Eq, Debug)]
pub enum EventStage {
    /// A load of the word by a wait.
    Look,
    /// The exchange that counts the wait, and registers it.
    CountIn,
    /// The release of the mutex.
    Unlock,
    /// The sleep.
    Sleep,
    /// The subtraction that ends the registration.
    Leave,
    /// The release of the mutex by a wait that could not register.
    UnlockAway,
    /// A yield in place of its sleep.
    YieldAway,
    /// The acquisition of the mutex.
    Lock,
    /// No step: the wait has ended.
    Waited,
    /// A load of the word by a notification.
    FindWaits,
    /// The exchange that ends the epoch, and claims.
    EndEpoch,
    /// The step that begins the last epoch, after too many lost exchanges.
    EndAllEpochs,
    /// The wake-up of those that slept in it.
    Wake,
    /// No step: the notification made its wake-up, and has ended.
    Notified,
    /// No step: the notification found no wait, or claimed ones alone, and has ended.
    Skipped,
}
