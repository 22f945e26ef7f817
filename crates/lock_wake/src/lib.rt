//! An event count, on which threads sleep until a notification. Its rule loses no notification to a registered wait.
//!
//! An `EventCount` makes the actions of `lock_events` on the word of a table. A call takes a new seat there. Here and in the
//! crates above, a thread that sleeps on an epoch parks by `Watched::park` and is woken by `OwedWake::make`.
#![tactic(auto)]

mod laws;
mod owed_wake;
mod pauses;
mod sleepers;
mod watched;

pub use laws::every_state_wakes_the_registered;
pub use owed_wake::{OwedWake, Whom};
pub use pauses::Pauses;
pub use sleepers::{CountRule, EventCount, HeldLock, LockWaits, Notified, Registered, Slept};
pub use watched::Watched;
