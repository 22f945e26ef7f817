//! Threads that sleep until a notification, under a rule by which no notification is lost to a registered wait.
mod event_count;
mod lock_waits;
mod notify;
mod plays;
mod registration;
mod rule;
mod wait;

pub use event_count::{EventCount, Notified, Registered, Slept};
pub use lock_waits::{HeldLock, LockWaits};
pub use rule::CountRule;
