//! Raw condition variables over any raw mutex: `SleepingCondvar`, whose waits sleep, and `SpuriousCondvar`, whose waits end at once.
#![tactic(auto)]

mod sleeping_condvar;
mod spurious_condvar;

pub use sleeping_condvar::{SleepingCondvar, TimedCondvar};
pub use spurious_condvar::SpuriousCondvar;
