//! Raw locks that admit in the order of arrival.
//!
//! A `Line` has numbered tickets that wait, and its laws say that nobody is overtaken. `FairArbiter` is an arbiter with a
//! line. `FairCore` is a `LockCore`: a std `Mutex` around it, and event counts on which waiters sleep.
#![tactic(auto)]

mod acquisition;
mod fair_arbiter;
mod fair_core;
mod fair_wake;
mod laws;
mod line;
mod turn;
mod upgrade;
mod waiters;

pub use fair_arbiter::{FairArbiter, FairStep, FairToken, PendingUpgrade};
pub use fair_core::{FairCore, FairRaw, TimedFairRaw};
pub use fair_wake::FairWake;
pub use laws::{
    arrivals_wait_for_few, idle_locks_admit, nobody_is_overtaken, nobody_passes_an_upgrade,
    overtaking_is_bounded, timed_tickets_may_leave, wakes_miss_nobody,
};
pub use line::{Line, LineStep, TIMED_SPAN, Ticket};
