//! A mutex whose value is known across threads: what a plain `Mutex` cannot promise, since its callers know only the type of
//! its value. It is made with a rule, a fact about the value and the views of all users. The rule holds whenever the mutex is
//! free, and each release proves that it is kept. So counters, queues and pools have exact results in their contracts.
//!
//! `Semaphore` counts its free permits in such a mutex, and its callers keep a `Holder` each. `SharedSemaphore` counts them
//! in one atomic word, and each acquisition returns a token.
#![tactic(auto)]

mod conditions;
mod constant;
mod grows;
mod guard;
mod holder;
mod in_order;
mod laws;
mod lease;
mod ledger;
mod lock;
mod mutex;
mod permits;
mod plays;
mod ready;
mod released;
mod rule;
mod semaphore;
mod shared_semaphore;
mod tally;
mod timed;
mod user;
mod wait;

pub use atomic_table::{Join, Split};
pub use constant::{Constant, SameView};
pub use grows::{Bound, Grows};
pub use guard::RuledGuard;
pub use holder::Holder;
pub use in_order::{InOrder, Items, Log, Looks, Pops, Pushes, Roles};
pub use laws::{
    every_state_accounts_for_permits, every_state_forgets_no_user, every_state_is_ruled,
};
pub use lease::Lease;
pub use ledger::{Ledger, Measure, Settles, Share, Shares};
pub use mutex::RuledMutex;
pub use permits::Permits;
pub use ready::ReadyRule;
pub use rule::{MutexRule, SlotRule, UserStage, UserView, ViewUpdate};
pub use semaphore::Semaphore;
pub use shared_semaphore::{
    ArcPermitGuard, PermitGuard, PermitRule, PermitToken, PermitView, SharedSemaphore,
};
pub use tally::{AddsOne, Sums, Tally};
pub use user::User;
