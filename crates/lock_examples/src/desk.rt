//! A `Desk` with a scenario of proved answers, lists of calls, and an audit of a journal.
mod account;
mod calls;
mod journal;
mod scenario;

pub use account::AccountOp;
pub use calls::{deposit_under_lock, run_new};
pub use journal::{audit, audit_lock};
pub use scenario::{Answers, two_parties_acquire};
