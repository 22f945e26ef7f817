//! A mutex over any raw lock, its guards, and the condition variable that waits with them.
#![tactic(auto)]

mod arc;
mod arc_guard;
mod borrowed;
mod condition_loop;
mod condvar;
mod guard;
mod mapped;
mod mutex;
mod owned;
mod sleep;
mod wait_timeout_result;
mod waiting;

pub use arc_guard::{ArcGuard, ArcMutexGuard};
pub use borrowed::BorrowedMutex;
pub use condition_loop::{LoopEnd, Script, Waits, run_loop};
pub use condvar::Condvar;
pub use guard::{Guard, MutexGuard};
pub use mapped::MappedMutexGuard;
pub use mutex::Mutex;
pub use owned::OwnedMutex;
pub use wait_timeout_result::WaitTimeoutResult;
