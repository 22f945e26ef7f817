//! Locks with ranks: code that acquires them in the wrong order does not compile.
//!
//! A lock has a [`Rank`] in its type, and a thread has one [`Order`]. `lock` requires that the lock's rank is above all
//! ranks that the order holds. A plan whose parties acquire so, and end with nothing held, never stops, for any number
//! of parties: `ordered_plans_never_stop` in `lock_plan_laws`. Each contract here is that law's premise for one call.
//! That the calls of a thread are a run of such a plan is read, and not proved. [`laws`] has the same at one moment of
//! running threads.
//!
//! Four things are left to the reader: that each thread calls [`ThreadOrder::start`] at most once, that no guard is
//! forgotten (`mem::forget`, a cycle of `Rc`), that each holder releases in the end, and what plain locks, channels and IO
//! do next to the ranked locks.
//!
//! An order and a rank have no bytes, and no call here does more than the plain lock's. No contract says that a `try_*`
//! succeeds, since the plain lock's says it of no raw lock.
#![tactic(auto)]

mod condvar;
pub mod laws;
mod mutex;
mod order;
mod rank;
mod ranked;
mod reentrant_mutex;
mod row;
mod rwlock;
mod rwlock_guard;
mod threads;

pub use condvar::RankedCondvar;
pub use mutex::{RankedGuard, RankedMappedMutexGuard, RankedMutex, RankedMutexGuard};
pub use order::{Acquired, Order, ThreadOrder};
pub use rank::{AtRank, Rank, Under};
pub use ranked::{PlainGuardMut, Ranked, RankedLock, RankedMapped};
pub use reentrant_mutex::{RankedReentrantMutex, RankedReentrantMutexGuard};
pub use row::RankedMutexRow;
pub use rwlock::RankedRwLock;
pub use rwlock_guard::{
    RankedMappedRwLockReadGuard, RankedMappedRwLockWriteGuard, RankedRwLockGuard,
    RankedRwLockReadGuard, RankedRwLockUpgradableReadGuard, RankedRwLockWriteGuard,
};
pub use threads::{RankedThread, join_ranked, spawn_ranked};
