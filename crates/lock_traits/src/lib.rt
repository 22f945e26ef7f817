//! The traits of raw locks, and how raw locks and the locks over them lock a std mutex.
#![tactic(auto)]

mod guard_marker;
mod raw_condvar;
mod raw_mutex;
mod raw_rwlock;
mod std_lock;

pub use guard_marker::{GuardNoSend, GuardSend};
pub use raw_condvar::{RawCondvar, RawCondvarTimed};
pub use raw_mutex::{RawMutex, RawMutexFair, RawMutexTimed};
pub use raw_rwlock::{
    RawRwLock, RawRwLockDowngrade, RawRwLockFair, RawRwLockTimed, RawRwLockUpgrade,
    RawRwLockUpgradeDowngrade, RawRwLockUpgradeFair, RawRwLockUpgradeTimed,
};
pub use std_lock::lock_std;
