//! Locks over any raw lock, with the names and calls of the Rust crate `lock_api`.
//!
//! Here are the locks, their guards, the traits of raw locks, and the projections that mapped guards take. `WordMutex`,
//! `FairRwLock` and their kin fix the raw lock. [`raw`] has the raw locks, [`guard`] the types under the guards, [`ranked`]
//! and [`ruled`] further locks, [`model`] the machines that contracts cite, and [`laws`] the theorems.
#![tactic(auto)]

pub mod guard;
pub mod laws;
pub mod model;
mod named;
pub mod ranked;
pub mod raw;
pub mod ruled;

pub use lock_modes::{Fault, PartyId};
pub use lock_mutex::{
    ArcMutexGuard, Condvar, MappedMutexGuard, Mutex, MutexGuard, WaitTimeoutResult,
};
pub use lock_parts::{At, Field, Missed, Project, Then, TryProject, TryView, View};
pub use lock_remutex::{
    ArcReentrantMutexGuard, MappedReentrantMutexGuard, RawReentrantMutex, ReentrantMutex,
    ReentrantMutexGuard,
};
pub use lock_rwlock::{
    ArcRwLockReadGuard, ArcRwLockUpgradableReadGuard, ArcRwLockWriteGuard, MappedRwLockReadGuard,
    MappedRwLockWriteGuard, RwLock, RwLockReadGuard, RwLockUpgradableReadGuard, RwLockWriteGuard,
};
pub use lock_traits::{
    GuardNoSend, GuardSend, RawCondvar, RawCondvarTimed, RawMutex, RawMutexFair, RawMutexTimed,
    RawRwLock, RawRwLockDowngrade, RawRwLockFair, RawRwLockTimed, RawRwLockUpgrade,
    RawRwLockUpgradeDowngrade, RawRwLockUpgradeFair, RawRwLockUpgradeTimed,
};
pub use named::{
    FairCondvar, FairMutex, FairReentrantMutex, FairRwLock, RecordingCondvar, RecordingMutex,
    RecordingReentrantMutex, RecordingRwLock, TimedFairCondvar, TimedFairMutex,
    TimedFairReentrantMutex, TimedFairRwLock, TimedWordCondvar, TimedWordMutex,
    TimedWordReentrantMutex, TimedWordRwLock, TokenCondvar, TokenMutex, TokenReentrantMutex,
    TokenRwLock, WordCondvar, WordMutex, WordReentrantMutex, WordRwLock,
};
