//! Locks with ranks: code that acquires them in the wrong order does not compile.

pub use lock_ranked::{
    Acquired, AtRank, Order, Rank, Ranked, RankedCondvar, RankedGuard, RankedLock, RankedMapped,
    RankedMappedMutexGuard, RankedMappedRwLockReadGuard, RankedMappedRwLockWriteGuard, RankedMutex,
    RankedMutexGuard, RankedMutexRow, RankedReentrantMutex, RankedReentrantMutexGuard,
    RankedRwLock, RankedRwLockGuard, RankedRwLockReadGuard, RankedRwLockUpgradableReadGuard,
    RankedRwLockWriteGuard, RankedThread, ThreadOrder, Under, join_ranked, spawn_ranked,
};
