//! The types and traits under the guards, for code over guards of several kinds: [`crate::MutexGuard`] is a `Guard`.

pub use lock_guard::guard::Mapped;
pub use lock_mutex::{ArcGuard, BorrowedMutex, Guard, OwnedMutex};
pub use lock_rwlock::{
    ArcModeGuard, ArcRwLockGuard, Exclusive, FairMode, InMode, LockMode, Mappable, OwnedInMode,
    ReadValue, RwLockGuard, Shared, ShowMode, Upgradable,
};
