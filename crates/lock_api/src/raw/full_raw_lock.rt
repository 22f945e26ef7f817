//! One bound for generic code over any raw lock.
use lock_traits::{
    RawMutex, RawMutexFair, RawMutexTimed, RawRwLock, RawRwLockTimed, RawRwLockUpgradeDowngrade,
    RawRwLockUpgradeFair, RawRwLockUpgradeTimed,
};

/// The type of a raw lock's waiter.
pub type WaiterOf<R> = <R as RawMutex>::Waiter;

/// A raw lock with every raw trait but the timed ones, and with one waiter for its mutex and its reader-writer lock. Each
/// `RawLock` is one. It is implemented for every type that has these traits.
///
/// Bound generic code by it that makes more than one kind of lock over one raw lock.
pub trait FullRawLock: RawMutexFair
    + RawRwLock<Waiter = WaiterOf<Self>>
    + RawRwLockUpgradeFair
    + RawRwLockUpgradeDowngrade
    + Drop {}

impl<
    R: RawMutexFair
        + RawRwLock<Waiter = WaiterOf<R>>
        + RawRwLockUpgradeFair
        + RawRwLockUpgradeDowngrade
        + Drop,
> FullRawLock for R {}

/// A `FullRawLock` with the timed traits, and with one measure of time for its mutex and its reader-writer lock.
pub trait FullRawLockTimed: FullRawLock
    + RawMutexTimed
    + RawRwLockTimed<
        Duration = <Self as RawMutexTimed>::Duration,
        Instant = <Self as RawMutexTimed>::Instant,
    >
    + RawRwLockUpgradeTimed {}

impl<
    R: FullRawLock
        + RawMutexTimed
        + RawRwLockTimed<
            Duration = <R as RawMutexTimed>::Duration,
            Instant = <R as RawMutexTimed>::Instant,
        >
        + RawRwLockUpgradeTimed,
> FullRawLockTimed for R {}
