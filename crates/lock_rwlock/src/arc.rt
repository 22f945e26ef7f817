//! Guards that own a reference to their lock, and the acquisitions that make them.
mod acquire;
mod guard;
mod owned;

pub use guard::{
    ArcModeGuard, ArcRwLockGuard, ArcRwLockReadGuard, ArcRwLockUpgradableReadGuard,
    ArcRwLockWriteGuard,
};
pub use owned::{OwnedInMode, ReadValue};
