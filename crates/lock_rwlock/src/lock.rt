//! A reader-writer lock over any raw lock.
ghost use Rattle.std.specs.Prelude.{◌≡◌, ◌↔◌, IfSome, IfOk, IfErr, IsOkAnd, IsOkUnless};
ghost use Rattle.lock_modes.specs.Limits.{IsLimit, IsMakerFault};
ghost use Rattle.lock_guard.specs.Closure.{ReadsSomeValue, AnswersSomeValue};
ghost use Rattle.lock_rwlock.specs.RwLock.{raw_of};
ghost use Rattle.lock_rwlock.specs.RwLockGuard.{tried_token, IsGuardOf};

use crate::guard::{RwLockReadGuard, RwLockUpgradableReadGuard, RwLockWriteGuard, guard};
use lock_guard::guard::{Locked, fmt_lock};
use lock_modes::{DEFAULT_READERS, Fault};
use lock_traits::{RawRwLock, RawRwLockTimed, RawRwLockUpgrade, RawRwLockUpgradeTimed};
use std::alloc::Global;
use std::{fmt, sync};

/// A value that many threads may read, or one thread may write.
///
/// The value lies in a std lock, which is acquired after the raw lock admits and released before the raw lock. So a raw
/// lock that admits too many threads can make calls block; it can never cause a data race.
#[derive(Drop)]
pub struct RwLock<R, T> {
    pub(crate) raw: R,
    pub(crate) value: sync::RwLock<T>,
}

impl<R: RawRwLock, T> RwLock<R, T> {
    /// Makes an unlocked lock over a new raw lock with `DEFAULT_READERS`. The value is dropped if there is no memory.
    pub fn new(alloc: Global, waiter: R::Waiter, value: T) -> Result<RwLock<R, T>, Fault>
    where
        T: Drop,
        ensures { IsOkUnless result Fault.OutOfMemory }
    {
        RwLock::with_readers(alloc, waiter, DEFAULT_READERS, value)
    }

    /// `new`, under the name of std's conversion.
    pub fn from(alloc: Global, waiter: R::Waiter, value: T) -> Result<RwLock<R, T>, Fault>
    where
        T: Drop,
        ensures { IsOkUnless result Fault.OutOfMemory }
    {
        RwLock::new(alloc, waiter, value)
    }

    /// `new`, of the default value.
    pub fn default(alloc: Global, waiter: R::Waiter) -> Result<RwLock<R, T>, Fault>
    where
        T: Default + Drop,
        ensures { IsOkUnless result Fault.OutOfMemory }
    {
        RwLock::new(alloc, waiter, T::default())
    }

    /// Makes an unlocked lock that at most `readers` hold shared or upgradable at a time. The value is dropped on an
    /// error.
    pub fn with_readers(
        alloc: Global,
        waiter: R::Waiter,
        readers: u64,
        value: T,
    ) -> Result<RwLock<R, T>, Fault>
    where
        T: Drop,
        ensures limits { (result ≡ Err Fault.BadLimits) ↔ (IsLimit readers → ⊥) }
        ensures in_range { IfOk result (λ _. IsLimit readers) }
        ensures fault { IfErr result IsMakerFault }
    {
        let raw = R::new(alloc, waiter, readers)?;
        RwLock::from_raw(raw, value)
    }

    /// Makes a lock over a given raw lock. It allocates nothing, so it never fails.
    pub fn from_raw(raw: R, value: T) -> Result<RwLock<R, T>, Fault>
        ensures { IsOkAnd result (λ lock. raw_of lock ≡ raw) }
    {
        Ok(RwLock {
            raw,
            value: sync::RwLock::new(value),
        })
    }

    /// Consumes the lock, and returns the value.
    pub fn into_inner(self) -> T
    where
        R: Drop,
    {
        self.into_inner_with_raw().1
    }

    /// Consumes the lock, and returns the raw lock and the value.
    pub fn into_inner_with_raw(self) -> (R, T)
        ensures { result.0 ≡ raw_of self }
    {
        let RwLock { raw, value } = self;
        (raw, value.into_inner())
    }

    /// Returns the value. No locking is needed, since the lock is borrowed exclusively.
    pub fn get_mut(&mut self) -> &mut T {
        self.value.get_mut()
    }

    /// Returns what the raw lock says: whether it is held in any mode. The answer may be stale at once.
    pub fn is_locked(&self) -> bool {
        self.raw.is_locked()
    }

    /// Returns what the raw lock says: whether it is held exclusively. The answer may be stale at once.
    pub fn is_locked_exclusive(&self) -> bool {
        self.raw.is_locked_exclusive()
    }

    /// Acquires the lock shared, blocking until it is available.
    ///
    /// # Blocking
    ///
    /// A thread that already reads may block for ever. A raw lock may refuse readers while a writer waits, and that
    /// writer waits for this thread.
    pub fn read(&self) -> RwLockReadGuard<'_, R, T>
        ensures { IsGuardOf self.entry result }
    {
        guard!(self, self.raw.lock_shared())
    }

    /// Acquires the lock shared without blocking, or returns `None` if the raw lock refuses.
    pub fn try_read(&self) -> Option<RwLockReadGuard<'_, R, T>>
        ensures lock { IfSome result (IsGuardOf self.entry) }
        ensures tried { R.tried_shared (raw_of self.now) (tried_token result) }
    {
        Some(guard!(self, self.raw.try_lock_shared()?))
    }

    /// Acquires the lock exclusively, blocking until it is available.
    pub fn write(&self) -> RwLockWriteGuard<'_, R, T>
        ensures { IsGuardOf self.entry result }
    {
        guard!(self, self.raw.lock_exclusive())
    }

    /// Acquires the lock shared, runs `f` on the value, and releases the lock.
    ///
    /// # Blocking
    ///
    /// As `read`: blocks until the lock is available.
    pub fn with_read<U, F: FnOnce(&T) -> U>(&self, f: F) -> U
        requires { F.IsAlwaysCallable f }
        ensures { ReadsSomeValue F.FnOnce f result }
    {
        let guard = self.read();
        f(&guard)
    }

    /// Acquires the lock exclusively, runs `f` on the value, which it may change, and releases the lock.
    ///
    /// # Blocking
    ///
    /// Blocks until the lock is available. If `f` acquires the same lock, it blocks for ever.
    pub fn with_write<U, F: FnOnce(&mut T) -> U>(&self, f: F) -> U
        requires { F.IsAlwaysCallable f }
        ensures { AnswersSomeValue F.FnOnce f result }
    {
        let mut guard = self.write();
        f(&mut guard)
    }

    /// Acquires the lock exclusively without blocking, or returns `None` if the raw lock refuses.
    pub fn try_write(&self) -> Option<RwLockWriteGuard<'_, R, T>>
        ensures lock { IfSome result (IsGuardOf self.entry) }
        ensures tried { R.tried_exclusive (raw_of self.now) (tried_token result) }
    {
        Some(guard!(self, self.raw.try_lock_exclusive()?))
    }
}

impl<R: RawRwLockTimed, T> RwLock<R, T> {
    /// Tries to acquire the lock shared for at most `timeout`.
    pub fn try_read_for(&self, timeout: R::Duration) -> Option<RwLockReadGuard<'_, R, T>>
        ensures lock { IfSome result (IsGuardOf self.entry) }
        ensures tried { R.tried_shared_for (raw_of self.now) timeout (tried_token result) }
    {
        Some(guard!(self, self.raw.try_lock_shared_for(timeout)?))
    }

    /// Tries to acquire the lock shared until `deadline`.
    pub fn try_read_until(&self, deadline: R::Instant) -> Option<RwLockReadGuard<'_, R, T>>
        ensures lock { IfSome result (IsGuardOf self.entry) }
        ensures tried { R.tried_shared_until (raw_of self.now) deadline (tried_token result) }
    {
        Some(guard!(self, self.raw.try_lock_shared_until(deadline)?))
    }

    /// Tries to acquire the lock exclusively for at most `timeout`.
    pub fn try_write_for(&self, timeout: R::Duration) -> Option<RwLockWriteGuard<'_, R, T>>
        ensures lock { IfSome result (IsGuardOf self.entry) }
        ensures tried { R.tried_exclusive_for (raw_of self.now) timeout (tried_token result) }
    {
        Some(guard!(self, self.raw.try_lock_exclusive_for(timeout)?))
    }

    /// Tries to acquire the lock exclusively until `deadline`.
    pub fn try_write_until(&self, deadline: R::Instant) -> Option<RwLockWriteGuard<'_, R, T>>
        ensures lock { IfSome result (IsGuardOf self.entry) }
        ensures tried { R.tried_exclusive_until (raw_of self.now) deadline (tried_token result) }
    {
        Some(guard!(self, self.raw.try_lock_exclusive_until(deadline)?))
    }
}

impl<R: RawRwLockUpgrade, T> RwLock<R, T> {
    /// Acquires the lock upgradable, blocking until it is available. The guard reads, and can become the writer.
    pub fn upgradable_read(&self) -> RwLockUpgradableReadGuard<'_, R, T>
        ensures { IsGuardOf self.entry result }
    {
        guard!(self, self.raw.lock_upgradable())
    }

    /// Acquires the lock upgradable without blocking, or returns `None` if the raw lock refuses.
    pub fn try_upgradable_read(&self) -> Option<RwLockUpgradableReadGuard<'_, R, T>>
        ensures lock { IfSome result (IsGuardOf self.entry) }
        ensures tried { R.tried_upgradable (raw_of self.now) (tried_token result) }
    {
        Some(guard!(self, self.raw.try_lock_upgradable()?))
    }
}

impl<R: RawRwLockUpgradeTimed, T> RwLock<R, T> {
    /// Tries to acquire the lock upgradable for at most `timeout`.
    pub fn try_upgradable_read_for(
        &self,
        timeout: R::Duration,
    ) -> Option<RwLockUpgradableReadGuard<'_, R, T>>
        ensures lock { IfSome result (IsGuardOf self.entry) }
        ensures tried { R.tried_upgradable_for (raw_of self.now) timeout (tried_token result) }
    {
        Some(guard!(self, self.raw.try_lock_upgradable_for(timeout)?))
    }

    /// Tries to acquire the lock upgradable until `deadline`.
    pub fn try_upgradable_read_until(
        &self,
        deadline: R::Instant,
    ) -> Option<RwLockUpgradableReadGuard<'_, R, T>>
        ensures lock { IfSome result (IsGuardOf self.entry) }
        ensures tried { R.tried_upgradable_until (raw_of self.now) deadline (tried_token result) }
    {
        Some(guard!(self, self.raw.try_lock_upgradable_until(deadline)?))
    }
}

impl<R: RawRwLock, T: fmt::Debug> fmt::Debug for RwLock<R, T> {
    fn fmt<W: fmt::Write>(&self, f: &mut fmt::Formatter<W>) -> fmt::Result {
        match self.try_read() {
            Some(guard) => fmt_lock(f, "RwLock", &*guard),
            None => fmt_lock(f, "RwLock", &Locked),
        }
    }
}
