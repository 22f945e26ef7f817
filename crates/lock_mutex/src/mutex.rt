//! A mutex over any raw lock.
ghost use Rattle.std.specs.Prelude.{◌≡◌, IfSome, IsOkAnd, IsOkUnless};
ghost use Rattle.lock_guard.specs.Closure.{ReadsSomeValue, AnswersSomeValue};
ghost use Rattle.lock_mutex.specs.Mutex.{raw_of};
ghost use Rattle.lock_mutex.specs.MutexGuard.{tried_token, IsGuardOf};

use crate::borrowed::BorrowedMutex;
use crate::{Guard, MutexGuard};
use lock_guard::guard::{Locked, fmt_lock};
use lock_guard::held;
use lock_modes::Fault;
use lock_traits::{RawMutex, RawMutexTimed, lock_std};
use std::alloc::Global;
use std::fmt::{Debug, Formatter};
use std::{fmt, sync};

/// A value behind a raw lock.
///
/// The value lies in a std lock, which is acquired after the raw lock admits and released before the raw lock. So a raw
/// lock that admits too many threads can make calls block; it can never cause a data race.
#[derive(Drop)]
pub struct Mutex<R, T> {
    pub(crate) raw: R,
    pub(crate) value: sync::Mutex<T>,
}

impl<R: RawMutex, T> Mutex<R, T> {
    /// Makes an unlocked mutex over a new raw lock. The value is dropped if there is no memory.
    pub fn new(alloc: Global, waiter: R::Waiter, value: T) -> Result<Mutex<R, T>, Fault>
    where
        T: Drop,
        ensures { IsOkUnless result Fault.OutOfMemory }
    {
        Mutex::from_raw(R::new(alloc, waiter)?, value)
    }

    /// `new`, under the name of std's conversion.
    pub fn from(alloc: Global, waiter: R::Waiter, value: T) -> Result<Mutex<R, T>, Fault>
    where
        T: Drop,
        ensures { IsOkUnless result Fault.OutOfMemory }
    {
        Mutex::new(alloc, waiter, value)
    }

    /// `new`, of the default value.
    pub fn default(alloc: Global, waiter: R::Waiter) -> Result<Mutex<R, T>, Fault>
    where
        T: Default + Drop,
        ensures { IsOkUnless result Fault.OutOfMemory }
    {
        Mutex::new(alloc, waiter, T::default())
    }

    /// Makes a mutex over a given raw lock. It allocates nothing, so it never fails.
    pub fn from_raw(raw: R, value: T) -> Result<Mutex<R, T>, Fault>
        ensures { IsOkAnd result (λ mutex. raw_of mutex ≡ raw) }
    {
        Ok(Mutex {
            raw,
            value: sync::Mutex::new(value),
        })
    }

    /// Consumes the mutex, and returns the value.
    pub fn into_inner(self) -> T
    where
        R: Drop,
    {
        self.into_inner_with_raw().1
    }

    /// Consumes the mutex, and returns the raw lock and the value.
    pub fn into_inner_with_raw(self) -> (R, T)
        ensures { result.0 ≡ raw_of self }
    {
        let Mutex { raw, value } = self;
        (raw, value.into_inner())
    }

    /// Returns the value. No locking is needed, since the mutex is borrowed exclusively.
    pub fn get_mut(&mut self) -> &mut T {
        self.value.get_mut()
    }

    /// Acquires the mutex, blocking until it is available.
    #[inline(always)]
    pub fn lock(&self) -> MutexGuard<'_, R, T>
        ensures { IsGuardOf self.entry result }
    {
        Guard {
            held: held!(BorrowedMutex { mutex: self }, self.raw.lock()),
        }
    }

    /// Acquires the mutex without blocking, or returns `None` if the raw lock refuses.
    pub fn try_lock(&self) -> Option<MutexGuard<'_, R, T>>
        ensures lock { IfSome result (IsGuardOf self.entry) }
        ensures tried { R.tried (raw_of self.now) (tried_token result) }
    {
        Some(Guard {
            held: held!(BorrowedMutex { mutex: self }, self.raw.try_lock()?),
        })
    }

    /// Acquires the mutex, runs `f` on the value, which it may change, and releases the mutex.
    ///
    /// # Blocking
    ///
    /// Blocks until the mutex is available. If `f` acquires the same mutex, it blocks for ever.
    pub fn with<U, F: FnOnce(&mut T) -> U>(&self, f: F) -> U
        requires { F.IsAlwaysCallable f }
        ensures { AnswersSomeValue F.FnOnce f result }
    {
        let mut guard = self.lock();
        f(&mut guard)
    }

    /// Returns what the raw lock says: whether it is held. The answer may be stale at once.
    pub fn is_locked(&self) -> bool {
        self.raw.is_locked()
    }

    /// Runs `f` on the value, holding the value's lock for the length of the call.
    pub(crate) fn with_value<U, F: FnOnce(&T) -> U>(&self, f: F) -> U
        requires { F.IsAlwaysCallable f }
        ensures { ReadsSomeValue F.FnOnce f result }
    {
        let value = lock_std(&self.value, self.raw.waiter());
        f(&value)
    }

    /// Runs `f` on the value, which it may change, holding the value's lock for the length of the call.
    pub(crate) fn with_value_mut<U, F: FnOnce(&mut T) -> U>(&self, f: F) -> U
        requires { F.IsAlwaysCallable f }
        ensures { AnswersSomeValue F.FnOnce f result }
    {
        let mut value = lock_std(&self.value, self.raw.waiter());
        f(&mut value)
    }
}

impl<R: RawMutexTimed, T> Mutex<R, T> {
    /// Tries to acquire the mutex for at most `timeout`.
    pub fn try_lock_for(&self, timeout: R::Duration) -> Option<MutexGuard<'_, R, T>>
        ensures lock { IfSome result (IsGuardOf self.entry) }
        ensures tried { R.tried_for (raw_of self.now) timeout (tried_token result) }
    {
        Some(Guard {
            held: held!(
                BorrowedMutex { mutex: self },
                self.raw.try_lock_for(timeout)?
            ),
        })
    }

    /// Tries to acquire the mutex until `deadline`.
    pub fn try_lock_until(&self, deadline: R::Instant) -> Option<MutexGuard<'_, R, T>>
        ensures lock { IfSome result (IsGuardOf self.entry) }
        ensures tried { R.tried_until (raw_of self.now) deadline (tried_token result) }
    {
        Some(Guard {
            held: held!(
                BorrowedMutex { mutex: self },
                self.raw.try_lock_until(deadline)?
            ),
        })
    }
}

impl<R: RawMutex, T: Debug> Debug for Mutex<R, T> {
    fn fmt<W: fmt::Write>(&self, f: &mut Formatter<W>) -> fmt::Result {
        match self.try_lock() {
            Some(guard) => fmt_lock(f, "Mutex", &*guard),
            None => fmt_lock(f, "Mutex", &Locked),
        }
    }
}
