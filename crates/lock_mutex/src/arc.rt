//! Acquisitions of a mutex by guards that own a reference to it.
ghost use Rattle.std.specs.Prelude.{IfOk, IfSome, IsOkUnless};
ghost use Rattle.std.specs.Arc.{arc_value};
ghost use Rattle.lock_mutex.specs.ArcMutexGuard.{tried_arc_token, IsArcGuardOf};
ghost use Rattle.lock_mutex.specs.Mutex.{raw_of};

use crate::{ArcGuard, ArcMutexGuard, Mutex};
use lock_guard::guard::another_owner;
use lock_modes::Fault;
use lock_traits::{RawMutex, RawMutexTimed};
use std::sync::Arc;

impl<R: RawMutex + Drop, T: Drop> Mutex<R, T> {
    /// Acquires the mutex, blocking until it is available. The guard owns a clone of the `Arc`.
    ///
    /// # Errors
    ///
    /// `OutOfMemory` if the `Arc` cannot be cloned. The clone comes first, so nothing is locked then.
    pub fn lock_arc(this: &Arc<Mutex<R, T>>) -> Result<ArcMutexGuard<R, T>, Fault>
        ensures fault { IsOkUnless result Fault.OutOfMemory }
        ensures lock { IfOk result (IsArcGuardOf this.now) }
    {
        let mutex = another_owner(this)?;
        let token = mutex.raw.lock();
        Ok(ArcGuard::new(mutex, token))
    }

    /// Acquires the mutex without blocking. The guard owns a clone of the `Arc`.
    ///
    /// # Errors
    ///
    /// `OutOfMemory` if the `Arc` cannot be cloned. The clone comes first, so nothing is locked then.
    pub fn try_lock_arc(this: &Arc<Mutex<R, T>>) -> Result<Option<ArcMutexGuard<R, T>>, Fault>
        ensures fault { IsOkUnless result Fault.OutOfMemory }
        ensures lock { IfOk result (λ got. IfSome got (IsArcGuardOf this.now)) }
        ensures tried { IfOk result (λ got. R.tried (raw_of (arc_value this.now)) (tried_arc_token got)) }
    {
        let mutex = another_owner(this)?;
        let token = mutex.raw.try_lock();
        Ok(ArcGuard::of_token(mutex, token))
    }
}

impl<R: RawMutexTimed + Drop, T: Drop> Mutex<R, T> {
    /// `try_lock_arc`, where the raw lock may block for at most `timeout`.
    pub fn try_lock_arc_for(
        this: &Arc<Mutex<R, T>>,
        timeout: R::Duration,
    ) -> Result<Option<ArcMutexGuard<R, T>>, Fault>
        ensures fault { IsOkUnless result Fault.OutOfMemory }
        ensures lock { IfOk result (λ got. IfSome got (IsArcGuardOf this.now)) }
        ensures tried { IfOk result (λ got. R.tried_for (raw_of (arc_value this.now)) timeout (tried_arc_token got)) }
    {
        let mutex = another_owner(this)?;
        let token = mutex.raw.try_lock_for(timeout);
        Ok(ArcGuard::of_token(mutex, token))
    }

    /// `try_lock_arc`, where the raw lock may block until `deadline`.
    pub fn try_lock_arc_until(
        this: &Arc<Mutex<R, T>>,
        deadline: R::Instant,
    ) -> Result<Option<ArcMutexGuard<R, T>>, Fault>
        ensures fault { IsOkUnless result Fault.OutOfMemory }
        ensures lock { IfOk result (λ got. IfSome got (IsArcGuardOf this.now)) }
        ensures tried { IfOk result (λ got. R.tried_until (raw_of (arc_value this.now)) deadline (tried_arc_token got)) }
    {
        let mutex = another_owner(this)?;
        let token = mutex.raw.try_lock_until(deadline);
        Ok(ArcGuard::of_token(mutex, token))
    }
}
