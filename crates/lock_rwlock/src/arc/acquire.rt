//! Acquisitions of a lock by guards that own a reference to it.
ghost use Rattle.std.specs.Prelude.{IfOk, IfSome, IsOkUnless};
ghost use Rattle.std.specs.Arc.{arc_value};
ghost use Rattle.lock_rwlock.specs.ArcRwLockGuard.{tried_arc_token, IsArcGuardOf};
ghost use Rattle.lock_rwlock.specs.RwLock.{raw_of};

use crate::arc::guard::{
    ArcModeGuard, ArcRwLockReadGuard, ArcRwLockUpgradableReadGuard, ArcRwLockWriteGuard,
};
use crate::lock::RwLock;
use lock_guard::guard::another_owner;
use lock_modes::Fault;
use lock_traits::{RawRwLock, RawRwLockTimed, RawRwLockUpgrade, RawRwLockUpgradeTimed};
use std::sync::Arc;

impl<R: RawRwLock + Drop, T: Drop> RwLock<R, T> {
    /// Acquires the lock shared, blocking until it is available. The guard owns a clone of the `Arc`.
    ///
    /// # Errors
    ///
    /// `OutOfMemory` if the `Arc` cannot be cloned. The clone comes first, so nothing is locked then.
    pub fn read_arc(this: &Arc<RwLock<R, T>>) -> Result<ArcRwLockReadGuard<R, T>, Fault>
        ensures fault { IsOkUnless result Fault.OutOfMemory }
        ensures lock { IfOk result (IsArcGuardOf this.now) }
    {
        ArcRwLockReadGuard::acquire(this)
    }

    /// Acquires the lock shared without blocking. The guard owns a clone of the `Arc`.
    ///
    /// # Errors
    ///
    /// `OutOfMemory` if the `Arc` cannot be cloned. The clone comes first, so nothing is locked then.
    pub fn try_read_arc(this: &Arc<RwLock<R, T>>) -> Result<Option<ArcRwLockReadGuard<R, T>>, Fault>
        ensures fault { IsOkUnless result Fault.OutOfMemory }
        ensures lock { IfOk result (λ got. IfSome got (IsArcGuardOf this.now)) }
        ensures tried { IfOk result (λ got. R.tried_shared (raw_of (arc_value this.now))
            (tried_arc_token got)) }
    {
        let rwlock = another_owner(this)?;
        let token = rwlock.raw.try_lock_shared();
        Ok(ArcModeGuard::of_token(rwlock, token))
    }

    /// Acquires the lock exclusively, blocking until it is available. The guard owns a clone of the `Arc`.
    ///
    /// # Errors
    ///
    /// `OutOfMemory` if the `Arc` cannot be cloned. The clone comes first, so nothing is locked then.
    pub fn write_arc(this: &Arc<RwLock<R, T>>) -> Result<ArcRwLockWriteGuard<R, T>, Fault>
        ensures fault { IsOkUnless result Fault.OutOfMemory }
        ensures lock { IfOk result (IsArcGuardOf this.now) }
    {
        ArcRwLockWriteGuard::acquire(this)
    }

    /// Acquires the lock exclusively without blocking. The guard owns a clone of the `Arc`.
    ///
    /// # Errors
    ///
    /// `OutOfMemory` if the `Arc` cannot be cloned. The clone comes first, so nothing is locked then.
    pub fn try_write_arc(
        this: &Arc<RwLock<R, T>>,
    ) -> Result<Option<ArcRwLockWriteGuard<R, T>>, Fault>
        ensures fault { IsOkUnless result Fault.OutOfMemory }
        ensures lock { IfOk result (λ got. IfSome got (IsArcGuardOf this.now)) }
        ensures tried { IfOk result (λ got. R.tried_exclusive (raw_of (arc_value this.now))
            (tried_arc_token got)) }
    {
        let rwlock = another_owner(this)?;
        let token = rwlock.raw.try_lock_exclusive();
        Ok(ArcModeGuard::of_token(rwlock, token))
    }
}

impl<R: RawRwLockTimed + Drop, T: Drop> RwLock<R, T> {
    /// `try_read_arc`, where the raw lock may block for at most `timeout`.
    pub fn try_read_arc_for(
        this: &Arc<RwLock<R, T>>,
        timeout: R::Duration,
    ) -> Result<Option<ArcRwLockReadGuard<R, T>>, Fault>
        ensures fault { IsOkUnless result Fault.OutOfMemory }
        ensures lock { IfOk result (λ got. IfSome got (IsArcGuardOf this.now)) }
        ensures tried { IfOk result (λ got. R.tried_shared_for (raw_of (arc_value this.now)) timeout
            (tried_arc_token got)) }
    {
        let rwlock = another_owner(this)?;
        let token = rwlock.raw.try_lock_shared_for(timeout);
        Ok(ArcModeGuard::of_token(rwlock, token))
    }

    /// `try_read_arc`, where the raw lock may block until `deadline`.
    pub fn try_read_arc_until(
        this: &Arc<RwLock<R, T>>,
        deadline: R::Instant,
    ) -> Result<Option<ArcRwLockReadGuard<R, T>>, Fault>
        ensures fault { IsOkUnless result Fault.OutOfMemory }
        ensures lock { IfOk result (λ got. IfSome got (IsArcGuardOf this.now)) }
        ensures tried { IfOk result (λ got. R.tried_shared_until (raw_of (arc_value this.now)) deadline
            (tried_arc_token got)) }
    {
        let rwlock = another_owner(this)?;
        let token = rwlock.raw.try_lock_shared_until(deadline);
        Ok(ArcModeGuard::of_token(rwlock, token))
    }

    /// `try_write_arc`, where the raw lock may block for at most `timeout`.
    pub fn try_write_arc_for(
        this: &Arc<RwLock<R, T>>,
        timeout: R::Duration,
    ) -> Result<Option<ArcRwLockWriteGuard<R, T>>, Fault>
        ensures fault { IsOkUnless result Fault.OutOfMemory }
        ensures lock { IfOk result (λ got. IfSome got (IsArcGuardOf this.now)) }
        ensures tried { IfOk result (λ got. R.tried_exclusive_for (raw_of (arc_value this.now)) timeout
            (tried_arc_token got)) }
    {
        let rwlock = another_owner(this)?;
        let token = rwlock.raw.try_lock_exclusive_for(timeout);
        Ok(ArcModeGuard::of_token(rwlock, token))
    }

    /// `try_write_arc`, where the raw lock may block until `deadline`.
    pub fn try_write_arc_until(
        this: &Arc<RwLock<R, T>>,
        deadline: R::Instant,
    ) -> Result<Option<ArcRwLockWriteGuard<R, T>>, Fault>
        ensures fault { IsOkUnless result Fault.OutOfMemory }
        ensures lock { IfOk result (λ got. IfSome got (IsArcGuardOf this.now)) }
        ensures tried { IfOk result (λ got. R.tried_exclusive_until (raw_of (arc_value this.now)) deadline
            (tried_arc_token got)) }
    {
        let rwlock = another_owner(this)?;
        let token = rwlock.raw.try_lock_exclusive_until(deadline);
        Ok(ArcModeGuard::of_token(rwlock, token))
    }
}

impl<R: RawRwLockUpgrade + Drop, T: Drop> RwLock<R, T> {
    /// Acquires the lock upgradable, blocking until it is available. The guard owns a clone of the `Arc`.
    ///
    /// # Errors
    ///
    /// `OutOfMemory` if the `Arc` cannot be cloned. The clone comes first, so nothing is locked then.
    pub fn upgradable_read_arc(
        this: &Arc<RwLock<R, T>>,
    ) -> Result<ArcRwLockUpgradableReadGuard<R, T>, Fault>
        ensures fault { IsOkUnless result Fault.OutOfMemory }
        ensures lock { IfOk result (IsArcGuardOf this.now) }
    {
        ArcRwLockUpgradableReadGuard::acquire(this)
    }

    /// Acquires the lock upgradable without blocking. The guard owns a clone of the `Arc`.
    ///
    /// # Errors
    ///
    /// `OutOfMemory` if the `Arc` cannot be cloned. The clone comes first, so nothing is locked then.
    pub fn try_upgradable_read_arc(
        this: &Arc<RwLock<R, T>>,
    ) -> Result<Option<ArcRwLockUpgradableReadGuard<R, T>>, Fault>
        ensures fault { IsOkUnless result Fault.OutOfMemory }
        ensures lock { IfOk result (λ got. IfSome got (IsArcGuardOf this.now)) }
        ensures tried { IfOk result (λ got. R.tried_upgradable (raw_of (arc_value this.now))
            (tried_arc_token got)) }
    {
        let rwlock = another_owner(this)?;
        let token = rwlock.raw.try_lock_upgradable();
        Ok(ArcModeGuard::of_token(rwlock, token))
    }
}

impl<R: RawRwLockUpgradeTimed + Drop, T: Drop> RwLock<R, T> {
    /// `try_upgradable_read_arc`, where the raw lock may block for at most `timeout`.
    pub fn try_upgradable_read_arc_for(
        this: &Arc<RwLock<R, T>>,
        timeout: R::Duration,
    ) -> Result<Option<ArcRwLockUpgradableReadGuard<R, T>>, Fault>
        ensures fault { IsOkUnless result Fault.OutOfMemory }
        ensures lock { IfOk result (λ got. IfSome got (IsArcGuardOf this.now)) }
        ensures tried { IfOk result (λ got. R.tried_upgradable_for (raw_of (arc_value this.now)) timeout
            (tried_arc_token got)) }
    {
        let rwlock = another_owner(this)?;
        let token = rwlock.raw.try_lock_upgradable_for(timeout);
        Ok(ArcModeGuard::of_token(rwlock, token))
    }

    /// `try_upgradable_read_arc`, where the raw lock may block until `deadline`.
    pub fn try_upgradable_read_arc_until(
        this: &Arc<RwLock<R, T>>,
        deadline: R::Instant,
    ) -> Result<Option<ArcRwLockUpgradableReadGuard<R, T>>, Fault>
        ensures fault { IsOkUnless result Fault.OutOfMemory }
        ensures lock { IfOk result (λ got. IfSome got (IsArcGuardOf this.now)) }
        ensures tried { IfOk result (λ got. R.tried_upgradable_until (raw_of (arc_value this.now)) deadline
            (tried_arc_token got)) }
    {
        let rwlock = another_owner(this)?;
        let token = rwlock.raw.try_lock_upgradable_until(deadline);
        Ok(ArcModeGuard::of_token(rwlock, token))
    }
}
