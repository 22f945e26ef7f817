//! The recording raw lock, for readers and writers.
use crate::deadline::Deadline;
use crate::raw_call::RawCall;
use crate::recorder::Recorder;
use lock_modes::{Fault, Mode};
use lock_traits::{
    RawRwLock, RawRwLockDowngrade, RawRwLockFair, RawRwLockTimed, RawRwLockUpgrade,
    RawRwLockUpgradeDowngrade, RawRwLockUpgradeFair, RawRwLockUpgradeTimed,
};
use std::alloc::Global;

impl<R: RawRwLock> Recorder<R> {
    fn record_call(&self, call: RawCall) {
        self.log.add(self.raw.waiter(), call);
    }
}

impl<R: RawRwLock + Drop> RawRwLock for Recorder<R> {
    type SharedGuard = R::SharedGuard;

    type ExclusiveGuard = R::ExclusiveGuard;

    type Waiter = R::Waiter;

    ghost owns_shared = { λ recorder token. R.owns_shared recorder.raw token };

    ghost owns_exclusive = { λ recorder token. R.owns_exclusive recorder.raw token };

    fn new(alloc: Global, waiter: R::Waiter, readers: u64) -> Result<Recorder<R>, Fault> {
        Recorder::over(alloc, R::new(alloc, waiter, readers)?)
    }

    fn waiter(&self) -> &R::Waiter {
        self.raw.waiter()
    }

    fn lock_shared(&self) -> R::SharedGuard {
        self.record_call(RawCall::Lock(Mode::Shared));
        self.raw.lock_shared()
    }

    fn try_lock_shared(&self) -> Option<R::SharedGuard> {
        self.record_call(RawCall::TryLock(Mode::Shared));
        self.raw.try_lock_shared()
    }

    fn unlock_shared(&self, token: R::SharedGuard) {
        self.record_call(RawCall::Unlock(Mode::Shared));
        self.raw.unlock_shared(token);
    }

    fn lock_exclusive(&self) -> R::ExclusiveGuard {
        self.record_call(RawCall::Lock(Mode::Exclusive));
        self.raw.lock_exclusive()
    }

    fn try_lock_exclusive(&self) -> Option<R::ExclusiveGuard> {
        self.record_call(RawCall::TryLock(Mode::Exclusive));
        self.raw.try_lock_exclusive()
    }

    fn unlock_exclusive(&self, token: R::ExclusiveGuard) {
        self.record_call(RawCall::Unlock(Mode::Exclusive));
        self.raw.unlock_exclusive(token);
    }

    fn is_locked(&self) -> bool {
        self.record_call(RawCall::IsLocked);
        self.raw.is_locked()
    }

    fn is_locked_exclusive(&self) -> bool {
        self.record_call(RawCall::IsLockedExclusive);
        self.raw.is_locked_exclusive()
    }
}

impl<R: RawRwLockFair + Drop> RawRwLockFair for Recorder<R> {
    fn unlock_shared_fair(&self, token: R::SharedGuard) {
        self.record_call(RawCall::UnlockFair(Mode::Shared));
        self.raw.unlock_shared_fair(token);
    }

    fn unlock_exclusive_fair(&self, token: R::ExclusiveGuard) {
        self.record_call(RawCall::UnlockFair(Mode::Exclusive));
        self.raw.unlock_exclusive_fair(token);
    }

    fn bump_shared(&self, token: R::SharedGuard) -> R::SharedGuard {
        self.record_call(RawCall::Bump(Mode::Shared));
        self.raw.bump_shared(token)
    }

    fn bump_exclusive(&self, token: R::ExclusiveGuard) -> R::ExclusiveGuard {
        self.record_call(RawCall::Bump(Mode::Exclusive));
        self.raw.bump_exclusive(token)
    }
}

impl<R: RawRwLockDowngrade + Drop> RawRwLockDowngrade for Recorder<R> {
    fn downgrade(&self, token: R::ExclusiveGuard) -> R::SharedGuard {
        self.record_call(RawCall::Downgrade);
        self.raw.downgrade(token)
    }
}

impl<R: RawRwLockTimed + Drop> RawRwLockTimed for Recorder<R>
where
    R::Duration: Default,
    R::Instant: Deadline<R::Waiter>,
{
    type Duration = u64;

    type Instant = u64;

    fn try_lock_shared_for(&self, timeout: u64) -> Option<R::SharedGuard> {
        self.record_call(RawCall::TryLockFor(Mode::Shared, timeout));
        self.raw.try_lock_shared_for(Default::default())
    }

    fn try_lock_shared_until(&self, deadline: u64) -> Option<R::SharedGuard> {
        self.record_call(RawCall::TryLockUntil(Mode::Shared, deadline));
        self.raw
            .try_lock_shared_until(Deadline::passed(self.raw.waiter())?)
    }

    fn try_lock_exclusive_for(&self, timeout: u64) -> Option<R::ExclusiveGuard> {
        self.record_call(RawCall::TryLockFor(Mode::Exclusive, timeout));
        self.raw.try_lock_exclusive_for(Default::default())
    }

    fn try_lock_exclusive_until(&self, deadline: u64) -> Option<R::ExclusiveGuard> {
        self.record_call(RawCall::TryLockUntil(Mode::Exclusive, deadline));
        self.raw
            .try_lock_exclusive_until(Deadline::passed(self.raw.waiter())?)
    }
}

impl<R: RawRwLockUpgrade + Drop> RawRwLockUpgrade for Recorder<R> {
    type UpgradableGuard = R::UpgradableGuard;

    ghost owns_upgradable = { λ recorder token. R.owns_upgradable recorder.raw token };

    fn lock_upgradable(&self) -> R::UpgradableGuard {
        self.record_call(RawCall::Lock(Mode::Upgradable));
        self.raw.lock_upgradable()
    }

    fn try_lock_upgradable(&self) -> Option<R::UpgradableGuard> {
        self.record_call(RawCall::TryLock(Mode::Upgradable));
        self.raw.try_lock_upgradable()
    }

    fn unlock_upgradable(&self, token: R::UpgradableGuard) {
        self.record_call(RawCall::Unlock(Mode::Upgradable));
        self.raw.unlock_upgradable(token);
    }

    fn upgrade(&self, token: R::UpgradableGuard) -> R::ExclusiveGuard {
        self.record_call(RawCall::Upgrade);
        self.raw.upgrade(token)
    }

    fn try_upgrade(
        &self,
        token: R::UpgradableGuard,
    ) -> Result<R::ExclusiveGuard, R::UpgradableGuard> {
        self.record_call(RawCall::TryUpgrade);
        self.raw.try_upgrade(token)
    }
}

impl<R: RawRwLockUpgradeFair + Drop> RawRwLockUpgradeFair for Recorder<R> {
    fn unlock_upgradable_fair(&self, token: R::UpgradableGuard) {
        self.record_call(RawCall::UnlockFair(Mode::Upgradable));
        self.raw.unlock_upgradable_fair(token);
    }

    fn bump_upgradable(&self, token: R::UpgradableGuard) -> R::UpgradableGuard {
        self.record_call(RawCall::Bump(Mode::Upgradable));
        self.raw.bump_upgradable(token)
    }
}

impl<R: RawRwLockUpgradeDowngrade + Drop> RawRwLockUpgradeDowngrade for Recorder<R> {
    fn downgrade_upgradable(&self, token: R::UpgradableGuard) -> R::SharedGuard {
        self.record_call(RawCall::DowngradeUpgradable);
        self.raw.downgrade_upgradable(token)
    }

    fn downgrade_to_upgradable(&self, token: R::ExclusiveGuard) -> R::UpgradableGuard {
        self.record_call(RawCall::DowngradeToUpgradable);
        self.raw.downgrade_to_upgradable(token)
    }
}

impl<R: RawRwLockUpgradeTimed + Drop> RawRwLockUpgradeTimed for Recorder<R>
where
    R::Duration: Default,
    R::Instant: Deadline<R::Waiter>,
{
    fn try_lock_upgradable_for(&self, timeout: u64) -> Option<R::UpgradableGuard> {
        self.record_call(RawCall::TryLockFor(Mode::Upgradable, timeout));
        self.raw.try_lock_upgradable_for(Default::default())
    }

    fn try_lock_upgradable_until(&self, deadline: u64) -> Option<R::UpgradableGuard> {
        self.record_call(RawCall::TryLockUntil(Mode::Upgradable, deadline));
        self.raw
            .try_lock_upgradable_until(Deadline::passed(self.raw.waiter())?)
    }

    fn try_upgrade_for(
        &self,
        token: R::UpgradableGuard,
        timeout: u64,
    ) -> Result<R::ExclusiveGuard, R::UpgradableGuard> {
        self.record_call(RawCall::TryUpgradeFor(timeout));
        self.raw.try_upgrade_for(token, Default::default())
    }

    fn try_upgrade_until(
        &self,
        token: R::UpgradableGuard,
        deadline: u64,
    ) -> Result<R::ExclusiveGuard, R::UpgradableGuard> {
        self.record_call(RawCall::TryUpgradeUntil(deadline));
        match Deadline::passed(self.raw.waiter()) {
            Some(deadline) => self.raw.try_upgrade_until(token, deadline),
            None => Err(token),
        }
    }
}
