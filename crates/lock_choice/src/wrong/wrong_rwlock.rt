//! The raw lock with a mistake, for readers and writers.
ghost use Rattle.std.specs.Prelude.{◌≡◌, IfErr};
ghost use Rattle.lock_choice.specs.WrongTokens.{owns_if_some};

use super::mistake::Mistake;
use super::wrong_raw::WrongRaw;
use lock_guard::forget;
use lock_modes::Fault;
use lock_traits::{
    RawRwLock, RawRwLockDowngrade, RawRwLockFair, RawRwLockTimed, RawRwLockUpgrade,
    RawRwLockUpgradeDowngrade, RawRwLockUpgradeFair, RawRwLockUpgradeTimed,
};
use std::alloc::Global;

impl<R: RawRwLock> RawRwLock for WrongRaw<R> {
    type SharedGuard = R::SharedGuard;

    type ExclusiveGuard = Option<R::ExclusiveGuard>;

    type Waiter = R::Waiter;

    ghost owns_shared = { λ wrong token. R.owns_shared wrong.raw token };

    ghost owns_exclusive = { λ wrong token. owns_if_some (R.owns_exclusive wrong.raw) token };

    fn new(alloc: Global, waiter: R::Waiter, readers: u64) -> Result<WrongRaw<R>, Fault> {
        Ok(WrongRaw::over(R::new(alloc, waiter, readers)?, Mistake::KeptToken))
    }

    fn waiter(&self) -> &R::Waiter {
        self.raw.waiter()
    }

    fn lock_shared(&self) -> R::SharedGuard {
        self.raw.lock_shared()
    }

    fn try_lock_shared(&self) -> Option<R::SharedGuard> {
        self.raw.try_lock_shared()
    }

    fn unlock_shared(&self, token: R::SharedGuard) {
        if let Some(token) = self.to_release(Mistake::KeptToken, Some(token)) {
            self.raw.unlock_shared(token);
        }
    }

    fn lock_exclusive(&self) -> Option<R::ExclusiveGuard> {
        Some(self.raw.lock_exclusive())
    }

    fn try_lock_exclusive(&self) -> Option<Option<R::ExclusiveGuard>> {
        let token = self.raw.try_lock_exclusive();
        if token.is_none() && self.makes(Mistake::RefusalAdmits) {
            // SAFETY: the mistake is to keep the token.
            unsafe { forget(self.raw.try_lock_shared()) };
        }
        Some(Some(token?))
    }

    fn unlock_exclusive(&self, token: Option<R::ExclusiveGuard>) {
        if let Some(token) = self.to_release(Mistake::KeptToken, token) {
            self.raw.unlock_exclusive(token);
        }
    }

    fn is_locked(&self) -> bool {
        self.raw.is_locked()
    }

    fn is_locked_exclusive(&self) -> bool {
        self.raw.is_locked_exclusive()
    }
}

impl<R: RawRwLockFair> RawRwLockFair for WrongRaw<R> {
    fn unlock_shared_fair(&self, token: R::SharedGuard) {
        if let Some(token) = self.to_release(Mistake::FairKeptToken, Some(token)) {
            self.raw.unlock_shared_fair(token);
        }
    }

    fn unlock_exclusive_fair(&self, token: Option<R::ExclusiveGuard>) {
        if let Some(token) = self.to_release(Mistake::FairKeptToken, token) {
            self.raw.unlock_exclusive_fair(token);
        }
    }

    fn bump_shared(&self, token: R::SharedGuard) -> R::SharedGuard {
        if self.makes(Mistake::HalfBump) {
            // SAFETY: the mistake is to keep the token.
            unsafe { forget(token) };
            return self.raw.lock_shared();
        }
        self.raw.bump_shared(token)
    }

    fn bump_exclusive(&self, token: Option<R::ExclusiveGuard>) -> Option<R::ExclusiveGuard> {
        let token = token?;
        if self.makes(Mistake::HalfBump) {
            self.raw.unlock_exclusive(token);
            return None;
        }
        Some(self.raw.bump_exclusive(token))
    }
}

impl<R: RawRwLockDowngrade> RawRwLockDowngrade for WrongRaw<R> {
    fn downgrade(&self, token: Option<R::ExclusiveGuard>) -> R::SharedGuard {
        let Some(token) = token else {
            return self.raw.lock_shared();
        };
        self.raw.downgrade(token)
    }
}

impl<R: RawRwLockTimed> RawRwLockTimed for WrongRaw<R> {
    type Duration = R::Duration;

    type Instant = R::Instant;

    fn try_lock_shared_for(&self, timeout: R::Duration) -> Option<R::SharedGuard> {
        self.takes_timed_tries()?;
        self.raw.try_lock_shared_for(timeout)
    }

    fn try_lock_shared_until(&self, deadline: R::Instant) -> Option<R::SharedGuard> {
        self.takes_timed_tries()?;
        self.raw.try_lock_shared_until(deadline)
    }

    fn try_lock_exclusive_for(&self, timeout: R::Duration) -> Option<Option<R::ExclusiveGuard>> {
        self.takes_timed_tries()?;
        Some(Some(self.raw.try_lock_exclusive_for(timeout)?))
    }

    fn try_lock_exclusive_until(&self, deadline: R::Instant) -> Option<Option<R::ExclusiveGuard>> {
        self.takes_timed_tries()?;
        Some(Some(self.raw.try_lock_exclusive_until(deadline)?))
    }
}

impl<R: RawRwLockUpgrade> RawRwLockUpgrade for WrongRaw<R> {
    type UpgradableGuard = R::UpgradableGuard;

    ghost owns_upgradable = { λ wrong token. R.owns_upgradable wrong.raw token };

    fn lock_upgradable(&self) -> R::UpgradableGuard {
        self.raw.lock_upgradable()
    }

    fn try_lock_upgradable(&self) -> Option<R::UpgradableGuard> {
        self.raw.try_lock_upgradable()
    }

    fn unlock_upgradable(&self, token: R::UpgradableGuard) {
        self.raw.unlock_upgradable(token);
    }

    fn upgrade(&self, token: R::UpgradableGuard) -> Option<R::ExclusiveGuard> {
        Some(self.raw.upgrade(token))
    }

    fn try_upgrade(
        &self,
        token: R::UpgradableGuard,
    ) -> Result<Option<R::ExclusiveGuard>, R::UpgradableGuard> {
        match self.raw.try_upgrade(token) {
            Ok(token) => Ok(Some(token)),
            Err(token) if self.makes(Mistake::UpgradeAmongReaders) => {
                self.raw.unlock_upgradable(token);
                Ok(None)
            }
            Err(token) => Err(token),
        }
    }
}

impl<R: RawRwLockUpgradeFair> RawRwLockUpgradeFair for WrongRaw<R> {
    fn unlock_upgradable_fair(&self, token: R::UpgradableGuard) {
        if let Some(token) = self.to_release(Mistake::FairKeptToken, Some(token)) {
            self.raw.unlock_upgradable_fair(token);
        }
    }

    fn bump_upgradable(&self, token: R::UpgradableGuard) -> R::UpgradableGuard {
        self.raw.bump_upgradable(token)
    }
}

impl<R: RawRwLockUpgradeDowngrade> RawRwLockUpgradeDowngrade for WrongRaw<R> {
    fn downgrade_upgradable(&self, token: R::UpgradableGuard) -> R::SharedGuard {
        self.raw.downgrade_upgradable(token)
    }

    fn downgrade_to_upgradable(&self, token: Option<R::ExclusiveGuard>) -> R::UpgradableGuard {
        match token {
            Some(token) => self.raw.downgrade_to_upgradable(token),
            None => self.raw.lock_upgradable(),
        }
    }
}

impl<R: RawRwLockUpgradeTimed> RawRwLockUpgradeTimed for WrongRaw<R> {
    fn try_lock_upgradable_for(&self, timeout: R::Duration) -> Option<R::UpgradableGuard> {
        self.takes_timed_tries()?;
        self.raw.try_lock_upgradable_for(timeout)
    }

    fn try_lock_upgradable_until(&self, deadline: R::Instant) -> Option<R::UpgradableGuard> {
        self.takes_timed_tries()?;
        self.raw.try_lock_upgradable_until(deadline)
    }

    fn try_upgrade_for(
        &self,
        token: R::UpgradableGuard,
        timeout: R::Duration,
    ) -> Result<Option<R::ExclusiveGuard>, R::UpgradableGuard> {
        if self.makes(Mistake::TimedRefusal) {
            return Err(token);
        }
        Ok(Some(self.raw.try_upgrade_for(token, timeout)?))
    }

    fn try_upgrade_until(
        &self,
        token: R::UpgradableGuard,
        deadline: R::Instant,
    ) -> Result<Option<R::ExclusiveGuard>, R::UpgradableGuard> {
        if self.makes(Mistake::TimedRefusal) {
            return Err(token);
        }
        Ok(Some(self.raw.try_upgrade_until(token, deadline)?))
    }
}
