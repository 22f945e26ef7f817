//! The raw lock that admits everything, for readers and writers.
use crate::raw_lock::admits_all::AdmitsAll;
use lock_modes::{Fault, Mode, is_limit};
use lock_recorder::RawCall;
use lock_traits::{
    GuardSend, RawMutex, RawRwLock, RawRwLockFair, RawRwLockUpgrade, RawRwLockUpgradeFair,
};
use std::alloc::Global;
use std::clone::Clone;
use std::sync::Wait;

impl<W: Wait + Clone + Drop> RawRwLock for AdmitsAll<W> {
    type SharedGuard = GuardSend;

    type ExclusiveGuard = GuardSend;

    type Waiter = W;

    fn new(alloc: Global, waiter: W, readers: u64) -> Result<AdmitsAll<W>, Fault> {
        if !is_limit(readers) {
            return Err(Fault::BadLimits);
        }
        RawMutex::new(alloc, waiter)
    }

    fn waiter(&self) -> &W {
        RawMutex::waiter(self)
    }

    fn lock_shared(&self) -> GuardSend {
        self.asked(RawCall::Lock(Mode::Shared));
        GuardSend::new()
    }

    fn try_lock_shared(&self) -> Option<GuardSend> {
        self.tried(Mode::Shared)
    }

    fn unlock_shared(&self, _token: GuardSend) {
        self.asked(RawCall::Unlock(Mode::Shared));
    }

    fn lock_exclusive(&self) -> GuardSend {
        self.asked(RawCall::Lock(Mode::Exclusive));
        GuardSend::new()
    }

    fn try_lock_exclusive(&self) -> Option<GuardSend> {
        self.tried(Mode::Exclusive)
    }

    fn unlock_exclusive(&self, _token: GuardSend) {
        self.asked(RawCall::Unlock(Mode::Exclusive));
    }

    fn is_locked(&self) -> bool {
        self.asked(RawCall::IsLocked);
        false
    }

    fn is_locked_exclusive(&self) -> bool {
        self.asked(RawCall::IsLockedExclusive);
        false
    }
}

impl<W: Wait + Clone + Drop> RawRwLockFair for AdmitsAll<W> {
    fn unlock_shared_fair(&self, _token: GuardSend) {
        self.asked(RawCall::UnlockFair(Mode::Shared));
    }

    fn unlock_exclusive_fair(&self, _token: GuardSend) {
        self.asked(RawCall::UnlockFair(Mode::Exclusive));
    }
}

impl<W: Wait + Clone + Drop> RawRwLockUpgrade for AdmitsAll<W> {
    type UpgradableGuard = GuardSend;

    fn lock_upgradable(&self) -> GuardSend {
        self.asked(RawCall::Lock(Mode::Upgradable));
        GuardSend::new()
    }

    fn try_lock_upgradable(&self) -> Option<GuardSend> {
        self.tried(Mode::Upgradable)
    }

    fn unlock_upgradable(&self, _token: GuardSend) {
        self.asked(RawCall::Unlock(Mode::Upgradable));
    }

    fn upgrade(&self, token: GuardSend) -> GuardSend {
        self.asked(RawCall::Upgrade);
        token
    }

    fn try_upgrade(&self, token: GuardSend) -> Result<GuardSend, GuardSend> {
        self.asked(RawCall::TryUpgrade);
        Ok(token)
    }
}

impl<W: Wait + Clone + Drop> RawRwLockUpgradeFair for AdmitsAll<W> {
    fn unlock_upgradable_fair(&self, _token: GuardSend) {
        self.asked(RawCall::UnlockFair(Mode::Upgradable));
    }
}
