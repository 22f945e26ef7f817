//! The raw lock as a raw reader-writer lock.
ghost use Rattle.std.specs.Prelude.{◌≡◌, ◌⊎◌, None, MatchResult, IfNone, option_map};
ghost use Rattle.lock_modes.specs.declared.mode.Mode.{Mode};

use crate::lock_core::LockCore;
use crate::raw_lock::RawLock;
use crate::tokens::{ExclusiveToken, SharedToken, UpgradableToken};
use lock_modes::{Fault, Mode};
use lock_traits::{
    RawRwLock, RawRwLockDowngrade, RawRwLockFair, RawRwLockTimed, RawRwLockUpgrade,
    RawRwLockUpgradeDowngrade, RawRwLockUpgradeFair, RawRwLockUpgradeTimed,
};
use std::alloc::Global;

impl<C: LockCore> RawRwLock for RawLock<C> {
    type SharedGuard = SharedToken<C::Token>;

    type ExclusiveGuard = ExclusiveToken<C::Token>;

    type Waiter = C::Waiter;

    ghost owns_shared = { λ raw token. C.holds raw.core Mode.Shared token.token };

    ghost owns_exclusive = { λ raw token. C.holds raw.core Mode.Exclusive token.token };

    ghost tried_shared = { λ raw answer. C.tried raw.core Mode.Shared (option_map (λ t. t.token) answer) };

    ghost tried_exclusive = { λ raw answer. C.tried raw.core Mode.Exclusive (option_map (λ t. t.token) answer) };

    fn new(alloc: Global, waiter: C::Waiter, readers: u64) -> Result<RawLock<C>, Fault> {
        let core: C = LockCore::new(alloc, waiter, readers)?;
        Ok(RawLock { core })
    }

    fn waiter(&self) -> &C::Waiter {
        self.core.waiter()
    }

    fn lock_shared(&self) -> SharedToken<C::Token> {
        SharedToken {
            token: self.core.acquire(Mode::Shared),
        }
    }

    fn try_lock_shared(&self) -> Option<SharedToken<C::Token>> {
        let token = self.core.try_acquire(Mode::Shared)?;
        Some(SharedToken { token })
    }

    fn unlock_shared(&self, token: SharedToken<C::Token>) {
        self.core.release(token.token, Mode::Shared);
    }

    /// While it blocks, it may refuse later threads.
    fn lock_exclusive(&self) -> ExclusiveToken<C::Token> {
        ExclusiveToken {
            token: self.core.acquire_announced(),
        }
    }

    fn try_lock_exclusive(&self) -> Option<ExclusiveToken<C::Token>> {
        let token = self.core.try_acquire(Mode::Exclusive)?;
        Some(ExclusiveToken { token })
    }

    fn unlock_exclusive(&self, token: ExclusiveToken<C::Token>) {
        self.core.release(token.token, Mode::Exclusive);
    }

    fn is_locked(&self) -> bool {
        self.core.is_locked()
    }

    fn is_locked_exclusive(&self) -> bool {
        self.core.is_locked_exclusive()
    }
}

/// A fair release is a plain release.
impl<C: LockCore> RawRwLockFair for RawLock<C> {
    fn unlock_shared_fair(&self, token: SharedToken<C::Token>) {
        self.unlock_shared(token);
    }

    fn unlock_exclusive_fair(&self, token: ExclusiveToken<C::Token>) {
        self.unlock_exclusive(token);
    }
}

impl<C: LockCore> RawRwLockDowngrade for RawLock<C> {
    fn downgrade(&self, token: ExclusiveToken<C::Token>) -> SharedToken<C::Token> {
        let token = self
            .core
            .downgrade(token.token, Mode::Exclusive, Mode::Shared);
        SharedToken { token }
    }
}

impl<C: LockCore> RawRwLockTimed for RawLock<C> {
    type Duration = C::Duration;

    type Instant = C::Instant;

    ghost tried_shared_for = { λ raw _ answer. IfNone answer (C.late raw.core Mode.Shared ⊎ C.tried raw.core Mode.Shared None) };

    ghost tried_shared_until = { λ raw _ answer. IfNone answer (C.late raw.core Mode.Shared ⊎ C.tried raw.core Mode.Shared None) };

    ghost tried_exclusive_for = { λ raw _ answer. IfNone answer (C.late raw.core Mode.Exclusive ⊎ C.tried raw.core Mode.Exclusive None) };

    ghost tried_exclusive_until = { λ raw _ answer. IfNone answer (C.late raw.core Mode.Exclusive ⊎ C.tried raw.core Mode.Exclusive None) };

    fn try_lock_shared_for(&self, timeout: C::Duration) -> Option<SharedToken<C::Token>> {
        let token = self.acquire_within(Mode::Shared, timeout)?;
        Some(SharedToken { token })
    }

    fn try_lock_shared_until(&self, deadline: C::Instant) -> Option<SharedToken<C::Token>> {
        let token = self.core.try_acquire_until(Mode::Shared, deadline)?;
        Some(SharedToken { token })
    }

    fn try_lock_exclusive_for(&self, timeout: C::Duration) -> Option<ExclusiveToken<C::Token>> {
        let token = self.acquire_within(Mode::Exclusive, timeout)?;
        Some(ExclusiveToken { token })
    }

    fn try_lock_exclusive_until(&self, deadline: C::Instant) -> Option<ExclusiveToken<C::Token>> {
        let token = self.core.try_acquire_until(Mode::Exclusive, deadline)?;
        Some(ExclusiveToken { token })
    }
}

impl<C: LockCore> RawRwLockUpgrade for RawLock<C> {
    type UpgradableGuard = UpgradableToken<C::Token>;

    ghost owns_upgradable = { λ raw token. C.holds raw.core Mode.Upgradable token.token };

    ghost tried_upgradable = { λ raw answer. C.tried raw.core Mode.Upgradable (option_map (λ t. t.token) answer) };

    ghost tried_upgrade = { λ raw upgraded. C.tried_upgrade raw.core (option_map (λ t. t.token) upgraded) };

    fn lock_upgradable(&self) -> UpgradableToken<C::Token> {
        UpgradableToken {
            token: self.core.acquire(Mode::Upgradable),
        }
    }

    fn try_lock_upgradable(&self) -> Option<UpgradableToken<C::Token>> {
        let token = self.core.try_acquire(Mode::Upgradable)?;
        Some(UpgradableToken { token })
    }

    fn unlock_upgradable(&self, token: UpgradableToken<C::Token>) {
        self.core.release(token.token, Mode::Upgradable);
    }

    fn upgrade(&self, token: UpgradableToken<C::Token>) -> ExclusiveToken<C::Token> {
        ExclusiveToken {
            token: self.core.upgrade(token.token),
        }
    }

    fn try_upgrade(
        &self,
        token: UpgradableToken<C::Token>,
    ) -> Result<ExclusiveToken<C::Token>, UpgradableToken<C::Token>> {
        by_mode(self.core.try_upgrade(token.token))
    }
}

/// A fair release is a plain release.
impl<C: LockCore> RawRwLockUpgradeFair for RawLock<C> {
    fn unlock_upgradable_fair(&self, token: UpgradableToken<C::Token>) {
        self.unlock_upgradable(token);
    }
}

impl<C: LockCore> RawRwLockUpgradeDowngrade for RawLock<C> {
    fn downgrade_upgradable(&self, token: UpgradableToken<C::Token>) -> SharedToken<C::Token> {
        let token = self
            .core
            .downgrade(token.token, Mode::Upgradable, Mode::Shared);
        SharedToken { token }
    }

    fn downgrade_to_upgradable(
        &self,
        token: ExclusiveToken<C::Token>,
    ) -> UpgradableToken<C::Token> {
        let token = self
            .core
            .downgrade(token.token, Mode::Exclusive, Mode::Upgradable);
        UpgradableToken { token }
    }
}

impl<C: LockCore> RawRwLockUpgradeTimed for RawLock<C> {
    ghost tried_upgradable_for = { λ raw _ answer. IfNone answer (C.late raw.core Mode.Upgradable ⊎ C.tried raw.core Mode.Upgradable None) };

    ghost tried_upgradable_until = { λ raw _ answer. IfNone answer (C.late raw.core Mode.Upgradable ⊎ C.tried raw.core Mode.Upgradable None) };

    ghost tried_upgrade_for = { λ raw _ upgraded. IfNone upgraded (C.late_upgrade raw.core ⊎ C.tried_upgrade raw.core None) };

    ghost tried_upgrade_until = { λ raw _ upgraded. IfNone upgraded (C.late_upgrade raw.core ⊎ C.tried_upgrade raw.core None) };

    fn try_lock_upgradable_for(&self, timeout: C::Duration) -> Option<UpgradableToken<C::Token>> {
        let token = self.acquire_within(Mode::Upgradable, timeout)?;
        Some(UpgradableToken { token })
    }

    fn try_lock_upgradable_until(&self, deadline: C::Instant) -> Option<UpgradableToken<C::Token>> {
        let token = self.core.try_acquire_until(Mode::Upgradable, deadline)?;
        Some(UpgradableToken { token })
    }

    fn try_upgrade_for(
        &self,
        token: UpgradableToken<C::Token>,
        timeout: C::Duration,
    ) -> Result<ExclusiveToken<C::Token>, UpgradableToken<C::Token>> {
        by_mode(self.upgrade_within(token.token, timeout))
    }

    fn try_upgrade_until(
        &self,
        token: UpgradableToken<C::Token>,
        deadline: C::Instant,
    ) -> Result<ExclusiveToken<C::Token>, UpgradableToken<C::Token>> {
        by_mode(self.core.try_upgrade_until(token.token, deadline))
    }
}

/// The result of an upgrade, as tokens of the two modes.
fn by_mode<T>(upgraded: Result<T, T>) -> Result<ExclusiveToken<T>, UpgradableToken<T>>
    ensures { MatchResult result (λ next. Ok next.token ≡ upgraded) (λ same. Err same.token ≡ upgraded) }
{
    match upgraded {
        Ok(token) => Ok(ExclusiveToken { token }),
        Err(token) => Err(UpgradableToken { token }),
    }
}
