//! A raw lock over any core.
ghost use Rattle.std.specs.Prelude.{◌≡◌, ◌⊎◌, true, None, IfSome, IfNone, IfOk, IfErr, OnErr};

use crate::lock_core::LockCore;
use lock_modes::Mode;

/// All raw traits over one core. As a `RawMutex` its readers' limit is 1. The type of a token names its mode.
#[derive(Drop)]
pub struct RawLock<C: LockCore> {
    pub(crate) core: C,
}

impl<C: LockCore> RawLock<C> {
    /// Tries to acquire the mode for at most `timeout`. If the deadline cannot be represented, it blocks without one.
    pub(crate) fn acquire_within(&self, mode: Mode, timeout: C::Duration) -> Option<C::Token>
        ensures held { IfSome result (λ token. C.holds self.now.core mode token ≡ true) }
        ensures refused { IfNone result (C.late self.now.core mode ⊎ C.tried self.now.core mode None) }
    {
        match self.core.instant_after(timeout) {
            Some(deadline) => self.core.try_acquire_until(mode, deadline),
            None => Some(self.core.acquire(mode)),
        }
    }

    /// Tries to upgrade for at most `timeout`, or returns the token unchanged. If the deadline cannot be represented,
    /// it blocks without one.
    pub(crate) fn upgrade_within(
        &self,
        token: C::Token,
        timeout: C::Duration,
    ) -> Result<C::Token, C::Token>
        requires { C.holds self.now.core Mode.Upgradable token ≡ true }
        ensures held { IfOk result (λ upgraded. C.holds self.now.core Mode.Exclusive upgraded ≡ true) }
        ensures back { IfErr result (λ back. back ≡ token) }
        ensures refused { OnErr result (C.late_upgrade self.now.core ⊎ C.tried_upgrade self.now.core None) }
    {
        match self.core.instant_after(timeout) {
            Some(deadline) => self.core.try_upgrade_until(token, deadline),
            None => Ok(self.core.upgrade(token)),
        }
    }
}
