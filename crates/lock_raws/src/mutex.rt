//! The raw lock as a raw mutex, with a readers' limit of 1.
ghost use Rattle.std.specs.Prelude.{◌⊎◌, None, option_map, IfNone};
ghost use Rattle.lock_modes.specs.declared.mode.Mode.{Mode};

use crate::lock_core::LockCore;
use crate::raw_lock::RawLock;
use crate::tokens::ExclusiveToken;
use lock_modes::{Fault, Mode};
use lock_traits::{RawMutex, RawMutexFair, RawMutexTimed};
use std::alloc::Global;

impl<C: LockCore> RawMutex for RawLock<C> {
    type Guard = ExclusiveToken<C::Token>;

    type Waiter = C::Waiter;

    ghost is_own = { λ raw token. C.holds raw.core Mode.Exclusive token.token };

    ghost tried = { λ raw answer. C.tried raw.core Mode.Exclusive (option_map (λ t. t.token) answer) };

    fn new(alloc: Global, waiter: C::Waiter) -> Result<RawLock<C>, Fault> {
        let core: C = LockCore::new(alloc, waiter, 1)?;
        Ok(RawLock { core })
    }

    fn waiter(&self) -> &C::Waiter {
        self.core.waiter()
    }

    fn lock(&self) -> ExclusiveToken<C::Token> {
        ExclusiveToken {
            token: self.core.acquire(Mode::Exclusive),
        }
    }

    fn try_lock(&self) -> Option<ExclusiveToken<C::Token>> {
        let token = self.core.try_acquire(Mode::Exclusive)?;
        Some(ExclusiveToken { token })
    }

    fn unlock(&self, token: ExclusiveToken<C::Token>) {
        self.core.release(token.token, Mode::Exclusive);
    }

    fn is_locked(&self) -> bool {
        self.core.is_locked()
    }
}

/// A fair release is a plain release.
impl<C: LockCore> RawMutexFair for RawLock<C> {
    fn unlock_fair(&self, token: ExclusiveToken<C::Token>) {
        self.unlock(token);
    }
}

impl<C: LockCore> RawMutexTimed for RawLock<C> {
    type Duration = C::Duration;

    type Instant = C::Instant;

    ghost tried_for = { λ raw _ answer. IfNone answer (C.late raw.core Mode.Exclusive ⊎ C.tried raw.core Mode.Exclusive None) };

    ghost tried_until = { λ raw _ answer. IfNone answer (C.late raw.core Mode.Exclusive ⊎ C.tried raw.core Mode.Exclusive None) };

    fn try_lock_for(&self, timeout: C::Duration) -> Option<ExclusiveToken<C::Token>> {
        let token = self.acquire_within(Mode::Exclusive, timeout)?;
        Some(ExclusiveToken { token })
    }

    fn try_lock_until(&self, deadline: C::Instant) -> Option<ExclusiveToken<C::Token>> {
        let token = self.core.try_acquire_until(Mode::Exclusive, deadline)?;
        Some(ExclusiveToken { token })
    }
}
