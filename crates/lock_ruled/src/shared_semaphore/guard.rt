//! Permits that are released on drop.
ghost use Rattle.std.specs.Prelude.{◌≡◌, None, IfSome, IfOk, IfErr};
ghost use Rattle.std.specs.Arc.{arc_value};
ghost use Rattle.lock_modes.specs.declared.fault.Fault.TheVariants as fault;
ghost use Rattle.lock_ruled.specs.Accounts.{token_of};
ghost use Rattle.lock_ruled.specs.PermitCalls.{WasRefused};
ghost use Rattle.lock_time.specs.Deadlines.{HasPassed};

use crate::shared_semaphore::SharedSemaphore;
use crate::shared_semaphore::table::PermitToken;
use lock_modes::Fault;
use std::clone::Clone;
use std::marker::Model;
use std::sync::{Arc, Wait};
use std::time::{Clock, Instant};

/// Owns a token, and releases its permits on drop. Contracts see it as the token.
pub struct PermitGuard<'a> {
    semaphore: &'a SharedSemaphore,
    token: PermitToken,
}

impl<'a> Model for PermitGuard<'a> {
    ghost use Rattle.std.specs.Prelude.{◌≡◌};
    ghost use Rattle.lock_ruled.specs.Accounts.{TokenView};

    ghost Value = { TokenView };

    ghost view = { λ g. g.token };

    ghost invariant = { λ g. g.token.semaphore ≡ g.semaphore.now };
}

impl<'a> Drop for PermitGuard<'a> {
    fn drop(self) {
        let PermitGuard { semaphore, token } = self;
        semaphore.release(token);
    }
}

/// A `PermitGuard` that owns a reference to its semaphore, so it may outlive every borrow of it.
pub struct ArcPermitGuard {
    semaphore: Arc<SharedSemaphore>,
    token: PermitToken,
}

impl Model for ArcPermitGuard {
    ghost use Rattle.std.specs.Prelude.{◌≡◌};
    ghost use Rattle.std.specs.Arc.{arc_value};
    ghost use Rattle.lock_ruled.specs.Accounts.{TokenView};

    ghost Value = { TokenView };

    ghost view = { λ g. g.token };

    ghost invariant = { λ g. g.token.semaphore ≡ arc_value g.semaphore };
}

impl Drop for ArcPermitGuard {
    fn drop(self) {
        let ArcPermitGuard { semaphore, token } = self;
        semaphore.release(token);
    }
}

impl SharedSemaphore {
    /// Acquires this many permits as `acquire` does, until the guard is dropped.
    pub fn guard<R: Wait>(&self, rt: &R, permits: u64) -> PermitGuard<'_>
        ensures { result ≡ token_of self.now permits }
    {
        let token = self.acquire(rt, permits);
        PermitGuard {
            semaphore: self,
            token,
        }
    }

    /// Acquires this many permits as `try_acquire` does, until the guard is dropped.
    pub fn try_guard<R: Wait>(&self, rt: &R, permits: u64) -> Option<PermitGuard<'_>>
        ensures guard { IfSome result (λ guard. guard ≡ token_of self.now permits) }
        ensures refused { result ≡ None → WasRefused self.now permits }
    {
        let token = self.try_acquire(rt, permits)?;
        Some(PermitGuard {
            semaphore: self,
            token,
        })
    }

    /// Acquires this many permits as `acquire_until` does, until the guard is dropped.
    pub fn guard_until<R: Wait + Clock>(
        &self,
        rt: &R,
        permits: u64,
        deadline: Instant,
    ) -> Option<PermitGuard<'_>>
        ensures guard { IfSome result (λ guard. guard ≡ token_of self.now permits) }
        ensures late { result ≡ None → HasPassed deadline }
        ensures refused { result ≡ None → WasRefused self.now permits }
    {
        let token = self.acquire_until(rt, permits, deadline)?;
        Some(PermitGuard {
            semaphore: self,
            token,
        })
    }

    /// `guard`, by a guard that owns a reference to the semaphore.
    ///
    /// # Errors
    ///
    /// `OutOfMemory` if the `Arc` cannot be cloned. The clone comes first, so nothing is acquired then.
    pub fn guard_arc<R: Wait>(
        semaphore: &Arc<SharedSemaphore>,
        rt: &R,
        permits: u64,
    ) -> Result<ArcPermitGuard, Fault>
        ensures guard { IfOk result (λ guard. guard ≡ token_of (arc_value semaphore.now) permits) }
        ensures fault { IfErr result (λ error. error ≡ fault.OutOfMemory) }
    {
        let semaphore = semaphore.clone()?;
        let token = semaphore.acquire(rt, permits);
        Ok(ArcPermitGuard { semaphore, token })
    }

    /// `try_guard`, by a guard that owns a reference to the semaphore.
    ///
    /// # Errors
    ///
    /// `OutOfMemory` if the `Arc` cannot be cloned. The clone comes first, so nothing is acquired then.
    pub fn try_guard_arc<R: Wait>(
        semaphore: &Arc<SharedSemaphore>,
        rt: &R,
        permits: u64,
    ) -> Result<Option<ArcPermitGuard>, Fault>
        ensures guard { IfOk result (λ tried. IfSome tried (λ guard. guard ≡ token_of (arc_value semaphore.now) permits)) }
        ensures refused { IfOk result (λ tried. tried ≡ None → WasRefused (arc_value semaphore.now) permits) }
        ensures fault { IfErr result (λ error. error ≡ fault.OutOfMemory) }
    {
        let semaphore = semaphore.clone()?;
        match semaphore.try_acquire(rt, permits) {
            Some(token) => Ok(Some(ArcPermitGuard { semaphore, token })),
            None => Ok(None),
        }
    }
}
