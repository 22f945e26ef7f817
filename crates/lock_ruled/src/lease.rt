//! Permits that are released by a call.
ghost use Rattle.std.specs.Prelude.{◌≡◌, ◌≤◌};
ghost use Rattle.lock_ruled.specs.Permits.{with_more};

use crate::holder::Holder;
use crate::semaphore::Semaphore;
use std::marker::Model;
use std::sync::Wait;

/// A holder that has acquired some permits for a while. `Lease::end` releases them and returns the holder.
///
/// It cannot be dropped: what a `Drop` does appears in no contract, so it could not say that the permits are back.
pub struct Lease {
    holder: Holder,
    permits: u64,
}

impl Model for Lease {
    ghost use Rattle.std.specs.Prelude.{◌≤◌};
    ghost use Rattle.lock_ruled.specs.Permits.{Leased};

    ghost Value = { Leased };

    ghost view = { λ l. record { holder = l.holder; permits = l.permits } };

    ghost invariant = { λ l. l.permits ≤ l.holder.view.own };
}

impl Semaphore {
    /// Acquires this many permits as `acquire` does, until `Lease::end`.
    pub fn lease<R: Wait>(&self, rt: &R, holder: Holder, permits: u64) -> Lease
        requires semaphore { holder.mutex ≡ self.now }
        ensures { result ≡ record { holder = with_more holder permits; permits = permits } }
    {
        let holder = self.acquire(rt, holder, permits);
        Lease { holder, permits }
    }
}

impl Lease {
    ghost use Rattle.lock_ruled.specs.Permits.{with_fewer};

    /// Releases the permits, and returns the holder.
    pub fn end<R: Wait>(self, rt: &R, semaphore: &Semaphore) -> Holder
        requires { self.holder.mutex ≡ semaphore.now }
        ensures { result ≡ with_fewer self.holder self.permits }
    {
        let Lease { holder, permits } = self;
        semaphore.release(rt, holder, permits)
    }
}
