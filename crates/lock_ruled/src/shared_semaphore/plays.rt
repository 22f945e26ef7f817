//! The kinds of step on the number of free permits, and what each tells the party that makes it.
ghost use Rattle.lock_ruled.specs.PermitPlays.{Looks, Takes, Gives};

use crate::shared_semaphore::rule::PermitView;
use atomic_table::Play;

/// A load.
pub(crate) struct LookAtPermits;

impl Play<(), PermitView> for LookAtPermits {
    ghost then = { λ s. Looks };
}

/// An exchange that acquires permits.
pub(crate) struct TakePermits;

impl Play<(), PermitView> for TakePermits {
    ghost then = { Takes };
}

/// An addition that releases permits.
pub(crate) struct GivePermits;

impl Play<(), PermitView> for GivePermits {
    ghost then = { Gives };
}
