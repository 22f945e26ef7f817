//! The token of one acquisition, and its end.
ghost use Rattle.std.specs.Prelude.{◌≡◌, true};

use crate::shared_semaphore::rule::PermitView;
use crate::shared_semaphore::waiters::PermitWaiters;
use atomic_table::Seat;
use lock_wake::Notified;
use std::marker::Model;

/// The token of one acquisition on a `SharedSemaphore`. Contracts see its semaphore, and the number of its permits.
///
/// It cannot be dropped: `SharedSemaphore::release` ends it. A `PermitGuard` releases its permits on drop.
pub struct PermitToken {
    pub(super) seat: Seat<(), PermitView>,
    pub(super) permits: u64,
}

impl Model for PermitToken {
    ghost use Rattle.std.specs.Prelude.{◌≡◌, []};
    ghost use Rattle.lock_ruled.specs.Accounts.{TokenView};

    ghost Value = { TokenView };

    ghost view = { λ t.
        record {
          semaphore = record { id = t.seat.table_id; permits = t.seat.me.0.all };
          permits = t.permits;
        } };

    ghost invariant = { λ t. (t.seat.me.1 ≡ []) × (t.seat.me.0.own ≡ t.permits) };
}

impl PermitToken {
    /// Returns the number of its permits.
    pub fn permits(&self) -> u64
        ensures { result ≡ self.now.permits }
    {
        self.permits
    }
}

/// A party that released all its permits. It cannot be dropped, so each release notifies all waiters, and does so after it.
pub(crate) struct ReleasedPermits {
    pub(super) seat: Seat<(), PermitView>,
}

impl Model for ReleasedPermits {
    ghost use Rattle.std.specs.Prelude.{◌≡◌};
    ghost use Rattle.atomic_table.specs.Seated.{TableId};

    ghost Value = { TableId };

    ghost view = { λ r. r.seat.table_id };

    ghost invariant = { λ r. r.seat.me.0.own ≡ 0 };
}

impl ReleasedPermits {
    /// Ends the release, by a notification of all waiters.
    pub(crate) fn told(self, waiters: &PermitWaiters) -> Notified
        ensures events { result.events ≡ waiters.now }
        ensures all { result.all ≡ true }
    {
        let ReleasedPermits { seat } = self;
        drop(seat);
        waiters.notify_all()
    }
}
