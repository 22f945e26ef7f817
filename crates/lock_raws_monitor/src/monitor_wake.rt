//! The owed wake-up of a monitor.
ghost use Rattle.std.specs.Prelude.{◌≡◌, ◌<◌, ◌^◌};
ghost use Rattle.lock_modes.specs.Modes.{tokens};
ghost use Rattle.lock_raws_monitor.specs.Waking.{wake_decision};
ghost use Rattle.lock_wake.specs.declared.owed_wake.Whom.{Whom};

mod waiters;

use lock_wake::Whom;
use lock_word::{Occupancy, unblocks};
use std::marker::Model;
pub(crate) use waiters::MonitorWaiters;

/// The owed wake-up of a step of a `Monitor`: decided, and not made yet. Contracts see whom it wakes.
///
/// It has no `Drop` and no `Clone`, and only a `Monitor` that makes it consumes it. So code that loses one does not compile.
pub struct MonitorWake {
    whom: Whom,
}

impl Model for MonitorWake {
    ghost Value = { Whom };

    ghost view = { λ w. w.whom };
}

impl MonitorWake {
    /// Decides whom a step wakes, from the readers' limit and the states before and after.
    pub fn decide(readers: u64, before: Occupancy, after: Occupancy) -> MonitorWake
        requires before_small { tokens before.bag < 2 ^ 64 }
        requires after_small { tokens after.bag < 2 ^ 64 }
        ensures { result ≡ wake_decision readers before after }
    {
        let whom = if !unblocks(readers, before, after) {
            Whom::Nobody
        } else if !after.barred && readers == 1 {
            Whom::One
        } else {
            Whom::All
        };
        MonitorWake { whom }
    }
}
