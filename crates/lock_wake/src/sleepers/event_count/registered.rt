//! A wait that has registered: how it parks, and is counted no more.
ghost use Rattle.std.specs.Prelude.{◌≡◌, true, false};
ghost use Rattle.lock_wake.specs.EventPlays.{has_arrived};
ghost use Rattle.lock_events.specs.Kept.{is_registered};

use crate::sleepers::event_count::call::SeatedEventCall;
use crate::sleepers::event_count::{EventCount, WORD};
use crate::sleepers::plays::Leave;
use crate::watched::Watched;
use atomic_table::Seat;
use lock_events::{Begun, EventStage, LAST_EPOCH, ONE_WAIT};
use std::marker::Model;
use std::sync::Wait;
use std::time::Duration;

/// A registered wait: notifications that begin from now on end its sleep. Contracts see it as an `EventCallView`.
///
/// If the count was full or the epoch the last, the wait has not registered, and yields in place of its sleep. It cannot be
/// dropped: `sleep`, `sleep_until`, `sleep_for` or `leave` ends it.
pub struct Registered {
    call: SeatedEventCall,
    epoch: Watched,
}

impl Model for Registered {
    ghost use Rattle.std.specs.Prelude.{◌≡◌, true};
    ghost use Rattle.lock_wake.specs.EventCalls.{EventCallView, watched_at};
    ghost use Rattle.lock_wake.specs.EventPlays.{has_arrived};

    ghost Value = { EventCallView };

    ghost view = { λ r. r.call };

    ghost invariant = { λ r.
        (r.epoch.word ≡ 0)
        × (r.epoch.number ≡ watched_at r.call.call.stage r.call.call.epoch)
        × (has_arrived r.call.call.stage ≡ true) };
}

/// A wait that has parked, and is still counted. Only `park` makes one.
pub(crate) struct Parked {
    pub(super) registered: Registered,
}

impl EventCount {
    /// Notes the epoch in which the wait sleeps.
    pub(crate) fn watch(&self, call: SeatedEventCall) -> Registered
        requires events { call.events ≡ self.now }
        requires arrived { has_arrived call.call.stage ≡ true }
        ensures { result.events ≡ self.now }
    {
        let epoch = match call.call.stage {
            EventStage::Unlock => call.call.epoch,
            _ => LAST_EPOCH,
        };
        Registered {
            call,
            epoch: Watched::new(WORD, epoch),
        }
    }

    /// Parks the thread while the epoch is that of the registration. A wait that has not registered yields.
    pub(crate) fn park<R: Wait>(
        &self,
        rt: &R,
        registered: Registered,
        time: Option<Duration>,
    ) -> Parked
        requires { registered.events ≡ self.now }
        ensures { result.registered ≡ registered }
    {
        registered
            .epoch
            .park(rt, &self.table.shared, LAST_EPOCH, time);
        Parked { registered }
    }

    /// Ends a registered wait without a sleep.
    pub fn leave(&self, registered: Registered)
        requires { registered.events ≡ self.now }
    {
        drop(self.count_away(registered));
    }

    /// Takes a registered wait out of the count, which ends it.
    pub(super) fn count_away(&self, registered: Registered) -> Seat<(), Begun>
        requires { registered.events ≡ self.now }
        ensures wait { (result.table_id ≡ self.now) × (result.id ≡ registered.number) }
        ensures away { is_registered result.me.0.call.stage ≡ false }
    {
        let Registered { call, epoch } = registered;
        epoch.end();
        let SeatedEventCall {
            mut seat,
            call,
            action: _,
        } = call;
        match call.stage {
            EventStage::Unlock => {
                self.table
                    .shared
                    .fetch_sub::<Leave>(&mut seat, WORD, ONE_WAIT);
            }
            _ => (),
        }
        seat
    }
}
