//! A notification that has ended.
ghost use Rattle.std.specs.Prelude.{◌≡◌, true};
ghost use Rattle.lock_events.specs.declared.stage.EventStage.TheVariants.{Wake, Skipped};
ghost use Rattle.lock_wake.specs.EventCalls.{owed_by};
ghost use Rattle.lock_wake.specs.EventPlays.{NotifiesAs};

use crate::owed_wake::{OwedWake, Whom};
use crate::sleepers::event_count::call::SeatedEventCall;
use crate::sleepers::event_count::{EventCount, WORD};
use crate::sleepers::plays::Woke;
use atomic_table::Seat;
use lock_events::{Begun, EventWord};
use std::marker::Model;

/// A notification that has ended. After one of all, no wait that registered before it began sleeps on.
///
/// Only the calls of an `EventCount` make one, and no clause can: what contracts see has a private field.
#[derive(Drop)]
pub struct Notified {
    seat: Seat<(), Begun>,
    waits: u64,
    all: bool,
}

impl Model for Notified {
    ghost use Rattle.lock_wake.specs.EventPlays.{IsOver};
    ghost use Rattle.lock_wake.specs.EventSeals.{Ended, ended, ended_code};

    ghost Value = { Ended };

    ghost coded = { ended_code };

    ghost view = { λ n. ended n.seat.table_id n.seat.id n.waits n.all };

    ghost invariant = { λ n. IsOver n.all n.waits n.seat.me.0.call };
}

impl Notified {
    /// Returns how many waits were registered when the notification last looked at the word. Some may have ended since.
    pub fn waiters(&self) -> u64
        ensures { result ≡ self.now.waits }
    {
        self.waits
    }
}

impl SeatedEventCall {
    /// Returns the wake-up that a notification owes.
    pub(crate) fn owed(&self) -> OwedWake
        ensures { result ≡ owed_by self.now.call }
    {
        OwedWake::new(WORD, if self.call.all { Whom::All } else { Whom::One })
    }
}

impl EventCount {
    /// Ends a notification that has nobody to wake.
    pub(crate) fn skip(&self, call: SeatedEventCall, all: bool) -> Notified
        requires events { call.events ≡ self.now }
        requires notifies { NotifiesAs all call.call }
        requires skips { call.call.stage ≡ Skipped }
        ensures events { result.events ≡ self.now }
        ensures all { result.all ≡ all }
    {
        let SeatedEventCall {
            seat,
            call,
            action: _,
        } = call;
        Notified {
            seat,
            waits: EventWord::of(call.loaded).count,
            all,
        }
    }

    /// Makes the wake-up, after the epoch has ended.
    pub(crate) fn wake(&self, call: SeatedEventCall, owed: OwedWake, all: bool) -> Notified
        requires events { call.events ≡ self.now }
        requires notifies { NotifiesAs all call.call }
        requires wakes { call.call.stage ≡ Wake }
        requires owed { owed ≡ owed_by call.call }
        ensures events { result.events ≡ self.now }
        ensures all { result.all ≡ all }
    {
        let SeatedEventCall {
            mut seat,
            call,
            action: _,
        } = call;
        let shared = &self.table.shared;
        owed.make(shared);
        shared.load::<Woke>(&mut seat, WORD);
        Notified {
            seat,
            waits: EventWord::of(call.loaded).count,
            all,
        }
    }
}
