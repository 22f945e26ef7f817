//! A wait that has slept.
ghost use Rattle.std.specs.Prelude.{◌≡◌, Option, option_map, Bool, Some, true};
ghost use Rattle.std.specs.Time.{instant_nanos};

use crate::sleepers::event_count::EventCount;
use crate::sleepers::event_count::registered::{Parked, Registered};
use atomic_table::Seat;
use lock_events::Begun;
use std::marker::Model;
use std::time::Instant;

/// A wait that has slept, and is no longer counted.
///
/// Only the calls of an `EventCount` make one, and no clause can: what contracts see has a private field.
#[derive(Drop)]
pub struct Slept {
    seat: Seat<(), Begun>,
    deadline: Option<Instant>,
    timed_out: bool,
}

impl Model for Slept {
    ghost use Rattle.std.specs.Prelude.{◌≡◌, option_map, false};
    ghost use Rattle.std.specs.Time.{instant_nanos};
    ghost use Rattle.lock_events.specs.Kept.{is_registered};
    ghost use Rattle.lock_wake.specs.EventSeals.{Asleep, slept, slept_code};

    ghost Value = { Asleep };

    ghost coded = { slept_code };

    ghost view = { λ s. slept s.seat.table_id s.seat.id (option_map instant_nanos s.deadline) s.timed_out };

    ghost invariant = { λ s. is_registered s.seat.me.0.call.stage ≡ false };
}

impl Slept {
    /// Returns whether the deadline had passed when the thread had slept. A wait without one does not time out.
    pub fn has_timed_out(&self) -> bool
        ensures { result ≡ self.now.timed_out }
    {
        self.timed_out
    }
}

impl EventCount {
    /// Ends a wait that has parked.
    pub(crate) fn rise(&self, parked: Parked, deadline: Option<Instant>, timed_out: bool) -> Slept
        requires { parked.registered.events ≡ self.now }
        ensures wait { (result.events ≡ self.now) × (result.number ≡ parked.registered.number) }
        ensures deadline { result.deadline ≡ option_map instant_nanos deadline }
        ensures timed_out { result.timed_out ≡ timed_out }
    {
        let Parked { registered } = parked;
        Slept {
            seat: self.count_away(registered),
            deadline,
            timed_out,
        }
    }

    /// Ends a wait whose deadline has passed before it parks.
    pub(crate) fn time_out(&self, registered: Registered, deadline: Instant) -> Slept
        requires { registered.events ≡ self.now }
        ensures wait { (result.events ≡ self.now) × (result.number ≡ registered.number) }
        ensures deadline { result.deadline ≡ Some (instant_nanos deadline) }
        ensures timed_out { result.timed_out ≡ true }
    {
        Slept {
            seat: self.count_away(registered),
            deadline: Some(deadline),
            timed_out: true,
        }
    }
}
