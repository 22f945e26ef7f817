//! A call on an event count, and its steps on the word.
ghost use Rattle.std.specs.Prelude.{◌≡◌, ℕ, true, IsTrue};
ghost use Rattle.lock_events.specs.declared.action.EventAction.TheVariants as action;
ghost use Rattle.lock_events.specs.Events.{action_of, event_next};
ghost use Rattle.lock_wake.specs.EventPlays.{is_arriving, NotifiesAs};

use crate::sleepers::event_count::{EventCount, WORD};
use crate::sleepers::plays::{BeginAll, BeginOne, BeginWait, Exchange, SetBits};
use atomic_table::Seat;
use lock_events::{Begun, EventAction, EventCall};
use std::marker::Model;

/// A wait or a notification that has not ended, by a new seat at the word of its event count. It cannot be dropped:
/// `EventCount::count_away` ends a wait, and `wake` or `skip` a notification.
pub(crate) struct SeatedEventCall {
    pub(super) seat: Seat<(), Begun>,
    pub(super) call: EventCall,
    pub(super) action: EventAction,
}

impl Model for SeatedEventCall {
    ghost use Rattle.std.specs.Prelude.{◌≡◌};
    ghost use Rattle.lock_events.specs.Events.{action_of};
    ghost use Rattle.lock_wake.specs.EventCalls.{EventCallView};

    ghost Value = { EventCallView };

    ghost view = { λ c. record { events = c.seat.table_id; number = c.seat.id; call = c.call } };

    ghost invariant = { λ c. (c.seat.me.0.call ≡ c.call) × (c.action ≡ action_of c.call) };
}

impl SeatedEventCall {
    /// Returns the action that the call asks for.
    pub(crate) fn action(&self) -> EventAction
        ensures { result ≡ action_of self.now.call }
    {
        self.action
    }
}

impl EventCount {
    /// Begins a wait, by a load of the word.
    pub(crate) fn begin_wait(&self) -> SeatedEventCall
        ensures events { result.events ≡ self.now }
        ensures arrives { is_arriving result.call.stage ≡ true }
    {
        let (found, seat) = self.table.shared.load_new_seat::<BeginWait>(WORD);
        let (mut call, _) = EventCall::wait();
        let action = call.next(found);
        SeatedEventCall { seat, call, action }
    }

    /// Begins a notification of all or of one, by a load of the word.
    pub(crate) fn begin_notify(&self, all: bool) -> SeatedEventCall
        ensures events { result.events ≡ self.now }
        ensures notifies { NotifiesAs all result.call }
    {
        let (found, seat) = if all {
            self.table.shared.load_new_seat::<BeginAll>(WORD)
        } else {
            self.table.shared.load_new_seat::<BeginOne>(WORD)
        };
        let (mut call, _) = EventCall::notify(all);
        let action = call.next(found);
        SeatedEventCall { seat, call, action }
    }

    /// Makes the exchange that the call asks for.
    pub(crate) fn exchange(&self, call: &mut SeatedEventCall, old: u64, new: u64)
        requires events { call.old.events ≡ self.now }
        requires asks { action_of call.old.call ≡ action.Exchange old new }
        ensures { (found : ℕ) × (call.new ≡ record call.old { call = event_next found call.old.call }) }
    {
        let found = self
            .table
            .shared
            .compare_exchange::<Exchange>(&mut call.seat, WORD, old, new);
        call.action = call.call.next(found);
    }

    /// Begins the last epoch, as the call asks.
    pub(crate) fn set_bits(&self, call: &mut SeatedEventCall, bits: u64)
        requires events { call.old.events ≡ self.now }
        requires asks { action_of call.old.call ≡ action.Or bits }
        ensures { (found : ℕ) × (call.new ≡ record call.old { call = event_next found call.old.call }) }
    {
        let found = self
            .table
            .shared
            .fetch_or::<SetBits>(&mut call.seat, WORD, bits);
        call.action = call.call.next(found);
    }
}
