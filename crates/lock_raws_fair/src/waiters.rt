//! Where the waiters of a fair lock sleep.
ghost use Rattle.std.specs.Prelude.{◌≡◌, ◌%◌, true, IfErr, Some, slice_index_or};
ghost use Rattle.lock_modes.specs.declared.fault.Fault.TheVariants as fault;
ghost use Rattle.lock_raws_fair.specs.Sleeping.{events_of};

mod sleep;

use crate::acquisition::{Acquisition, Waiting};
use crate::fair_arbiter::FairArbiter;
use crate::line::Ticket;
use crate::turn::{NOBODY, TurnHint, UPGRADE};
use crate::upgrade::{Upgrade, WaitingUpgrade};
use lock_modes::Fault;
use lock_raws_monitor::Arbiter;
use lock_wake::{LockWaits, Notified};
use std::alloc::Global;
use std::sync::MutexGuard;

/// The event counts on which the waiters of a fair lock sleep, and whose turn it is.
#[derive(Drop)]
pub(crate) struct FairWaiters {
    /// A ticket waits on the event count of its number, so a notification reaches every eighth ticket.
    tickets: [LockWaits; 8],
    /// The holder whose upgrade waits.
    upgrader: LockWaits,
    /// The callers without a ticket.
    ticketless: LockWaits,
    turn: TurnHint,
}

impl FairWaiters {
    pub(crate) fn new(alloc: Global) -> Result<FairWaiters, Fault>
        ensures { IfErr result (λ error. error ≡ fault.OutOfMemory) }
    {
        Ok(FairWaiters {
            tickets: [
                LockWaits::new(alloc)?,
                LockWaits::new(alloc)?,
                LockWaits::new(alloc)?,
                LockWaits::new(alloc)?,
                LockWaits::new(alloc)?,
                LockWaits::new(alloc)?,
                LockWaits::new(alloc)?,
                LockWaits::new(alloc)?,
            ],
            upgrader: LockWaits::new(alloc)?,
            ticketless: LockWaits::new(alloc)?,
            turn: TurnHint::new(),
        })
    }

    /// Ends the section, and spins for a moment, or until the acquisition's ticket has the turn.
    pub(crate) fn spin<A: Arbiter>(
        &self,
        waiting: Waiting,
        state: MutexGuard<'_, FairArbiter<A>>,
    ) -> Acquisition
        ensures { result ≡ waiting.acquisition }
    {
        drop(state);
        if let Some(ticket) = waiting.ticket() {
            self.turn.spin(ticket.number());
        }
        waiting.resumed()
    }

    /// Gives the turn to nobody, ends the section, and spins for a moment, or until the upgrade has the turn.
    pub(crate) fn spin_upgrade<A: Arbiter>(
        &self,
        waiting: WaitingUpgrade<A::Token>,
        state: MutexGuard<'_, FairArbiter<A>>,
    ) -> Upgrade<A::Token>
        ensures { result.pending ≡ waiting.pending }
    {
        self.turn.give(NOBODY);
        drop(state);
        self.turn.spin(UPGRADE);
        waiting.resumed()
    }

    /// Returns where the ticket waits, or a caller without one.
    fn events(&self, ticket: &Option<Ticket>) -> &LockWaits
        ensures { result.now ≡ events_of self.now.tickets self.now.ticketless ticket.now }
    {
        match ticket {
            Some(ticket) => self.ticket_events(ticket.number()),
            None => &self.ticketless,
        }
    }

    fn ticket_events(&self, number: u64) -> &LockWaits
        ensures ticket { result.now ≡ events_of self.now.tickets self.now.ticketless (Some number) }
        ensures place { result.now ≡ slice_index_or self.now.tickets (number % 8) result.now }
    {
        &self.tickets[(number % 8) as usize]
    }

    /// Wakes the ticket with this number.
    pub(crate) fn wake_ticket(&self, number: u64) -> Notified
        ensures there { result.events ≡ slice_index_or self.now.tickets (number % 8) result.events }
        ensures all { result.all ≡ true }
    {
        self.turn.give(number);
        self.ticket_events(number).notify_all()
    }

    /// Wakes the holder whose upgrade waits.
    pub(crate) fn wake_upgrader(&self) -> Notified
        ensures there { result.events ≡ self.now.upgrader }
        ensures all { result.all ≡ true }
    {
        self.turn.give(UPGRADE);
        self.upgrader.notify_all()
    }

    /// Wakes the callers without a ticket.
    pub(crate) fn wake_ticketless(&self) -> Notified
        ensures there { result.events ≡ self.now.ticketless }
        ensures all { result.all ≡ true }
    {
        self.ticketless.notify_all()
    }
}
