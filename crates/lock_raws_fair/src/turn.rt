//! Whose turn it is: what a waiter looks at before it sleeps.
use crossbeam_utils::CachePadded;
use std::hint::spin_loop;
use std::sync::atomic::{AtomicU64, Ordering};

/// How often a waiter looks for its turn before it sleeps.
const LOOKS: u32 = 2_500;

/// In place of a ticket: nobody has the turn. No lock issues so many tickets.
pub(crate) const NOBODY: u64 = u64::MAX - 1;

/// In place of a ticket: the holder whose upgrade waits has the turn.
pub(crate) const UPGRADE: u64 = u64::MAX;

/// The ticket that was woken last. It is a hint: a waiter that sees a stale one loses a moment, and no wake-up.
#[derive(Drop)]
pub(crate) struct TurnHint {
    /// Spinning waiters load it, so it shares no cache line with the state.
    ticket: CachePadded<AtomicU64>,
}

impl TurnHint {
    pub(crate) fn new() -> TurnHint {
        TurnHint {
            ticket: CachePadded::new(AtomicU64::new(NOBODY)),
        }
    }

    /// Gives the turn to a ticket, to the upgrade, or to nobody.
    pub(crate) fn give(&self, ticket: u64) {
        self.ticket.store(ticket, Ordering::SeqCst);
    }

    /// Spins for a moment, or until the ticket has the turn.
    pub(crate) fn spin(&self, ticket: u64) {
        for _ in 0..LOOKS {
            if self.ticket.load(Ordering::SeqCst) == ticket {
                return;
            }
            spin_loop();
        }
    }
}
