//! The ticket of a waiting acquisition.
use std::marker::Model;

/// The place of one acquisition in a line. Contracts see its number.
///
/// It cannot be copied or dropped: the acquisition that has it enters or leaves.
pub struct Ticket {
    number: u64,
}

impl Model for Ticket {
    ghost use Rattle.std.specs.Prelude.{ℕ};

    ghost Value = { ℕ };

    ghost view = { λ ticket. ticket.number };
}

impl Ticket {
    ghost use Rattle.std.specs.Prelude.{◌≡◌};

    /// Returns how many acquisitions joined the line before this one.
    pub fn number(&self) -> u64
        ensures { result ≡ self.now }
    {
        self.number
    }

    /// Makes the ticket with this number.
    pub(super) fn numbered(number: u64) -> Ticket
        ensures { result ≡ number }
    {
        Ticket { number }
    }

    /// Ends a ticket that has entered or left.
    pub(super) fn end(self) {
        let Ticket { number: _ } = self;
    }
}
