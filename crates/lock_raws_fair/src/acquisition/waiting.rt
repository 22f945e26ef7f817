//! An acquisition that waits.
ghost use Rattle.std.specs.Prelude.{◌≡◌};

use super::Acquisition;
use crate::line::Ticket;

/// An acquisition that has a ticket, or can get none. It spins or sleeps.
pub(crate) struct Waiting {
    pub(super) acquisition: Acquisition,
}

impl Waiting {
    /// Returns the ticket, or `None` if the acquisition can get none.
    pub(crate) fn ticket(&self) -> &Option<Ticket>
        ensures { result.now ≡ self.now.acquisition.ticket }
    {
        &self.acquisition.ticket
    }

    /// Ends the pause.
    pub(crate) fn resumed(self) -> Acquisition
        ensures { result ≡ self.acquisition }
    {
        let Waiting { acquisition } = self;
        acquisition
    }
}
