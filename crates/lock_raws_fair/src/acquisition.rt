//! An acquisition of a fair lock, from its first attempt to its end.
ghost use Rattle.std.specs.Prelude.{◌≡◌, ◌&&◌, true, false, is_ok, is_some, IfOk, IfErr, IfSome, None};
ghost use Rattle.lock_raws_fair.specs.declared.line.TheConstants.{TIMED_SPAN};
ghost use Rattle.lock_raws_fair.specs.Tickets.{is_first};
ghost use Rattle.lock_raws_fair.specs.Sleeping.{may_acquire, may_end, Joins, MaySleep};

mod refused;
mod waiting;

use crate::fair_arbiter::{FairArbiter, FairToken};
use crate::fair_wake::FairWake;
use crate::line::Ticket;
use lock_modes::Mode;
use lock_raws_monitor::Arbiter;
pub(crate) use refused::Refused;
pub(crate) use waiting::Waiting;

/// How many tickets from the first on may spin: no more than a small machine has processors.
const SPINNERS: u64 = 4;

/// An acquisition that looks at the state next. It cannot be copied or dropped: it ends admitted, or leaves if it is timed.
pub(crate) struct Acquisition {
    mode: Mode,
    is_timed: bool,
    ticket: Option<Ticket>,
}

impl Acquisition {
    /// Makes an acquisition without a ticket.
    pub(crate) fn new(mode: Mode, is_timed: bool) -> Acquisition
        ensures { result ≡ record { mode = mode; is_timed = is_timed; ticket = None } }
    {
        Acquisition {
            mode,
            is_timed,
            ticket: None,
        }
    }

    fn with_ticket(mode: Mode, is_timed: bool, ticket: Option<Ticket>) -> Acquisition
        ensures { result ≡ record { mode = mode; is_timed = is_timed; ticket = ticket } }
    {
        Acquisition {
            mode,
            is_timed,
            ticket,
        }
    }
}

impl<A: Arbiter> FairArbiter<A> {
    /// Acquires a token, which ends the acquisition, or refuses it. Also returns the owed wake-up.
    pub(crate) fn attempt(
        &mut self,
        acquisition: Acquisition,
    ) -> Result<(FairToken<A::Token>, Option<FairWake>), Refused>
        ensures admitted { is_ok result ≡ may_acquire self.old acquisition.mode acquisition.ticket }
        ensures mode { IfOk result (λ admitted. admitted.0.mode ≡ acquisition.mode) }
        ensures refused { IfErr result (λ refused. (refused.acquisition ≡ acquisition) × (self.new ≡ self.old)) }
    {
        let Acquisition {
            mode,
            is_timed,
            ticket,
        } = acquisition;
        match ticket {
            Some(ticket) => match self.enter(ticket, mode) {
                Ok((token, woken)) => Ok((token, Some(woken))),
                Err(same) => Err(Refused {
                    acquisition: Acquisition::with_ticket(mode, is_timed, Some(same)),
                }),
            },
            None => match self.pass(mode) {
                Some(token) => Ok((token, None)),
                None => Err(Refused {
                    acquisition: Acquisition::new(mode, is_timed),
                }),
            },
        }
    }

    /// Ends a timed acquisition if its time is over, unless its ticket may not leave. Also returns the owed wake-up.
    pub(crate) fn end_if(
        &mut self,
        is_over: bool,
        refused: Refused,
    ) -> Result<Option<FairWake>, Refused>
        requires timed { is_over ≡ true → refused.acquisition.is_timed ≡ true }
        ensures ends { is_ok result ≡ (is_over && may_end TIMED_SPAN self.old.line refused.acquisition.ticket) }
        ensures stays { IfErr result (λ same. (same ≡ refused) × (self.new ≡ self.old)) }
    {
        if !is_over {
            return Err(refused);
        }
        let Refused { acquisition } = refused;
        let Acquisition {
            mode,
            is_timed,
            ticket,
        } = acquisition;
        match ticket {
            Some(ticket) => match self.leave(ticket) {
                Ok(woken) => Ok(Some(woken)),
                Err(same) => Err(Refused {
                    acquisition: Acquisition::with_ticket(mode, is_timed, Some(same)),
                }),
            },
            None => Ok(None),
        }
    }

    /// Gives a ticket to an acquisition without one, if it can get one. Also returns whether the acquisition may spin, since
    /// its ticket is new and near the first.
    pub(crate) fn join(&mut self, refused: Refused) -> (Waiting, bool)
        requires refused { may_acquire self.old refused.acquisition.mode refused.acquisition.ticket ≡ false }
        ensures joins { Joins TIMED_SPAN self.old.line self.new.line refused.acquisition result.0.acquisition }
        ensures spins { result.1 ≡ true → is_some result.0.acquisition.ticket ≡ true }
        ensures sleeps { result.1 ≡ false → MaySleep self.new result.0.acquisition }
    {
        let Refused { acquisition } = refused;
        let Acquisition {
            mode,
            is_timed,
            ticket,
        } = acquisition;
        if let Some(ticket) = ticket {
            let acquisition = Acquisition::with_ticket(mode, is_timed, Some(ticket));
            return (Waiting { acquisition }, false);
        }
        let joined = if is_timed {
            self.arrive_timed()
        } else {
            self.arrive()
        };
        let spins = self.may_spin(&joined);
        let acquisition = Acquisition::with_ticket(mode, is_timed, joined);
        (Waiting { acquisition }, spins)
    }

    /// Returns whether a new ticket is the first, or near it.
    fn may_spin(&self, ticket: &Option<Ticket>) -> bool
        ensures spins { result ≡ true → is_some ticket.now ≡ true }
        ensures sleeps { result ≡ false → IfSome ticket.now (λ t. is_first self.now.line t ≡ false) }
    {
        match ticket {
            Some(ticket) => self.line().is_first(ticket) || self.line().span() <= SPINNERS,
            None => false,
        }
    }
}
