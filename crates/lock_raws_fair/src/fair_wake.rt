//! The owed wake-up of a fair lock.
ghost use Rattle.std.specs.Prelude.{◌≡◌, ◌<◌, ◌^◌, ◌&&◌, ◌==◌, false};
ghost use Rattle.lock_modes.specs.Modes.{tokens};
ghost use Rattle.lock_modes.specs.Tokens.{bag_of_tokens};
ghost use Rattle.lock_raws_fair.specs.declared.line.TheConstants.{TIMED_SPAN};
ghost use Rattle.lock_raws_fair.specs.FairWaking.{Wakes, wakes_next, wakes_first};
ghost use Rattle.lock_raws_fair.specs.Notifying.{NotifiesEach};

use crate::fair_arbiter::FairArbiter;
use crate::line::TIMED_SPAN;
use crate::waiters::FairWaiters;
use lock_modes::Bag;
use lock_raws_monitor::Arbiter;
use lock_wake::Notified;
use lock_word::{Occupancy, unblocks};

/// The owed wake-up of a step of a `FairArbiter`: decided, and not made yet. Contracts see whom it wakes.
///
/// It has no `Drop` and no `Clone`, and `wake` consumes it. So code that loses one does not compile.
pub struct FairWake {
    /// The number of the first ticket that waits.
    ticket: Option<u64>,
    /// Whether the holder whose upgrade waits is woken.
    upgrade: bool,
    /// Whether the callers without a ticket are woken.
    ticketless: bool,
}

/// The notifications that `FairWake::wake` made.
#[derive(Drop)]
pub(crate) struct FairNotified {
    ticket: Option<Notified>,
    upgrade: Option<Notified>,
    ticketless: Option<Notified>,
}

impl FairWake {
    /// Decides whom a step of the line or the end of an upgrade wakes.
    pub fn after_line_step<A: Arbiter>(state: &FairArbiter<A>) -> FairWake
        ensures { Wakes state.now.line TIMED_SPAN
            (wakes_next state.now.upgrade_waits (bag_of_tokens state.now.tokens_out)) false result }
    {
        let is_woken = !state.upgrade_waits() && state.bag().exclusive == 0;
        FairWake::of(state, is_woken, false)
    }

    /// Decides whom a release or a downgrade wakes, from the bag before it.
    #[inline(always)]
    pub fn after_token_step<A: Arbiter>(state: &FairArbiter<A>, before: Bag) -> FairWake
        requires { tokens before < 2 ^ 32 }
        ensures { Wakes state.now.line TIMED_SPAN
            (wakes_first state.now.upgrade_waits state.now.readers before (bag_of_tokens state.now.tokens_out))
            (state.now.upgrade_waits && (tokens (bag_of_tokens state.now.tokens_out) == 1)) result }
    {
        let after = state.bag();
        if state.upgrade_waits() {
            return FairWake::of(state, false, after.tokens() == 1);
        }
        let before = Occupancy {
            bag: before,
            barred: false,
        };
        let after = Occupancy {
            bag: after,
            barred: false,
        };
        FairWake::of(state, unblocks(state.readers(), before, after), false)
    }

    /// Wakes these waiters. Returns a notification for each.
    #[inline(always)]
    pub(crate) fn wake(self, waiters: &FairWaiters) -> FairNotified
        ensures { NotifiesEach self waiters.now result }
    {
        let FairWake {
            ticket,
            upgrade,
            ticketless,
        } = self;
        FairNotified {
            ticket: match ticket {
                Some(number) => Some(waiters.wake_ticket(number)),
                None => None,
            },
            upgrade: if upgrade {
                Some(waiters.wake_upgrader())
            } else {
                None
            },
            ticketless: if ticketless {
                Some(waiters.wake_ticketless())
            } else {
                None
            },
        }
    }

    /// Wakes the first ticket or the upgrade, if they are to be woken.
    #[inline(always)]
    fn of<A: Arbiter>(state: &FairArbiter<A>, first: bool, upgrade: bool) -> FairWake
        ensures { Wakes state.now.line TIMED_SPAN first upgrade result }
    {
        FairWake {
            ticket: if first { state.line().first() } else { None },
            upgrade,
            ticketless: state.line().span() < TIMED_SPAN,
        }
    }
}
