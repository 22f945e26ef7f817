//! Laws of a line and of a fair lock. Each is the contract of a function with an empty body.
ghost use Rattle.lock_raws_fair.specs.LineLaws.{ArrivalsWaitForFew, NobodyIsOvertaken, OvertakingIsBounded, TimedTicketsMayLeave};
ghost use Rattle.lock_raws_fair.specs.declared.line.TheConstants.{TIMED_SPAN};
ghost use Rattle.lock_raws_fair.specs.FairLaws.{IdleLocksAdmit, NobodyPassesAnUpgrade};
ghost use Rattle.lock_raws_fair.specs.FairWaking.{WakesMissNobody};

/// No acquisition is admitted while one that joined the line before it still waits, in any list of permitted steps.
///
/// An acquisition is a ticket, whose number counts those that joined before. It enters or leaves once, after it joined.
pub fn nobody_is_overtaken()
    ensures { NobodyIsOvertaken }
{}

/// While a ticket waits, no more acquisitions are admitted than tickets were before it.
pub fn overtaking_is_bounded()
    ensures { OvertakingIsBounded }
{}

/// After an acquisition arrives, and as long as it waits, no more acquisitions are admitted than waited when it arrived.
///
/// It counts those without a ticket, which pass, too. An upgrade admits nobody: it changes the mode of a token that is held.
pub fn arrivals_wait_for_few()
    ensures { ArrivalsWaitForFew }
{}

/// A ticket of `Line::arrive_timed` may leave as long as it waits.
pub fn timed_tickets_may_leave()
    ensures { TimedTicketsMayLeave TIMED_SPAN }
{}

/// Without tokens each mode is admitted. A lone upgradable token may become exclusive. A reader is admitted next to readers.
///
/// These are facts of admission. None says that a waiter proceeds.
pub fn idle_locks_admit()
    ensures { IdleLocksAdmit }
{}

/// While an upgrade waits, no acquisition is admitted, in any list of permitted steps, until it is admitted or withdrawn.
///
/// The acquisition may have a ticket or none. Each call that changes a `FairArbiter` makes one of these steps: its contract
/// says which.
pub fn nobody_passes_an_upgrade<K>()
    ensures { NobodyPassesAnUpgrade K }
{}

/// A release or a downgrade that unblocks a mode wakes the first ticket.
pub fn wakes_miss_nobody()
    ensures { WakesMissNobody }
{}
