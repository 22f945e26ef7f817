//! Why a plan is wrong.
use std::alloc::{AllocError, AllocFailed};
use std::fmt;

/// Why an act of a plan is wrong.
#[derive(Clone, Copy, PartialEq, Eq, Debug)]
pub enum CallFault {
    /// No lock has that number.
    UnknownLock,
    /// This kind of lock does not have the call.
    WrongKind,
    /// The party does not hold the lock in the mode that the call releases or changes.
    NotHeld,
    /// The party holds as many levels as the limit.
    TooManyLevels,
    /// The party has announced itself already.
    AlreadyAnnounced,
    /// The party has not announced itself.
    NotAnnounced,
    /// The call is a try to acquire a fair lock. Whether it is refused depends on who came before, which a plan does not say.
    TriesFair,
    /// Two ways lead to the next place, and the party holds something else by each.
    HoldsDiffer,
    /// No earlier place leads to this one.
    Unreached,
}

impl fmt::Display for CallFault {
    fn fmt<W: fmt::Write>(&self, f: &mut fmt::Formatter<W>) -> fmt::Result {
        f.write_str(match self {
            CallFault::UnknownLock => "unknown lock",
            CallFault::WrongKind => "wrong kind of lock",
            CallFault::NotHeld => "not held",
            CallFault::TooManyLevels => "too many levels",
            CallFault::AlreadyAnnounced => "announced already",
            CallFault::NotAnnounced => "not announced",
            CallFault::TriesFair => "try of a fair lock",
            CallFault::HoldsDiffer => "holds differ",
            CallFault::Unreached => "never reached",
        })
    }
}

/// Why there is no plan.
#[derive(Clone, Copy, PartialEq, Eq, Debug)]
pub enum PlanFault {
    /// The act at this place of this party, both counted from 0, is wrong. It is the first such act.
    Call(usize, usize, CallFault),
    /// The plan has more nodes than a number can count.
    TooLarge,
    OutOfMemory,
}

impl From<AllocError> for PlanFault {
    ghost use Rattle.std.specs.Prelude.{◌≡◌};
    ghost use Rattle.lock_plan.specs.declared.fault.PlanFault.TheVariants.{OutOfMemory};

    ghost from_gives = { λ _ fault. fault ≡ OutOfMemory };

    fn from(_fault: AllocError) -> PlanFault {
        PlanFault::OutOfMemory
    }
}

impl<T: Drop> From<AllocFailed<T>> for PlanFault {
    ghost use Rattle.std.specs.Prelude.{◌≡◌};
    ghost use Rattle.lock_plan.specs.declared.fault.PlanFault.TheVariants.{OutOfMemory};

    ghost from_gives = { λ _ fault. fault ≡ OutOfMemory };

    fn from(_fault: AllocFailed<T>) -> PlanFault {
        PlanFault::OutOfMemory
    }
}
