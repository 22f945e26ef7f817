//! What one party holds of a lock.
ghost use Rattle.std.specs.Prelude.{◌≡◌, ◌-◌, ◌<◌, ◌^◌, IsTrue};

use crate::{Bag, LockStep, Mode, ModeStep};

/// What one party holds of a lock: a bag of modes, and whether it has announced itself.
#[derive(Clone, Copy, PartialEq, Eq, Debug)]
pub struct Hold {
    pub bag: Bag,
    /// The party set the bar: it is going to write, and no other party is admitted.
    pub announced: bool,
}

impl Hold {
    ghost use Rattle.lock_modes.specs.Modes.{tokens};
    ghost use Rattle.lock_modes.specs.Holds.{no_hold, hold_has, hold_after};

    /// Makes the empty hold.
    pub fn none() -> Hold
        ensures { result ≡ no_hold }
    {
        Hold {
            bag: Bag::empty(),
            announced: false,
        }
    }

    /// Returns whether the hold has what the step releases, changes or clears.
    pub fn has(&self, step: LockStep) -> bool
        ensures { result ≡ hold_has self.now step }
    {
        match step {
            LockStep::Modes(step) => self.bag.has(step),
            LockStep::Announce => true,
            LockStep::Withdraw => self.announced,
        }
    }

    /// Returns the hold after the step. Acquiring exclusively clears the announcement.
    pub fn after(self, step: LockStep) -> Hold
        requires had { IsTrue (hold_has self step) }
        requires room { tokens self.bag < 2 ^ 64 - 1 }
        ensures { result ≡ hold_after self step }
    {
        match step {
            LockStep::Modes(ModeStep::Acquire(Mode::Exclusive)) => Hold {
                bag: self.bag.one_more(Mode::Exclusive),
                announced: false,
            },
            LockStep::Modes(step) => Hold {
                bag: self.bag.after(step),
                ..self
            },
            LockStep::Announce => Hold {
                announced: true,
                ..self
            },
            LockStep::Withdraw => Hold {
                announced: false,
                ..self
            },
        }
    }
}
