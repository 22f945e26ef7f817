//! A place at which a party blocks for a lock while it holds one.
ghost use Rattle.std.specs.Prelude.{◌≡◌, not};
ghost use Rattle.std.specs.List.{list_all};
ghost use Rattle.lock_modes.specs.Modes.{tokens};
ghost use Rattle.lock_plan_order.specs.WaitChecks.{holds_some, wait_at, wait_by, wait_of};

use crate::lookups::are_free;
use lock_modes::{LockStep, Mode, ModeStep};
use lock_plan::{Act, Holds};

/// A party that runs the program blocks at the place for the lock, and holds something there.
#[derive(Clone, Copy, PartialEq, Eq, Debug)]
pub(crate) struct WaitPlace {
    pub(crate) program: usize,
    pub(crate) place: usize,
    pub(crate) lock: usize,
    pub(crate) mode: Mode,
}

impl WaitPlace {
    /// Returns the wait at a place of a program, if its act blocks for a lock and a party holds something there.
    pub(crate) fn at(
        program: usize,
        place: usize,
        here: Option<Act>,
        held: &Option<Holds>,
    ) -> Option<WaitPlace>
        ensures { result ≡ wait_at program place here held.now }
    {
        match held {
            None => None,
            Some(holds) => {
                if holds_some(holds) {
                    WaitPlace::of(program, place, here)
                } else {
                    None
                }
            }
        }
    }

    fn of(program: usize, place: usize, here: Option<Act>) -> Option<WaitPlace>
        ensures { result ≡ wait_of program place here }
    {
        match here {
            Some(Act::Call(call)) => WaitPlace::by(program, place, call.lock, call.step),
            _ => None,
        }
    }

    fn by(program: usize, place: usize, lock: usize, step: LockStep) -> Option<WaitPlace>
        ensures { result ≡ wait_by program place lock step }
    {
        match step {
            LockStep::Modes(ModeStep::Acquire(mode)) => Some(WaitPlace {
                program,
                place,
                lock,
                mode,
            }),
            _ => None,
        }
    }
}

fn holds_some(holds: &Holds) -> bool
    ensures { result ≡ holds_some holds.now }
{
    !are_free(holds)
}
