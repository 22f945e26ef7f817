//! A release that its first steps have not ended.
ghost use Rattle.std.specs.Prelude.{◌≡◌};
ghost use Rattle.lock_one_word.specs.Drives.{at, unreleased_at};

use crate::word_lock::steps::pending::Pending;
use crate::word_lock::steps::releasing::Releasing;

/// A call that releases or downgrades, after its load and the subtraction, or after one step alone.
pub(crate) struct Unreleased {
    pub(super) releasing: Releasing,
    pub(super) looked: Option<u64>,
    pub(super) found: u64,
}

impl Unreleased {
    /// Goes on with the call by the machine.
    pub(crate) fn into_pending(self) -> Pending
        ensures { at result ≡ unreleased_at self }
    {
        let Unreleased {
            releasing,
            looked,
            found,
        } = self;
        let Releasing { readers, down } = releasing;
        let mut pending = Pending::release(readers, down);
        if let Some(looked) = looked {
            pending.go_on(looked);
        }
        pending.go_on(found);
        pending
    }
}
