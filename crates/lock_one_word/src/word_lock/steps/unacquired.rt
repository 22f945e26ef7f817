//! A call that its first exchange has not ended.
ghost use Rattle.std.specs.Prelude.{◌≡◌, ◌≤◌};
ghost use Rattle.lock_one_word.specs.Drives.{at, unacquired_at};

use crate::word_lock::steps::looked::Looked;
use crate::word_lock::steps::pending::Pending;

/// A call that acquires or upgrades, which its first load did not admit or admitted with S, or whose first exchange found
/// another word.
pub(crate) struct Unacquired {
    pub(super) looked: Looked,
    pub(super) found: Option<u64>,
}

impl Unacquired {
    /// Goes on with the call by the machine.
    pub(crate) fn into_pending(self) -> Pending
        ensures goes { at result ≡ unacquired_at self }
        ensures few { result.exchanges ≤ 1 }
    {
        let Unacquired { looked, found } = self;
        let mut pending = looked.into_pending();
        if let Some(found) = found {
            pending.count();
            pending.go_on(found);
        }
        pending
    }
}
