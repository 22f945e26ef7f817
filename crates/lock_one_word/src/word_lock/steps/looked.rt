//! A call that acquires, after its first load.
ghost use Rattle.std.specs.Prelude.{◌≡◌, true, IfSome};
ghost use Rattle.lock_one.specs.declared.action.Action.TheVariants.{End};
ghost use Rattle.lock_one.specs.Machine.{next_of};
ghost use Rattle.lock_one_word.specs.Drives.{at, looked_at, first_end, Admits};

use crate::word_lock::steps::ended::Ended;
use crate::word_lock::steps::pending::Pending;
use lock_one::TURN;
use lock_word::ExWant;

/// A call that acquires or upgrades, after its first load and before its exchange.
///
/// A `Pending` is not made while nothing contends. This has no `Drop`: it ends by the exchange that acquires, or goes on as an
/// `Unacquired`.
pub(crate) struct Looked {
    pub(super) readers: u64,
    pub(super) want: ExWant,
    pub(super) blocks: bool,
    pub(super) word: u64,
}

impl Looked {
    /// Returns the word that the exchange leaves, where the loaded word admits the call and has neither the turn of readers
    /// nor the bit of sleepers.
    pub(super) fn exchanged(&self) -> Option<u64>
        ensures { IfSome result (Admits self.now) }
    {
        if self.word >= TURN {
            return None;
        }
        self.want.exchanged(false, self.readers, self.word)
    }

    /// Ends the call after the exchange that acquired.
    pub(super) fn end(self, found: u64) -> Ended
        requires { (next_of found (looked_at self).0).1 ≡ End true }
        ensures { result ≡ first_end self }
    {
        let Looked {
            readers,
            want,
            blocks,
            word,
        } = self;
        Ended {
            readers,
            upgrades: matches!(want, ExWant::Upgrade),
            blocks,
            acquired: true,
            word,
            late: false,
            exchanges: 1,
        }
    }

    /// Goes on with the call by the machine.
    pub(super) fn into_pending(self) -> Pending
        ensures goes { at result ≡ looked_at self }
        ensures fresh { result.exchanges ≡ 0 }
    {
        let Looked {
            readers,
            want,
            blocks,
            word,
        } = self;
        let mut pending = Pending::acquire(readers, want, blocks);
        pending.go_on(word);
        pending
    }
}
