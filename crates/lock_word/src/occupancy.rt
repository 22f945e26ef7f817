//! Which waiters may proceed, and which of them a step unblocks.
ghost use Rattle.std.specs.Prelude.{◌≡◌, ◌<◌, ◌^◌};
ghost use Rattle.lock_modes.specs.Modes.{tokens};
ghost use Rattle.lock_word.specs.Unblocking.{occupancy_of_word, may_proceed, newly_may_proceed, may_upgrade, unblocks};

use crate::word::{EXCLUSIVE, UPGRADABLE, has_bar};
use lock_modes::{Bag, Mode, ModeStep};

/// The held modes, and whether the bar is set.
#[derive(Clone, Copy, PartialEq, Eq, Debug)]
pub struct Occupancy {
    pub bag: Bag,
    pub barred: bool,
}

impl Occupancy {
    /// Decodes a packed word.
    pub fn of_word(word: u64) -> Occupancy
        ensures decoded { result ≡ occupancy_of_word word }
        ensures few { tokens result.bag < 2 ^ 64 }
    {
        let upgradable = word / UPGRADABLE % 2;
        let bag = Bag {
            shared: (word % UPGRADABLE).saturating_sub(upgradable),
            exclusive: word / EXCLUSIVE % 2,
            upgradable,
        };
        Occupancy {
            bag,
            barred: has_bar(word),
        }
    }

    /// Returns whether a waiter for the mode may proceed.
    fn may_proceed(self, readers: u64, mode: Mode) -> bool
        requires { tokens self.bag < 2 ^ 64 }
        ensures { result ≡ may_proceed readers self mode }
    {
        mode.passes_bar(self.barred, true) && self.bag.admits(readers, mode)
    }

    /// Returns whether a waiter for an upgrade may proceed.
    fn may_upgrade(self) -> bool
        requires { tokens self.bag < 2 ^ 64 }
        ensures { result ≡ may_upgrade self }
    {
        self.bag
            .has(ModeStep::Change(Mode::Upgradable, Mode::Exclusive))
            && self.bag.may_become(Mode::Exclusive)
    }
}

/// Returns whether a waiter may proceed after a step that could not before it.
pub fn unblocks(readers: u64, before: Occupancy, after: Occupancy) -> bool
    requires before_small { tokens before.bag < 2 ^ 64 }
    requires after_small { tokens after.bag < 2 ^ 64 }
    ensures { result ≡ unblocks readers before after }
{
    newly_may_proceed(readers, before, after, Mode::Shared)
        || newly_may_proceed(readers, before, after, Mode::Exclusive)
        || newly_may_proceed(readers, before, after, Mode::Upgradable)
        || !before.may_upgrade() && after.may_upgrade()
}

/// Returns whether a waiter for the mode may proceed after a step that could not before it.
fn newly_may_proceed(readers: u64, before: Occupancy, after: Occupancy, mode: Mode) -> bool
    requires before_small { tokens before.bag < 2 ^ 64 }
    requires after_small { tokens after.bag < 2 ^ 64 }
    ensures { result ≡ newly_may_proceed readers before after mode }
{
    !before.may_proceed(readers, mode) && after.may_proceed(readers, mode)
}
