//! Exchanges of the word.
ghost use Rattle.std.specs.Prelude.{◌≡◌};

use crate::word::{BAR, EXCLUSIVE, UPGRADABLE};
use lock_modes::{LockStep, Mode, ModeStep};

/// What an exchange of the word acquires or sets.
#[derive(Clone, Copy, PartialEq, Eq, Debug)]
pub enum ExWant {
    /// Acquires shared.
    Shared,
    /// Acquires exclusively.
    Exclusive,
    /// Acquires upgradable.
    Upgradable,
    /// Upgrades an upgradable hold to an exclusive one.
    Upgrade,
    /// Sets the bar, which keeps all other parties out.
    Announce,
}

impl ExWant {
    ghost use Rattle.lock_word.specs.Word.{want_of_mode, step_of_want, word_exchanged};

    /// Returns the exchange that acquires the mode.
    pub fn of_mode(mode: Mode) -> ExWant
        ensures { result ≡ want_of_mode mode }
    {
        match mode {
            Mode::Shared => ExWant::Shared,
            Mode::Exclusive => ExWant::Exclusive,
            Mode::Upgradable => ExWant::Upgradable,
        }
    }

    /// Returns the step on the modes and the bar.
    pub fn step(self) -> LockStep
        ensures { result ≡ step_of_want self }
    {
        let step = match self {
            ExWant::Shared => ModeStep::Acquire(Mode::Shared),
            ExWant::Exclusive => ModeStep::Acquire(Mode::Exclusive),
            ExWant::Upgradable => ModeStep::Acquire(Mode::Upgradable),
            ExWant::Upgrade => ModeStep::Change(Mode::Upgradable, Mode::Exclusive),
            ExWant::Announce => return LockStep::Announce,
        };
        LockStep::Modes(step)
    }

    /// Returns the word to exchange for the loaded one, or `None` if the loaded word does not admit what is wanted. At
    /// most `readers` may read; `announced` says whether the party set the bar.
    pub fn exchanged(self, announced: bool, readers: u64, loaded: u64) -> Option<u64>
        ensures { result ≡ word_exchanged announced readers loaded self }
    {
        match self {
            ExWant::Shared if loaded < EXCLUSIVE && loaded % UPGRADABLE < readers => {
                Some(loaded + 1)
            }
            ExWant::Exclusive if loaded == 0 || announced && loaded == BAR => Some(EXCLUSIVE),
            ExWant::Upgradable if loaded < UPGRADABLE && loaded % UPGRADABLE < readers => {
                Some(loaded + (UPGRADABLE + 1))
            }
            ExWant::Upgrade if loaded == UPGRADABLE + 1 || loaded == BAR + UPGRADABLE + 1 => {
                Some(loaded + (UPGRADABLE - 1))
            }
            ExWant::Announce if loaded < BAR => Some(loaded + BAR),
            _ => None,
        }
    }
}
