//! Subtractions from the word.
ghost use Rattle.std.specs.Prelude.{◌≡◌};

use crate::word::{BAR, EXCLUSIVE, UPGRADABLE};
use lock_modes::{LockStep, Mode, ModeStep};

/// What a subtraction from the word releases or downgrades.
#[derive(Clone, Copy, PartialEq, Eq, Debug)]
pub enum Down {
    /// Releases a shared hold.
    Shared,
    /// Releases an exclusive hold.
    Exclusive,
    /// Releases an upgradable hold.
    Upgradable,
    /// Downgrades an exclusive hold to a shared one.
    ToShared,
    /// Downgrades an exclusive hold to an upgradable one.
    ToUpgradable,
    /// Downgrades an upgradable hold to a shared one.
    UpgradableToShared,
    /// Clears the bar of the party that set it.
    Withdraw,
}

impl Down {
    ghost use Rattle.lock_word.specs.Word.{down_of_mode, step_of_down, amount};

    /// Returns the subtraction that releases the mode.
    pub fn of_mode(mode: Mode) -> Down
        ensures { result ≡ down_of_mode mode }
    {
        match mode {
            Mode::Shared => Down::Shared,
            Mode::Exclusive => Down::Exclusive,
            Mode::Upgradable => Down::Upgradable,
        }
    }

    /// Returns the step on the modes and the bar.
    pub fn step(self) -> LockStep
        ensures { result ≡ step_of_down self }
    {
        let step = match self {
            Down::Shared => ModeStep::Release(Mode::Shared),
            Down::Exclusive => ModeStep::Release(Mode::Exclusive),
            Down::Upgradable => ModeStep::Release(Mode::Upgradable),
            Down::ToShared => ModeStep::Change(Mode::Exclusive, Mode::Shared),
            Down::ToUpgradable => ModeStep::Change(Mode::Exclusive, Mode::Upgradable),
            Down::UpgradableToShared => ModeStep::Change(Mode::Upgradable, Mode::Shared),
            Down::Withdraw => return LockStep::Withdraw,
        };
        LockStep::Modes(step)
    }

    /// Returns the number to subtract.
    pub fn amount(self) -> u64
        ensures { result ≡ amount self }
    {
        match self {
            Down::Shared => 1,
            Down::Exclusive => EXCLUSIVE,
            Down::Upgradable => UPGRADABLE + 1,
            Down::ToShared => EXCLUSIVE - 1,
            Down::ToUpgradable => UPGRADABLE - 1,
            Down::UpgradableToShared => UPGRADABLE,
            Down::Withdraw => BAR,
        }
    }
}
