//! The words of calls.

use lock_modes::{LockStep, Mode, ModeStep};

/// Returns the word of a call on a reader-writer lock, or on another lock.
pub(crate) fn step_word(is_rwlock: bool, step: LockStep) -> &'static str {
    match step {
        LockStep::Modes(ModeStep::Acquire(Mode::Shared)) => "read",
        LockStep::Modes(ModeStep::Acquire(Mode::Exclusive)) => {
            if is_rwlock { "write" } else { "lock" }
        }
        LockStep::Modes(ModeStep::Acquire(Mode::Upgradable)) => "upgradable_read",
        LockStep::Modes(ModeStep::Release(Mode::Shared)) => "unlock_read",
        LockStep::Modes(ModeStep::Release(Mode::Exclusive)) => {
            if is_rwlock { "unlock_write" } else { "unlock" }
        }
        LockStep::Modes(ModeStep::Release(Mode::Upgradable)) => "unlock_upgradable",
        LockStep::Modes(ModeStep::Change(_, Mode::Exclusive)) => "upgrade",
        LockStep::Modes(ModeStep::Change(_, Mode::Upgradable)) => "downgrade_to_upgradable",
        LockStep::Modes(ModeStep::Change(Mode::Upgradable, Mode::Shared)) => "downgrade_upgradable",
        LockStep::Modes(ModeStep::Change(_, Mode::Shared)) => "downgrade",
        LockStep::Announce => "announce",
        LockStep::Withdraw => "withdraw",
    }
}
