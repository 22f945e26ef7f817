//! The calls of a raw lock.
ghost use Rattle.std.specs.Prelude.{◌≡◌, ⊤};
ghost use Rattle.lock_recorder.specs.ModeWords.{word_of};

use lock_modes::Mode;
use std::alloc::AllocError;

/// A call of a raw lock, with its time if it has one. The tokens of a raw mutex count as exclusive.
#[derive(Copy, PartialEq, Eq, Debug)]
pub enum RawCall {
    Lock(Mode),
    TryLock(Mode),
    TryLockFor(Mode, u64),
    TryLockUntil(Mode, u64),
    Unlock(Mode),
    UnlockFair(Mode),
    Bump(Mode),
    Upgrade,
    TryUpgrade,
    TryUpgradeFor(u64),
    TryUpgradeUntil(u64),
    Downgrade,
    DowngradeUpgradable,
    DowngradeToUpgradable,
    IsLocked,
    IsLockedExclusive,
}

impl Clone for RawCall {
    ghost is_clone = { λ call copy. copy ≡ call };

    ghost is_infallible = { λ _. ⊤ };

    fn clone(&self) -> Result<RawCall, AllocError> {
        Ok(*self)
    }
}

impl RawCall {
    ghost use Rattle.std.specs.Prelude.{◌++◌, OnOk, string_bytes};
    ghost use Rattle.lock_recorder.specs.RawCalls.{call_name, raw_call_line};

    /// Appends the call's line: two spaces, and the name that the raw traits of a reader-writer lock give it,
    /// without its time.
    pub fn write_line(self, text: &mut String) -> Result<(), AllocError>
        ensures { OnOk result (string_bytes text.new ≡ string_bytes text.old ++ raw_call_line self) }
    {
        let (verb, mode, end) = self.words();
        text.push_str("  ")?;
        text.push_str(verb)?;
        text.push_str(mode)?;
        text.push_str(end)?;
        text.push('\n')
    }

    /// Returns the parts of the name: what comes before the mode, the mode, and what comes after it.
    fn words(self) -> (&'static str, &'static str, &'static str)
        ensures { result.0.now ++ result.1.now ++ result.2.now ≡ call_name self }
    {
        match self {
            RawCall::Lock(mode) => ("lock_", mode_word(mode), ""),
            RawCall::TryLock(mode) => ("try_lock_", mode_word(mode), ""),
            RawCall::TryLockFor(mode, _) => ("try_lock_", mode_word(mode), "_for"),
            RawCall::TryLockUntil(mode, _) => ("try_lock_", mode_word(mode), "_until"),
            RawCall::Unlock(mode) => ("unlock_", mode_word(mode), ""),
            RawCall::UnlockFair(mode) => ("unlock_", mode_word(mode), "_fair"),
            RawCall::Bump(mode) => ("bump_", mode_word(mode), ""),
            RawCall::Upgrade => ("upgrade", "", ""),
            RawCall::TryUpgrade => ("try_upgrade", "", ""),
            RawCall::TryUpgradeFor(_) => ("try_upgrade_for", "", ""),
            RawCall::TryUpgradeUntil(_) => ("try_upgrade_until", "", ""),
            RawCall::Downgrade => ("downgrade", "", ""),
            RawCall::DowngradeUpgradable => ("downgrade_upgradable", "", ""),
            RawCall::DowngradeToUpgradable => ("downgrade_to_upgradable", "", ""),
            RawCall::IsLocked => ("is_locked", "", ""),
            RawCall::IsLockedExclusive => ("is_locked_exclusive", "", ""),
        }
    }
}

/// Returns the word for a mode.
fn mode_word(mode: Mode) -> &'static str
    ensures { result.now ≡ word_of mode }
{
    match mode {
        Mode::Shared => "shared",
        Mode::Exclusive => "exclusive",
        Mode::Upgradable => "upgradable",
    }
}
