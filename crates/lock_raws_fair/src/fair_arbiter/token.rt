//! The tokens of a fair lock, and the upgrades that wait.
use lock_modes::Mode;

/// A token and its mode. Only a `FairArbiter` makes one. It cannot be copied or dropped: `give_back` ends it.
pub struct FairToken<T> {
    pub(super) token: T,
    pub(super) mode: Mode,
}

impl<T> FairToken<T> {
    ghost use Rattle.std.specs.Prelude.{◌≡◌, true};
    ghost use Rattle.lock_raws_monitor.specs.ModeTokens.{same_mode};

    /// Returns the mode.
    pub fn mode(&self) -> Mode
        ensures mode { result ≡ self.now.mode }
        ensures same { same_mode result self.now.mode ≡ true }
    {
        self.mode
    }
}

/// An upgradable token whose upgrade waits, or is about to. Only `FairArbiter::upgrade` and `FairArbiter::withdraw` consume it,
/// and they end its announcement.
pub struct PendingUpgrade<T> {
    pub(super) token: FairToken<T>,
    pub(super) announced: bool,
}

impl<T> PendingUpgrade<T> {
    ghost use Rattle.std.specs.Prelude.{◌≡◌, false};

    /// Makes an upgrade that is not announced.
    pub fn of(token: FairToken<T>) -> PendingUpgrade<T>
        ensures { result ≡ record { token = token; announced = false } }
    {
        PendingUpgrade {
            token,
            announced: false,
        }
    }
}
