//! Raw states that can be observed.
ghost use Rattle.std.specs.Prelude.{◌≡◌, ◌<◌, length, ◌↔◌, IsTrue};
ghost use Rattle.lock_modes.specs.Tokens.{bag_of_tokens, IsOutAs};

use crate::{Bag, Mode, RawState};

/// A raw state that says which tokens are held. Observing changes neither tokens nor limits nor the bar.
pub trait ObservableState: RawState {
    /// Returns how many tokens of each mode are held.
    fn bag(&self) -> Bag
        ensures { result ≡ bag_of_tokens (Self.tokens self.now) };

    /// Returns how many tokens may be shared or upgradable.
    fn readers(&self) -> u64
        ensures { result ≡ Self.reader_limit self.now };

    /// Returns whether one more token fits.
    fn room(&self) -> bool
        ensures { IsTrue result ↔ (length (Self.tokens self.now) < Self.capacity self.now) };

    /// Returns whether this token is held in this mode.
    fn out(&mut self, token: &Self::Token, mode: Mode) -> bool
        ensures out { IsTrue result ↔ IsOutAs (Self.tokens self.old) token.now mode }
        ensures tokens_kept { Self.tokens self.new ≡ Self.tokens self.old }
        ensures bar_kept { Self.bar self.new ≡ Self.bar self.old }
        ensures capacity_kept { Self.capacity self.new ≡ Self.capacity self.old }
        ensures limit_kept { Self.reader_limit self.new ≡ Self.reader_limit self.old };
}
