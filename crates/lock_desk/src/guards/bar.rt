//! The bar of a party that has announced itself.
ghost use Rattle.std.specs.Prelude.{◌≡◌, is_some};
ghost use Rattle.std.specs.Option.{option_map};
ghost use Rattle.lock_modes.specs.Party.{id_of};
ghost use Rattle.lock_modes.specs.Bar.{bar_lets_pass, has_announced};
ghost use Rattle.lock_machine.specs.Register.{with_bar, after_admission};
ghost use Rattle.lock_machine.specs.Sound.{IsBarOf};

use crate::guards::Guards;
use lock_modes::{Mode, PartyId, RawState};

impl<R: RawState> Guards<R> {
    /// Returns whether a party has announced itself.
    pub(crate) fn is_barred(&self) -> bool
        ensures { result ≡ is_some self.now.bar }
    {
        self.bar.is_some()
    }

    /// Returns whether the party has announced itself.
    pub(crate) fn has_announced(&self, party: PartyId) -> bool
        ensures { result ≡ has_announced self.now.bar (id_of party) }
    {
        match self.bar {
            Some(announced) => announced == party,
            None => false,
        }
    }

    /// Sets the bar for a party, or clears it.
    pub(crate) fn set_bar(&mut self, bar: Option<PartyId>)
        requires { IsBarOf self.old.kind (option_map id_of bar) }
        ensures { self.new ≡ with_bar self.old (option_map id_of bar) }
    {
        self.backing.set_bar(bar.is_some());
        self.bar = bar;
    }

    // Returns whether the bar lets the party acquire the mode.
    pub(super) fn bar_lets_pass(&self, party: PartyId, mode: Mode) -> bool
        ensures { result ≡ bar_lets_pass self.now.bar (id_of party) mode }
    {
        mode.passes_bar(self.is_barred(), self.has_announced(party))
    }

    // Clears the bar after an admitted exclusive acquisition.
    pub(super) fn end_bar(&mut self, mode: Mode)
        ensures { self.new ≡ after_admission self.old mode }
    {
        if mode == Mode::Exclusive && self.bar.is_some() {
            self.set_bar(None);
        }
    }
}
