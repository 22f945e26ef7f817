//! Announcing a writer.
ghost use Rattle.std.specs.Prelude.{◌≡◌};
ghost use Rattle.lock_modes.specs.Party.{id_of};
ghost use Rattle.lock_machine.specs.Calls as calls;

use crate::desk::Desk;
use lock_modes::{Fault, PartyId, RawState};

impl<R: RawState, T> Desk<R, T> {
    /// Announces that the party is going to write. Until it acquires exclusively or withdraws, no other acquisition is
    /// admitted. `Barred` if any party has announced itself already.
    pub fn announce(&mut self, party: PartyId) -> Result<(), Fault>
        ensures answer { result ≡ (calls.announce self.old (id_of party)).answer }
        ensures machine { self.new ≡ (calls.announce self.old (id_of party)).machine }
    {
        if !self.guards.kind().is_rwlock() {
            return Err(Fault::WrongKind);
        }
        if self.guards.is_barred() {
            return Err(Fault::Barred);
        }
        self.guards.set_bar(Some(party));
        Ok(())
    }

    /// Withdraws the party's announcement. `NotAnnounced` if there is none.
    pub fn withdraw(&mut self, party: PartyId) -> Result<(), Fault>
        ensures answer { result ≡ (calls.withdraw self.old (id_of party)).answer }
        ensures machine { self.new ≡ (calls.withdraw self.old (id_of party)).machine }
    {
        if !self.guards.kind().is_rwlock() {
            return Err(Fault::WrongKind);
        }
        if !self.guards.has_announced(party) {
            return Err(Fault::NotAnnounced);
        }
        self.guards.set_bar(None);
        Ok(())
    }

    /// Returns whether a party has announced itself.
    pub fn is_barred(&self) -> Result<bool, Fault>
        ensures { result ≡ (calls.is_barred self.now).answer }
    {
        if self.guards.kind().is_rwlock() {
            Ok(self.guards.is_barred())
        } else {
            Err(Fault::WrongKind)
        }
    }
}
