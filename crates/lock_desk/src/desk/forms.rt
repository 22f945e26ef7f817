//! Further names of calls: the forms with a timeout or a deadline, and the fair form of `park`.
ghost use Rattle.std.specs.Prelude.{◌≡◌};
ghost use Rattle.lock_modes.specs.Party.{id_of};
ghost use Rattle.lock_machine.specs.Calls as calls;

use crate::desk::Desk;
use lock_machine::{Op, Want};
use lock_modes::{Fault, PartyId, RawState};

impl<R: RawState, T> Desk<R, T> {
    /// `try_lock`, in the form with a timeout.
    pub fn try_lock_for(&mut self, party: PartyId) -> Result<Option<u64>, Fault>
        ensures answer { result ≡ (calls.acquire self.old Want.Lock (id_of party)).answer }
        ensures machine { self.new ≡ (calls.acquire self.old Want.Lock (id_of party)).machine }
    {
        self.try_lock(party)
    }

    /// `try_lock`, in the form with a deadline.
    pub fn try_lock_until(&mut self, party: PartyId) -> Result<Option<u64>, Fault>
        ensures answer { result ≡ (calls.acquire self.old Want.Lock (id_of party)).answer }
        ensures machine { self.new ≡ (calls.acquire self.old Want.Lock (id_of party)).machine }
    {
        self.try_lock(party)
    }

    /// `try_read`, in the form with a timeout.
    pub fn try_read_for(&mut self, party: PartyId) -> Result<Option<u64>, Fault>
        ensures answer { result ≡ (calls.acquire self.old Want.Read (id_of party)).answer }
        ensures machine { self.new ≡ (calls.acquire self.old Want.Read (id_of party)).machine }
    {
        self.try_read(party)
    }

    /// `try_read`, in the form with a deadline.
    pub fn try_read_until(&mut self, party: PartyId) -> Result<Option<u64>, Fault>
        ensures answer { result ≡ (calls.acquire self.old Want.Read (id_of party)).answer }
        ensures machine { self.new ≡ (calls.acquire self.old Want.Read (id_of party)).machine }
    {
        self.try_read(party)
    }

    /// `try_write`, in the form with a timeout.
    pub fn try_write_for(&mut self, party: PartyId) -> Result<Option<u64>, Fault>
        ensures answer { result ≡ (calls.acquire self.old Want.Write (id_of party)).answer }
        ensures machine { self.new ≡ (calls.acquire self.old Want.Write (id_of party)).machine }
    {
        self.try_write(party)
    }

    /// `try_write`, in the form with a deadline.
    pub fn try_write_until(&mut self, party: PartyId) -> Result<Option<u64>, Fault>
        ensures answer { result ≡ (calls.acquire self.old Want.Write (id_of party)).answer }
        ensures machine { self.new ≡ (calls.acquire self.old Want.Write (id_of party)).machine }
    {
        self.try_write(party)
    }

    /// `try_upgradable_read`, in the form with a timeout.
    pub fn try_upgradable_read_for(&mut self, party: PartyId) -> Result<Option<u64>, Fault>
        ensures answer { result ≡ (calls.acquire self.old Want.UpgradableRead (id_of party)).answer }
        ensures machine { self.new ≡ (calls.acquire self.old Want.UpgradableRead (id_of party)).machine }
    {
        self.try_upgradable_read(party)
    }

    /// `try_upgradable_read`, in the form with a deadline.
    pub fn try_upgradable_read_until(&mut self, party: PartyId) -> Result<Option<u64>, Fault>
        ensures answer { result ≡ (calls.acquire self.old Want.UpgradableRead (id_of party)).answer }
        ensures machine { self.new ≡ (calls.acquire self.old Want.UpgradableRead (id_of party)).machine }
    {
        self.try_upgradable_read(party)
    }

    /// `park`, in its fair form.
    pub fn park_fair(&mut self, party: PartyId, guard: u64) -> Result<(), Fault>
        ensures answer { result ≡ (calls.park self.old (id_of party) guard).answer }
        ensures machine { self.new ≡ (calls.park self.old (id_of party) guard).machine }
    {
        self.park(party, guard)
    }

    /// `try_upgrade`, in the form with a timeout.
    pub fn try_upgrade_for(&mut self, party: PartyId, guard: u64) -> Result<Option<()>, Fault>
        ensures answer { result ≡ (calls.upgrade self.old (id_of party) guard).answer }
        ensures machine { self.new ≡ (calls.upgrade self.old (id_of party) guard).machine }
    {
        self.try_upgrade(party, guard)
    }

    /// `try_upgrade`, in the form with a deadline.
    pub fn try_upgrade_until(&mut self, party: PartyId, guard: u64) -> Result<Option<()>, Fault>
        ensures answer { result ≡ (calls.upgrade self.old (id_of party) guard).answer }
        ensures machine { self.new ≡ (calls.upgrade self.old (id_of party) guard).machine }
    {
        self.try_upgrade(party, guard)
    }

    /// `try_with_upgraded`, in the form with a timeout.
    pub fn try_with_upgraded_for<O: Op<T>>(
        &mut self,
        party: PartyId,
        guard: u64,
        op: &O,
    ) -> Result<Option<O::Answer>, Fault>
        ensures answer { result ≡ (calls.with_upgraded self.old (id_of party) guard (O.meaning op.now)).answer }
        ensures machine { self.new ≡ (calls.with_upgraded self.old (id_of party) guard (O.meaning op.now)).machine }
    {
        self.try_with_upgraded(party, guard, op)
    }

    /// `try_with_upgraded`, in the form with a deadline.
    pub fn try_with_upgraded_until<O: Op<T>>(
        &mut self,
        party: PartyId,
        guard: u64,
        op: &O,
    ) -> Result<Option<O::Answer>, Fault>
        ensures answer { result ≡ (calls.with_upgraded self.old (id_of party) guard (O.meaning op.now)).answer }
        ensures machine { self.new ≡ (calls.with_upgraded self.old (id_of party) guard (O.meaning op.now)).machine }
    {
        self.try_with_upgraded(party, guard, op)
    }
}
