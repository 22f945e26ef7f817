//! The owner of a reentrant lock, its levels and its token, in a table that calls compare by one load.
mod call;
mod large;
mod rule;

ghost use Rattle.std.specs.Prelude.{◌≡◌, ◌≢◌, ◌<◌, ◌≤◌, ◌^◌, ℕ, IfOk, IfErr, IfSome};
ghost use Rattle.lock_modes.specs.Limits.{IsLimit};
ghost use Rattle.lock_modes.specs.Levels.{Levels, GivesTokenBack};
ghost use Rattle.lock_modes.specs.Party.{id_of};
ghost use Rattle.lock_remutex.specs.declared.owner_table.rule.OwnerStep.TheVariants.{Saw, Made};
ghost use Rattle.lock_remutex.specs.OwnerTables.{party_in, count_in, word_at, IsIdle, OwnerFits};
ghost use Rattle.lock_remutex.specs.OwnerCalls.{Again, First, Leaves, LeavesSole};

use atomic_table::{Refused, Table};
pub(crate) use call::Level;
pub use call::OwnerCall;
use lock_guard::forget;
use lock_modes::{Fault, Levels, PartyId};
pub use rule::{OwnerKey, OwnerRule, OwnerView, TokenRule};
use std::alloc::{AllocError, AllocFailed, Global};
use std::marker::Model;
use std::sync::Wait;

/// The index of the owner word.
///
/// The word is `FREE`, `BUSY`, `LARGE`, or the owner's id in its high half and the number of its levels in its low half.
const OWNER: usize = 0;

/// The owner word while there is no owner.
const FREE: u64 = 0;

/// The owner word while a call has taken the levels.
const BUSY: u64 = 1;

/// The owner word while the owner's id does not fit into it.
const LARGE: u64 = 2;

/// The owner word of the party 1 at no level. Ids fit into the owner word below it.
const PARTY: u64 = 1 << 32;

/// The owner of a reentrant lock, its levels and its token.
///
/// The owner word names the owner and counts its levels, so a further level is one load and one exchange. A call that
/// makes an owner, or takes the last level, takes the levels from the slot and puts them back. No call waits for an owner.
/// A call by an id that does not fit takes the levels if an owner's id does not fit either, and yields while they are out.
pub struct OwnerTable<K, T, P: TokenRule<K, T>> {
    table: Table<Option<Levels<T>>, OwnerView<K, T>, OwnerKey<K>, OwnerRule<P>, Global>,
    limit: u64,
}

impl<K, T, P: TokenRule<K, T>> Model for OwnerTable<K, T, P> {
    ghost use Rattle.std.specs.Prelude.{◌≡◌};
    ghost use Rattle.lock_modes.specs.Limits.{IsLimit};
    ghost use Rattle.lock_remutex.specs.OwnerTables.{TableView};

    ghost Value = { TableView K };

    ghost view = { λ t. record { id = t.table.shared.table_id; key = t.table.shared.key } };

    ghost invariant = { λ t. (t.table.shared.table_id.words ≡ 1) × (t.table.shared.table_id.slots ≡ 1)
        × (t.limit ≡ t.table.shared.key.limit) × IsLimit t.limit };
}

impl<K, T, P: TokenRule<K, T>> OwnerTable<K, T, P> {
    /// Makes a table without an owner.
    pub fn new(alloc: Global, key: &OwnerKey<K>) -> Result<OwnerTable<K, T, P>, AllocError>
        requires { IsLimit key.now.limit }
        ensures { IfOk result (λ made. made.key ≡ key.now) }
    {
        let Ok(levels) = Levels::new(key.limit) else {
            unreachable!()
        };
        let mut slots = Vec::new(alloc);
        match slots.push(Some(levels)) {
            Ok(()) => {}
            Err(AllocFailed { value }) => {
                // SAFETY: new levels hold no token.
                unsafe { forget(value) };
                slots.destroy_empty();
                return Err(AllocError);
            }
        }
        match Table::new(alloc, &[FREE], slots, key) {
            Ok((table, _)) => Ok(OwnerTable {
                table,
                limit: key.limit,
            }),
            Err(Refused { mut slots }) => {
                // SAFETY: new levels hold no token.
                unsafe { forget(slots.pop()) };
                slots.destroy_empty();
                Err(AllocError)
            }
        }
    }

    /// Adds a level if the party is the owner, or answers false.
    ///
    /// # Errors
    ///
    /// `FullCount` if the owner has as many levels as the limit.
    pub fn again<W: Wait>(&self, rt: &W, party: PartyId) -> (Result<bool, Fault>, OwnerCall<K, T>)
        ensures table { result.1.table ≡ self.now }
        ensures did { Again self.now.key.limit (id_of party) result.0 result.1.step }
        ensures fits { OwnerFits (P.fits self.now.key.raw) result.1.step }
    {
        let id = party.get();
        if id >= PARTY {
            return self.again_large(rt, party);
        }
        for _ in rt.forever() {
            let (word, call) = self.look();
            if word / PARTY != id {
                return (Ok(false), call);
            }
            if word % PARTY == self.limit {
                return (Err(Fault::FullCount), call);
            }
            match self.recount(call, word, word + 1) {
                Ok(call) => return (Ok(true), call),
                Err(call) => call.end(),
            }
        }
        unreachable!()
    }

    /// Makes the party the owner at level 1, or returns the token if there is an owner.
    pub fn first(&self, party: PartyId, token: T) -> (Option<T>, OwnerCall<K, T>)
        requires { P.fits self.now.key.raw token }
        ensures table { result.1.table ≡ self.now }
        ensures did { First (id_of party) token result.0 result.1.step }
        ensures fits { OwnerFits (P.fits self.now.key.raw) result.1.step }
    {
        let (_, call) = self.look();
        let (mut levels, section) = match self.take(call, FREE) {
            Ok(taken) => taken,
            Err(call) => return (Some(token), call),
        };
        let back = levels.first(party, token);
        let word = first_word(party);
        (back, self.put(word, levels, section))
    }

    /// Removes one level of the owner, and returns the token with the last level.
    ///
    /// # Errors
    ///
    /// `Foreign` if the party is not the owner.
    pub fn leave<W: Wait>(
        &self,
        rt: &W,
        party: PartyId,
    ) -> (Result<Option<T>, Fault>, OwnerCall<K, T>)
        ensures table { result.1.table ≡ self.now }
        ensures did { Leaves (id_of party) result.0 result.1.step }
        ensures fits { IfOk result.0 (λ last. IfSome last (P.fits self.now.key.raw)) }
        ensures left { OwnerFits (P.fits self.now.key.raw) result.1.step }
    {
        let id = party.get();
        if id >= PARTY {
            return self.leave_large(rt, party);
        }
        for _ in rt.forever() {
            let (word, call) = self.look();
            if word / PARTY != id {
                return (Err(Fault::Foreign), call);
            }
            if word % PARTY > 1 {
                match self.recount(call, word, word - 1) {
                    Ok(call) => return (Ok(None), call),
                    Err(call) => call.end(),
                }
            } else {
                match self.leave_last(call, party, word) {
                    Ok((token, call)) => return (Ok(Some(token)), call),
                    Err(call) => call.end(),
                }
            }
        }
        unreachable!()
    }

    /// `leave` if the party has one level. With more levels it changes nothing.
    pub fn leave_sole<W: Wait>(
        &self,
        rt: &W,
        party: PartyId,
    ) -> (Result<Option<T>, Fault>, OwnerCall<K, T>)
        ensures table { result.1.table ≡ self.now }
        ensures did { LeavesSole (id_of party) result.0 result.1.step }
        ensures fits { IfOk result.0 (λ last. IfSome last (P.fits self.now.key.raw)) }
    {
        let id = party.get();
        if id >= PARTY {
            return self.leave_sole_large(rt, party);
        }
        for _ in rt.forever() {
            let (word, call) = self.look();
            if word / PARTY != id {
                return (Err(Fault::Foreign), call);
            }
            if word % PARTY > 1 {
                return (Ok(None), call);
            }
            match self.leave_last(call, party, word) {
                Ok((token, call)) => return (Ok(Some(token)), call),
                Err(call) => call.end(),
            }
        }
        unreachable!()
    }

    /// Returns whether the party is the owner. The answer may be stale at once if other threads act for the party.
    pub fn is_owner<W: Wait>(&self, rt: &W, party: PartyId) -> bool {
        let id = party.get();
        if id >= PARTY {
            return self.is_large_owner(rt, party);
        }
        self.table.shared.peek(OWNER) / PARTY == id
    }

    /// Returns whether there is an owner, or a call is about to make one. The answer may be stale at once.
    pub fn is_owned(&self) -> bool {
        self.table.shared.peek(OWNER) != FREE
    }

    /// Takes the only level of the owner that this word names, or returns the call if the word has changed.
    fn leave_last(
        &self,
        call: OwnerCall<K, T>,
        party: PartyId,
        word: u64,
    ) -> Result<(T, OwnerCall<K, T>), OwnerCall<K, T>>
        requires table { call.table ≡ self.now }
        requires saw { call.step ≡ Saw word }
        requires sole { (0 < id_of party) × (party_in word ≡ id_of party) × (count_in word ≡ 1) }
        ensures table { IfOk result (λ left. left.1.table ≡ self.now) }
        ensures did { IfOk result (λ left. (old : Levels T) × (new : Levels T)
            × (left.1.step ≡ Made old new) × GivesTokenBack old new (id_of party) left.0) }
        ensures fits { IfOk result (λ left. P.fits self.now.key.raw left.0) }
        ensures left { IfOk result (λ left. OwnerFits (P.fits self.now.key.raw) left.1.step) }
        ensures idle { IfErr result (λ call. IsIdle call.step) }
    {
        let (mut levels, section) = match self.take(call, word) {
            Ok(taken) => taken,
            Err(call) => return Err(call),
        };
        match levels.leave(party) {
            Ok(Some(token)) => Ok((token, self.put(FREE, levels, section))),
            Ok(None) | Err(_) => unreachable!(),
        }
    }
}

impl<K, T, P: TokenRule<K, T>> Drop for OwnerTable<K, T, P> {
    /// Forgets the levels, whose token need not be `Drop`.
    fn drop(self) {
        let OwnerTable { table, limit: _ } = self;
        let mut closed = table.close();
        // SAFETY: a lock that is dropped while it is owned forgets its token.
        unsafe { forget(closed.take(0)) };
        closed.free();
    }
}

/// Returns the owner word of the party at level 1.
fn first_word(party: PartyId) -> u64
    ensures named { id_of party < 2 ^ 32 → result ≡ word_at (id_of party) 1 }
    ensures large { 2 ^ 32 ≤ id_of party → result ≡ 2 }
{
    let id = party.get();
    if id >= PARTY {
        return LARGE;
    }
    id * PARTY + 1
}
