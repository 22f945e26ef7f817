//! The calls of a party whose id does not fit into the owner word. Each takes the levels.
ghost use Rattle.std.specs.Prelude.{ℕ, ◌≡◌, ◌≢◌, ◌<◌, ◌≤◌, ◌^◌, IfOk, IfErr, IfSome};
ghost use Rattle.lock_modes.specs.Party.{id_of};
ghost use Rattle.lock_remutex.specs.declared.owner_table.rule.OwnerStep.TheVariants.{Saw};
ghost use Rattle.lock_remutex.specs.OwnerTables.{party_in, made_by, IsLarge, OwnerFits};
ghost use Rattle.lock_remutex.specs.OwnerCalls.{Again, Leaves, LeavesSole, IsTaken};

use crate::owner_table::call::{OwnerCall, Section};
use crate::owner_table::rule::TokenRule;
use crate::owner_table::{FREE, LARGE, OwnerTable};
use lock_modes::{Fault, Levels, PartyId};
use std::sync::Wait;
use std::thread;

impl<K, T, P: TokenRule<K, T>> OwnerTable<K, T, P> {
    /// `again`, by a large id.
    #[cold]
    #[inline(never)]
    pub(super) fn again_large<W: Wait>(
        &self,
        rt: &W,
        party: PartyId,
    ) -> (Result<bool, Fault>, OwnerCall<K, T>)
        requires { 2 ^ 32 ≤ id_of party }
        ensures table { result.1.table ≡ self.now }
        ensures did { Again self.now.key.limit (id_of party) result.0 result.1.step }
        ensures fits { OwnerFits (P.fits self.now.key.raw) result.1.step }
    {
        let (mut levels, section) = match self.enter_large(rt, party) {
            Ok(taken) => taken,
            Err(call) => return (Ok(false), call),
        };
        let answer = levels.again(party);
        (answer, self.put_large(levels, section))
    }

    /// `leave`, by a large id.
    #[cold]
    #[inline(never)]
    pub(super) fn leave_large<W: Wait>(
        &self,
        rt: &W,
        party: PartyId,
    ) -> (Result<Option<T>, Fault>, OwnerCall<K, T>)
        requires { 2 ^ 32 ≤ id_of party }
        ensures table { result.1.table ≡ self.now }
        ensures did { Leaves (id_of party) result.0 result.1.step }
        ensures fits { IfOk result.0 (λ last. IfSome last (P.fits self.now.key.raw)) }
        ensures left { OwnerFits (P.fits self.now.key.raw) result.1.step }
    {
        let (mut levels, section) = match self.enter_large(rt, party) {
            Ok(taken) => taken,
            Err(call) => return (Err(Fault::Foreign), call),
        };
        let answer = levels.leave(party);
        (answer, self.put_large(levels, section))
    }

    /// `leave_sole`, by a large id.
    #[cold]
    #[inline(never)]
    pub(super) fn leave_sole_large<W: Wait>(
        &self,
        rt: &W,
        party: PartyId,
    ) -> (Result<Option<T>, Fault>, OwnerCall<K, T>)
        requires { 2 ^ 32 ≤ id_of party }
        ensures table { result.1.table ≡ self.now }
        ensures did { LeavesSole (id_of party) result.0 result.1.step }
        ensures fits { IfOk result.0 (λ last. IfSome last (P.fits self.now.key.raw)) }
    {
        let (mut levels, section) = match self.enter_large(rt, party) {
            Ok(taken) => taken,
            Err(call) => return (Err(Fault::Foreign), call),
        };
        let answer = levels.leave_sole(party);
        (answer, self.put_large(levels, section))
    }

    /// `is_owner`, of a large id.
    #[cold]
    #[inline(never)]
    pub(super) fn is_large_owner<W: Wait>(&self, rt: &W, party: PartyId) -> bool
        requires { 2 ^ 32 ≤ id_of party }
    {
        let (levels, section) = match self.enter_large(rt, party) {
            Ok(taken) => taken,
            Err(call) => {
                call.end();
                return false;
            }
        };
        let level = levels.level(party);
        self.put_large(levels, section).end();
        level > 0
    }

    /// Takes the levels if the owner's id is large, and otherwise returns the call that found that it is not.
    ///
    /// It waits while another call has the levels.
    fn enter_large<W: Wait>(
        &self,
        rt: &W,
        party: PartyId,
    ) -> Result<(Levels<T>, Section<K, T>), OwnerCall<K, T>>
        requires { 2 ^ 32 ≤ id_of party }
        ensures taken { IfOk result (λ taken. IsTaken P.fits self.now 2 taken.0 taken.1) }
        ensures table { IfErr result (λ call. call.table ≡ self.now) }
        ensures saw { IfErr result (λ call. (found : ℕ) × (call.step ≡ Saw found) × (party_in found ≢ id_of party)) }
    {
        for _ in rt.forever() {
            let (word, call) = self.look();
            if word == FREE || word > LARGE {
                return Err(call);
            }
            if word == LARGE {
                match self.take(call, LARGE) {
                    Ok(taken) => return Ok(taken),
                    Err(call) => call.end(),
                }
            } else {
                call.end();
            }
            thread::yield_now();
        }
        unreachable!()
    }

    /// Puts the levels back, which have no owner or one with a large id.
    fn put_large(&self, levels: Levels<T>, section: Section<K, T>) -> OwnerCall<K, T>
        requires table { section.table ≡ self.now }
        requires large { IsLarge (P.fits self.now.key.raw) self.now.key.limit levels }
        ensures table { result.table ≡ self.now }
        ensures step { result.step ≡ made_by section.step levels }
        ensures fits { OwnerFits (P.fits self.now.key.raw) result.step }
    {
        let word = if levels.is_owned() { LARGE } else { FREE };
        self.put(word, levels, section)
    }
}
