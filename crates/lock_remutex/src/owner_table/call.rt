//! A call on an owner table, and its steps.
mod level;

ghost use Rattle.std.specs.Prelude.{◌≡◌, ◌≢◌, ◌<◌, ℕ, ⊤, IfOk, IfErr};
ghost use Rattle.lock_modes.specs.Limits.{IsLimit};
ghost use Rattle.lock_remutex.specs.declared.owner_table.rule.OwnerStep.TheVariants.{Saw, Made};
ghost use Rattle.lock_remutex.specs.OwnerTables.{party_in, count_in, owned_at, made_by, IsAtHome, IsWord, IsIdle};
ghost use Rattle.lock_remutex.specs.OwnerCalls.{IsTaken};
ghost use Rattle.lock_remutex.specs.LevelSteps.{Lost};

use crate::owner_table::rule::{LookAtOwner, OwnerView, PutLevels, Recount, TakeLevels, TokenRule};
use crate::owner_table::{BUSY, OWNER, OwnerTable};
use atomic_table::Seat;
pub(crate) use level::Level;
use lock_modes::Levels;
use lock_traits::RawMutex;
use std::marker::Model;
use std::snapshot::Snapshot;

/// A call on a table. Contracts see its table and its last step. It has no bytes.
///
/// It makes at most one change, and it cannot be dropped: `end` ends it if it changed nothing, `settle` if it lost a level,
/// and a `Level` if it gained one.
pub struct OwnerCall<K, T> {
    seat: Seat<Option<Levels<T>>, OwnerView<K, T>>,
}

impl<K, T> Model for OwnerCall<K, T> {
    ghost use Rattle.std.specs.Prelude.{◌≡◌, []};
    ghost use Rattle.std.specs.Coded.{codes};
    ghost use Rattle.lock_remutex.specs.OwnerTables.{CallView, call_view, call_view_code};

    ghost Value = { CallView K T };

    ghost coded = { call_view_code (Prim.hlevel (codes, K.code)) (Prim.hlevel (codes, T.code)) };

    ghost view = { λ c. call_view (record { id = c.seat.table_id; key = c.seat.me.0.key }) c.seat.me.0.step };

    ghost invariant = { λ c. c.seat.me.1 ≡ [] };
}

/// A call that took the levels. It cannot be dropped: `OwnerTable::put` consumes it.
pub(super) struct Section<K, T> {
    seat: Seat<Option<Levels<T>>, OwnerView<K, T>>,
}

impl<K, T> Model for Section<K, T> {
    ghost use Rattle.std.specs.Prelude.{◌≡◌, [], ◌∷◌, None};
    ghost use Rattle.std.specs.Coded.{codes};
    ghost use Rattle.lock_remutex.specs.OwnerTables.{CallView, call_view, call_view_code};

    ghost Value = { CallView K T };

    ghost coded = { call_view_code (Prim.hlevel (codes, K.code)) (Prim.hlevel (codes, T.code)) };

    ghost view = { λ c. call_view (record { id = c.seat.table_id; key = c.seat.me.0.key }) c.seat.me.0.step };

    ghost invariant = { λ c. c.seat.me.1 ≡ (0, None) ∷ [] };
}

impl<K, T> OwnerCall<K, T> {
    /// Ends a call that changed nothing.
    pub(crate) fn end(self)
        requires { IsIdle self.step }
    {
        let OwnerCall { seat } = self;
        drop(seat);
    }
}

impl<R: RawMutex> OwnerCall<Snapshot<R>, R::Guard> {
    /// Ends a call that lost a level. The code of the table cannot call it, since it knows no raw lock.
    pub(crate) fn settle(self)
        requires { (party : ℕ) × Lost (λ token. ⊤) party self.step }
    {
        let OwnerCall { seat } = self;
        drop(seat);
    }
}

impl<K, T, P: TokenRule<K, T>> OwnerTable<K, T, P> {
    /// Begins a call by a load of the owner word.
    pub(super) fn look(&self) -> (u64, OwnerCall<K, T>)
        ensures table { result.1.table ≡ self.now }
        ensures step { result.1.step ≡ Saw result.0 }
        ensures word { IsWord self.now.key.limit result.0 }
        ensures limit { IsLimit self.now.key.limit }
    {
        let (word, seat) = self.table.shared.load_new_seat::<LookAtOwner>(OWNER);
        (word, OwnerCall { seat })
    }

    /// Exchanges the word for one that names the same owner at other levels, or returns the call if the word has changed.
    pub(super) fn recount(
        &self,
        call: OwnerCall<K, T>,
        word: u64,
        next: u64,
    ) -> Result<OwnerCall<K, T>, OwnerCall<K, T>>
        requires table { call.table ≡ self.now }
        requires saw { call.step ≡ Saw word }
        requires named { (0 < party_in word) × (party_in next ≡ party_in word) }
        requires word { IsWord self.now.key.limit word }
        requires next { IsWord self.now.key.limit next }
        ensures table { IfOk result (λ call. call.table ≡ self.now) }
        ensures made { IfOk result (λ call. (token : T) × (call.step ≡ Made
            (owned_at self.now.key.limit (party_in word) (count_in word) token)
            (owned_at self.now.key.limit (party_in word) (count_in next) token))
            × P.fits self.now.key.raw token) }
        ensures saw { IfErr result (λ call. (found : ℕ) × (call.step ≡ Saw found) × (found ≢ word)) }
    {
        let OwnerCall { mut seat } = call;
        let shared = &self.table.shared;
        if shared.compare_exchange::<Recount<P>>(&mut seat, OWNER, word, next) != word {
            return Err(OwnerCall { seat });
        }
        Ok(OwnerCall { seat })
    }

    /// Takes the levels by an exchange of this word, or returns the call that found another word.
    pub(super) fn take(
        &self,
        call: OwnerCall<K, T>,
        word: u64,
    ) -> Result<(Levels<T>, Section<K, T>), OwnerCall<K, T>>
        requires table { call.table ≡ self.now }
        requires saw { (seen : ℕ) × (call.step ≡ Saw seen) }
        requires idle { word ≢ 1 }
        ensures taken { IfOk result (λ taken. IsTaken P.fits self.now word taken.0 taken.1) }
        ensures table { IfErr result (λ call. call.table ≡ self.now) }
        ensures saw { IfErr result (λ call. (found : ℕ) × (call.step ≡ Saw found) × (found ≢ word)) }
    {
        let OwnerCall { mut seat } = call;
        let shared = &self.table.shared;
        if shared.compare_exchange::<TakeLevels<P>>(&mut seat, OWNER, word, BUSY) != word {
            return Err(OwnerCall { seat });
        }
        match shared.exchange(&mut seat, 0, None) {
            Some(levels) => Ok((levels, Section { seat })),
            None => unreachable!(),
        }
    }

    /// Puts the levels back, at this word.
    pub(super) fn put(
        &self,
        word: u64,
        levels: Levels<T>,
        section: Section<K, T>,
    ) -> OwnerCall<K, T>
        requires table { section.table ≡ self.now }
        requires idle { word ≢ 1 }
        requires home { IsAtHome (P.fits self.now.key.raw) self.now.key.limit word levels }
        ensures table { result.table ≡ self.now }
        ensures step { result.step ≡ made_by section.step levels }
    {
        let Section { mut seat } = section;
        match self.table.shared.exchange(&mut seat, 0, Some(levels)) {
            None => {}
            Some(_levels) => unreachable!(),
        }
        self.table.shared.swap::<PutLevels>(&mut seat, OWNER, word);
        OwnerCall { seat }
    }
}
