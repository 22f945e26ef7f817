//! A level of a reentrant lock.
use crate::owner_table::call::OwnerCall;
use lock_modes::PartyId;
use lock_traits::RawMutex;
use std::marker::Model;
use std::snapshot::Snapshot;

/// A level that a party gained.
///
/// Only the step that gained it makes one, and it cannot be dropped: `keep` turns it into an answer or a guard.
pub(crate) struct Level<R: RawMutex> {
    party: PartyId,
    call: OwnerCall<Snapshot<R>, R::Guard>,
}

impl<R: RawMutex> Model for Level<R> {
    ghost use Rattle.std.specs.Prelude.{◌≡◌, true};
    ghost use Rattle.lock_modes.specs.Party.{id_of};
    ghost use Rattle.std.specs.Coded.{codes};
    ghost use Rattle.lock_remutex.specs.OwnerTables.{call_view_code};
    ghost use Rattle.lock_remutex.specs.LevelSteps.{LevelView, Gained, level_view_code};

    ghost Value = { LevelView R R.Guard };

    ghost coded = { level_view_code (call_view_code (Prim.hlevel (codes, R.code)) (Prim.hlevel (codes, R.Guard.code))) };

    ghost view = { λ l. record { call = l.call; party = id_of l.party } };

    ghost invariant = { λ l. Gained (λ token. R.is_own l.call.table.key.raw.value token ≡ true) (id_of l.party) l.call.step };
}

impl<R: RawMutex> Level<R> {
    ghost use Rattle.std.specs.Prelude.{◌≡◌, true};
    ghost use Rattle.lock_modes.specs.Party.{id_of};
    ghost use Rattle.lock_remutex.specs.LevelSteps.{Gained, Kept};

    /// Makes the level of a call that gained it.
    pub(crate) fn of(call: OwnerCall<Snapshot<R>, R::Guard>, party: PartyId) -> Level<R>
        requires { Gained (λ token. R.is_own call.table.key.raw.value token ≡ true) (id_of party) call.step }
        ensures call { result.call ≡ call }
        ensures party { result.party ≡ id_of party }
    {
        Level { party, call }
    }

    /// Leaves the level to its party, which owes a release.
    pub(crate) fn keep(self) -> PartyId
        ensures party { id_of result ≡ self.party }
        ensures kept { Kept R.is_own self }
    {
        let Level {
            party,
            call: OwnerCall { seat },
        } = self;
        drop(seat);
        party
    }
}
