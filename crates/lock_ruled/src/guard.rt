//! The guard of a mutex under a rule.
use crate::rule::UserView;
use atomic_table::Seat;
use std::marker::Model;
use std::ops::{Deref, DerefMut};

/// The guard of a `RuledMutex`. Contracts see the user that holds it, the value as it was acquired, and the value now.
///
/// It cannot be dropped: `RuledMutex::unlock` ends it.
pub struct RuledGuard<T, V> {
    pub(crate) value: T,
    pub(crate) seat: Seat<Option<T>, UserView<T, V>>,
}

impl<T, V> Model for RuledGuard<T, V> {
    ghost use Rattle.std.specs.Prelude.{◌≡◌, ◌<◌, [], ◌∷◌, None};
    ghost use Rattle.lock_ruled.specs.Ruled.{Taken};
    ghost use Rattle.lock_ruled.specs.Slots.{taken_value, IsHolding};

    ghost Value = { Taken T V };

    ghost view = { λ g.
        record {
          user = record { mutex = g.seat.table_id; parts = g.seat.me.0.parts; view = g.seat.me.0.own };
          taken = taken_value g.seat.me.0.stage g.value;
          value = g.value;
        } };

    ghost invariant = { λ g.
        (g.seat.me.1 ≡ (0, None) ∷ []) × IsHolding g.seat.me.0.stage × (0 < g.seat.me.0.parts) };
}

impl<T, V> Deref for RuledGuard<T, V> {
    ghost use Rattle.std.specs.Prelude.{◌≡◌};

    type Target = T;

    ghost deref_gives = { λ guard value. value ≡ guard.value };

    fn deref(&self) -> &T {
        &self.value
    }
}

impl<T, V> DerefMut for RuledGuard<T, V> {
    ghost use Rattle.std.specs.Prelude.{◌≡◌};
    ghost use Rattle.std.specs.Borrow.{Lends, sem};
    ghost use Rattle.lock_ruled.specs.contracts.guard.RuledGuard.{the_row};

    ghost deref_mut_gives = { λ guard value. value ≡ guard.value };

    fn deref_mut(&mut self) -> &mut T
        ensures* writes_back { sem 𝓛 (Lends (the_row T.row V.row) T.row self.entry result
            (λ value. record self.old { value = value })) }
        ensures value { result.now ≡ self.old.value }
    {
        &mut self.value
    }
}
