//! That a user found the mutex held.
ghost use Rattle.std.specs.Prelude.{◌≡◌, ℕ};
ghost use Rattle.lock_ruled.specs.declared.rule.UserStage.TheVariants.{Sleeps};

use crate::rule::UserView;
use atomic_table::Seat;
use std::marker::Model;
use std::snapshot::Snapshot;

/// Evidence that the mutex was held when a user marked it as awaited. It has no bytes. Contracts see which mutex.
///
/// Only such a user makes one, and no clause can: what contracts see has a private field.
#[derive(Drop)]
pub(crate) struct FoundHeld<T, V> {
    seat: Snapshot<Seat<Option<T>, UserView<T, V>>>,
}

impl<T, V> Model for FoundHeld<T, V> {
    ghost use Rattle.std.specs.Prelude.{◌≡◌, ℕ};
    ghost use Rattle.lock_ruled.specs.declared.rule.UserStage.TheVariants.{Sleeps};
    ghost use Rattle.lock_ruled.specs.Seals.{HeldView, held_view, held_view_code};

    ghost Value = { HeldView };

    ghost coded = { held_view_code };

    ghost view = { λ f. held_view f.seat.value.table_id };

    ghost invariant = { λ f. (epoch : ℕ) × (f.seat.value.me.0.stage ≡ Sleeps epoch) };
}

impl<T, V> FoundHeld<T, V> {
    /// Makes the value of a user that is to sleep.
    pub(super) fn of(seat: &Seat<Option<T>, UserView<T, V>>) -> FoundHeld<T, V>
        requires { (epoch : ℕ) × (seat.now.me.0.stage ≡ Sleeps epoch) }
        ensures { result.mutex ≡ seat.now.table_id }
    {
        FoundHeld {
            seat: Snapshot::of(seat),
        }
    }
}
