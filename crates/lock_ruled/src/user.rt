//! A user of a mutex under a rule.
use crate::rule::UserView;
use atomic_table::Seat;
use std::marker::Model;

/// A user of a mutex, which one thread at a time may own. Contracts see its mutex, its parts of it, and its view of the
/// value. It allocates nothing.
///
/// The view of a dropped user stays in the rule.
#[derive(Drop)]
pub struct User<T, V> {
    pub(crate) seat: Seat<Option<T>, UserView<T, V>>,
}

impl<T, V> Model for User<T, V> {
    ghost use Rattle.lock_ruled.specs.Ruled.{UserState};
    ghost use Rattle.lock_ruled.specs.Plays.{IsIdle};

    ghost Value = { UserState V };

    ghost view = { λ u.
        record { mutex = u.seat.table_id; parts = u.seat.me.0.parts; view = u.seat.me.0.own } };

    ghost invariant = { λ u. IsIdle u.seat.me };
}
