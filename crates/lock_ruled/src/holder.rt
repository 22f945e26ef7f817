//! A user of a semaphore.
use crate::ledger::Share;
use crate::user::User;
use std::marker::Model;

/// A user of a `Semaphore`, which one thread at a time may own. Contracts see it as a `User`: `view.own` is the number of
/// its permits, and `view.all` the number that the semaphore was made with.
///
/// The permits of a dropped holder are lost.
#[derive(Drop)]
pub struct Holder {
    pub(crate) user: User<u64, Share>,
}

impl Model for Holder {
    ghost use Rattle.std.specs.Prelude.{◌<◌, ◌^◌};
    ghost use Rattle.lock_ruled.specs.Ruled.{UserState};
    ghost use Rattle.lock_ruled.specs.declared.ledger.Share.{Share};

    ghost Value = { UserState Share };

    ghost view = { λ h. h.user };

    ghost invariant = { λ h. h.user.view.all < 2 ^ 64 };
}
