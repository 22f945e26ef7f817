//! The kinds of step on the word, and what each tells the call that makes it.
ghost use Rattle.std.specs.Prelude.{true, false};
ghost use Rattle.lock_wake.specs.EventPlays.{BeginsToWait, BeginsToNotify, Exchanges, SetsBits, Leaves, Wakes};

use atomic_table::Play;
use lock_events::Begun;

/// A load by a new wait.
pub(crate) struct BeginWait;

impl Play<(), Begun> for BeginWait {
    ghost then = { λ s me. BeginsToWait };
}

/// A load by a new notification of one.
pub(crate) struct BeginOne;

impl Play<(), Begun> for BeginOne {
    ghost then = { λ s me. BeginsToNotify false };
}

/// A load by a new notification of all.
pub(crate) struct BeginAll;

impl Play<(), Begun> for BeginAll {
    ghost then = { λ s me. BeginsToNotify true };
}

/// An exchange that the call asks for.
pub(crate) struct Exchange;

impl Play<(), Begun> for Exchange {
    ghost then = { Exchanges };
}

/// The step of a notification that begins the last epoch.
pub(crate) struct SetBits;

impl Play<(), Begun> for SetBits {
    ghost then = { SetsBits };
}

/// The subtraction that ends a registered wait.
pub(crate) struct Leave;

impl Play<(), Begun> for Leave {
    ghost then = { λ s me found. Leaves s me };
}

/// A load by a notification that has made its wake-up.
pub(crate) struct Woke;

impl Play<(), Begun> for Woke {
    ghost then = { λ s me found. Wakes me };
}
