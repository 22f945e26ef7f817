//! A box of tickets under the rule of a ledger, which needs no proof.
ghost use Rattle.std.specs.Prelude.{◌≡◌, ◌+◌, ◌-◌, ◌^◌, ◌<◌};
ghost use Rattle.lock_api.specs.Permits.{with_more, with_fewer};

use lock_api::ruled::{Ledger, Measure, RuledMutex, Settles, Share, User};
use std::sync::Wait;

/// The measure of the box: the number of tickets in it.
pub struct Tickets;

impl Measure<u64> for Tickets {
    ghost measure = { λ left. left };
}

/// A box of tickets. What is in it, and what its users have, is always what was in it at first.
pub type TicketBox = RuledMutex<u64, Share, Ledger<Tickets>>;

/// Takes a ticket, blocking until there is one.
pub fn take_ticket<R: Wait>(rt: &R, tickets: &TicketBox, user: User<u64, Share>) -> User<u64, Share>
    requires { user.mutex ≡ tickets.now }
    ensures { result ≡ with_more user 1 }
{
    let mut left = tickets.lock_when(rt, user, |left: &u64| *left > 0);
    *left -= 1;
    tickets.unlock_ready::<Settles<Tickets>>(left)
}

/// Puts a ticket back.
pub fn put_ticket<R: Wait>(rt: &R, tickets: &TicketBox, user: User<u64, Share>) -> User<u64, Share>
    requires tickets { user.mutex ≡ tickets.now }
    requires has { (0 < user.view.own) × (user.view.all < 2 ^ 64) }
    ensures { result ≡ with_fewer user 1 }
{
    let mut left = tickets.lock(rt, user);
    tickets.known(&left);
    *left += 1;
    tickets.unlock_ready::<Settles<Tickets>>(left)
}
