//! The token of one acquisition.
ghost use Rattle.std.specs.Prelude.{◌≡◌};
ghost use Rattle.lock_one_word.specs.Calls.{IsTokenSeat, token_of};

use crate::rule::OneView;
use crate::word_lock::steps::call_seat::CallSeat;
use atomic_table::Seat;
use std::marker::Model;

/// The token of one acquisition on a `WordLock`. It has no bytes. Contracts see its lock, and what it holds.
///
/// It has no `Drop` and no `Clone`, so code that drops one does not compile: a release or a change consumes it.
pub struct WordToken {
    seat: Seat<(), OneView>,
}

impl Model for WordToken {
    ghost use Rattle.lock_one_word.specs.Calls.{TokenView, IsTokenSeat, token_of};
    ghost use base.Fml.{ftrue};

    ghost Value = { TokenView };

    ghost view = { λ t. token_of t.seat.table_id t.seat.me };

    ghost invariant = { λ t. IsTokenSeat t.seat.me };

    // A token owns its seat and nothing more. The checker takes a proof of `Sync` only beside this member.
    ghost also_owns = { λ _. ftrue };
}

unsafe impl Send for WordToken {}

/// A seat is not `Sync`. A token is: no call takes a reference to one.
unsafe impl Sync for WordToken {}

impl WordToken {
    pub(super) fn new(seat: Seat<(), OneView>) -> WordToken
        requires { IsTokenSeat seat.me }
        ensures { result ≡ token_of seat.table_id seat.me }
    {
        WordToken { seat }
    }

    /// Begins a call that changes or releases the token.
    pub(crate) fn into_seat(self) -> CallSeat
        ensures token { self ≡ token_of result.seat.table_id result.seat.me }
        ensures seat { IsTokenSeat result.seat.me }
    {
        let WordToken { seat } = self;
        CallSeat::new(seat)
    }
}
