//! The seat of a call.
ghost use Rattle.std.specs.Prelude.{◌≡◌};
ghost use Rattle.lock_modes.specs.Holds.{no_hold};
ghost use Rattle.lock_one_word.specs.Calls.{IsTokenSeat, token_of};

use crate::rule::OneView;
use crate::word_lock::steps::token::WordToken;
use atomic_table::Seat;

/// The seat of a call on the word. Only the steps of a call reach into it.
///
/// It has no `Drop`: at the end of the call it becomes a token, or leaves where it holds nothing. So no body can let go of
/// what a token held.
pub(crate) struct CallSeat {
    pub(super) seat: Seat<(), OneView>,
}

impl CallSeat {
    pub(super) fn new(seat: Seat<(), OneView>) -> CallSeat
        ensures { result.seat ≡ seat }
    {
        CallSeat { seat }
    }

    /// Ends the call with a token of what the seat holds.
    pub(crate) fn into_token(self) -> WordToken
        requires { IsTokenSeat self.seat.me }
        ensures { result ≡ token_of self.seat.table_id self.seat.me }
    {
        let CallSeat { seat } = self;
        WordToken::new(seat)
    }

    /// Ends the call of a seat that holds nothing.
    pub(crate) fn end(self)
        requires { self.seat.me.0.held ≡ no_hold }
    {
        let CallSeat { seat } = self;
        drop(seat);
    }
}
