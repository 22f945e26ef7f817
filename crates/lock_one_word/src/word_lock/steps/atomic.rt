//! The atomic steps on the word.
ghost use Rattle.std.specs.Prelude.{◌≡◌, []};
ghost use Rattle.lock_word.specs.Rule.{WordShows};
ghost use Rattle.lock_one.specs.declared.action.Action.TheVariants.{Load, Exchange, Subtract};
ghost use Rattle.lock_one.specs.Machine.{core_of};
ghost use Rattle.lock_one_word.specs.Drives.{CanMake};
ghost use Rattle.lock_one_word.specs.Plays.{Goes};
ghost use Rattle.lock_one_word.specs.Seats.{newcomer, KeepsSeat};

use crate::plays::{ExchangeWord, LoadWord, SubtractFromWord};
use crate::word_lock::WordLock;
use crate::word_lock::steps::call_seat::CallSeat;
use crate::word_lock::steps::seen::SeenWord;
use lock_one::{from_stored, stored_amount, to_stored};
use lock_word::Down;

impl WordLock {
    /// Loads the word, by no party.
    pub(crate) fn peek(&self) -> SeenWord {
        SeenWord::new(from_stored(self.table.shared.peek(0)))
    }

    /// Loads the word, by a new seat.
    #[inline(always)]
    pub(super) fn load_new_seat(&self) -> (u64, CallSeat)
        ensures table { result.1.seat.table_id ≡ self.now.id }
        ensures new { result.1.seat.me ≡ (newcomer self.now.readers, []) }
        ensures goes { Goes Load result.1.seat.me result.0 result.1.seat.me }
    {
        let (stored, seat) = self.table.shared.load_new_seat::<LoadWord>(0);
        (from_stored(stored), CallSeat { seat })
    }

    /// Loads the word.
    #[inline(always)]
    pub(crate) fn load_word(&self, seat: &mut CallSeat) -> u64
        requires { seat.old.seat.table_id ≡ self.now.id }
        ensures same { (seat.new.seat.table_id ≡ seat.old.seat.table_id) × (seat.new.seat.me ≡ seat.old.seat.me) }
        ensures shows { WordShows seat.old.seat.me.0.readers (core_of result) seat.old.seat.me.0.held }
        ensures goes { Goes Load seat.old.seat.me result seat.new.seat.me }
    {
        from_stored(self.table.shared.load::<LoadWord>(&mut seat.seat, 0))
    }

    /// Replaces the word by the second one, if it is the first. Returns the word before.
    #[inline(always)]
    pub(super) fn exchange_word(&self, seat: &mut CallSeat, old: u64, new: u64) -> u64
        requires table { seat.old.seat.table_id ≡ self.now.id }
        requires going { CanMake (Exchange old new) seat.old.seat.me }
        ensures table { KeepsSeat seat.old.seat seat.new.seat }
        ensures goes { Goes (Exchange old new) seat.old.seat.me result seat.new.seat.me }
    {
        let (first, second) = (to_stored(old), to_stored(new));
        let stored = self
            .table
            .shared
            .compare_exchange::<ExchangeWord>(&mut seat.seat, 0, first, second);
        from_stored(stored)
    }

    /// Subtracts what the release takes. Returns the word before.
    #[inline(always)]
    pub(super) fn subtract_from_word(&self, seat: &mut CallSeat, down: Down) -> u64
        requires table { seat.old.seat.table_id ≡ self.now.id }
        requires going { CanMake (Subtract down) seat.old.seat.me }
        ensures table { KeepsSeat seat.old.seat seat.new.seat }
        ensures goes { Goes (Subtract down) seat.old.seat.me result seat.new.seat.me }
    {
        let amount = stored_amount(down);
        let stored = self
            .table
            .shared
            .fetch_sub::<SubtractFromWord>(&mut seat.seat, 0, amount);
        from_stored(stored)
    }
}
