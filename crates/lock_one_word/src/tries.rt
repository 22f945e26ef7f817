//! How a call tries, without blocking.
ghost use Rattle.std.specs.Prelude.{◌≡◌, false, is_ok};
ghost use Rattle.lock_one_word.specs.Drives.{looked_at, unacquired_at, CanGo, HasWoken, IsTrying, Tried, TriesEnd, says_yes};
ghost use Rattle.lock_one_word.specs.Seats.{KeepsSeat};

use crate::word_lock::{CallSeat, Ended, Looked, Pending, Unacquired, WordLock};
use lock_one::Action;

impl WordLock {
    /// Exchanges until an exchange acquires or a word refuses.
    #[inline(always)]
    pub(crate) fn attempt(&self, seat: &mut CallSeat, looked: Looked) -> Result<Ended, Ended>
        requires table { seat.old.seat.table_id ≡ self.now.id }
        requires going { CanGo (looked_at looked) seat.old.seat.me }
        requires tries { looked.blocks ≡ false }
        ensures table { KeepsSeat seat.old.seat seat.new.seat }
        ensures tried { Tried (looked_at looked) (is_ok result) seat.old.seat.me seat.new.seat.me }
        ensures ended { TriesEnd (looked_at looked) seat.old.seat.me result }
    {
        match self.start(seat, looked) {
            Ok(ended) => Ok(ended),
            Err(call) => self.try_on(seat, call),
        }
    }

    /// Goes on with a try after its first steps.
    #[cold]
    #[inline(never)]
    fn try_on(&self, seat: &mut CallSeat, call: Unacquired) -> Result<Ended, Ended>
        requires table { seat.old.seat.table_id ≡ self.now.id }
        requires going { CanGo (unacquired_at call) seat.old.seat.me × IsTrying (unacquired_at call) }
        ensures table { KeepsSeat seat.old.seat seat.new.seat }
        ensures tried { Tried (unacquired_at call) (is_ok result) seat.old.seat.me seat.new.seat.me }
        ensures ended { TriesEnd (unacquired_at call) seat.old.seat.me result }
    {
        let mut pending = call.into_pending();
        while let Action::Exchange(old, new) = pending.action() {
            if pending.is_spent() {
                return Err(pending.end());
            }
            self.exchange(seat, &mut pending, old, new);
        }
        self.wake_readers(&mut pending);
        let acquired = says_yes(pending.action());
        pending.answer(acquired)
    }

    /// Makes the wake-up of a try that took the turn of readers.
    fn wake_readers(&self, pending: &mut Pending)
        ensures { HasWoken pending.old pending.new }
    {
        if let Action::WakeAll = pending.action() {
            self.wake_all(pending);
        }
    }
}

fn says_yes(action: Action) -> bool
    ensures { result ≡ says_yes action }
{
    matches!(action, Action::End(true))
}
