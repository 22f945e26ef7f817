//! How a call releases or downgrades, and wakes the sleepers that this unblocks.
ghost use Rattle.std.specs.Prelude.{◌≡◌, IsTrue};
ghost use Rattle.lock_modes.specs.declared.hold.Hold.{Hold};
ghost use Rattle.lock_modes.specs.Holds.{hold_has, hold_after};
ghost use Rattle.lock_word.specs.declared.down.Down.{Down};
ghost use Rattle.lock_word.specs.Word.{step_of_down};
ghost use Rattle.lock_one_word.specs.Drives.{unreleased_at, IsReleasing, EndsRelease};
ghost use Rattle.lock_one_word.specs.Seats.{KeepsSeat};

use crate::word_lock::{CallSeat, Unreleased, WordLock};
use lock_word::Down;

impl WordLock {
    /// Releases or downgrades. The step that does is the last access to the word: a wake-up by its address follows at most.
    #[inline(always)]
    pub(crate) fn take(&self, seat: &mut CallSeat, down: Down)
        requires table { seat.old.seat.table_id ≡ self.now.id }
        requires readers { seat.old.seat.me.0.readers ≡ self.now.readers }
        requires has { IsTrue (hold_has seat.old.seat.me.0.held (step_of_down down)) }
        ensures table { KeepsSeat seat.old.seat seat.new.seat }
        ensures held { seat.new.seat.me.0.held ≡ hold_after seat.old.seat.me.0.held (step_of_down down) }
    {
        if let Err(call) = self.start_release(seat, down) {
            self.take_on(seat, call);
        }
    }

    /// Goes on with a release after its first steps.
    #[cold]
    #[inline(never)]
    fn take_on(&self, seat: &mut CallSeat, call: Unreleased)
        requires table { seat.old.seat.table_id ≡ self.now.id }
        requires going { IsReleasing (unreleased_at call) seat.old.seat.me }
        ensures table { KeepsSeat seat.old.seat seat.new.seat }
        ensures ended { EndsRelease (unreleased_at call) seat.old.seat.me seat.new.seat.me }
    {
        let mut pending = call.into_pending();
        while self.make_on_lock(seat, &mut pending) {}
        pending.end();
    }
}
