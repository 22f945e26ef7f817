//! The driver of a call: it makes the actions that the machine asks for.
ghost use Rattle.std.specs.Prelude.{◌≡◌, true, false, None, IfSome, is_ok};
ghost use Rattle.lock_one.specs.declared.action.Action.TheVariants.{End};
ghost use Rattle.lock_one_word.specs.Drives.{at, looked_at, unacquired_at, CanGo, GoesOn, EndsWith, IsInTime, IsRefusedLate, touches_lock};
ghost use Rattle.lock_one_word.specs.Seats.{KeepsSeat};

use crate::until::Until;
use crate::word_lock::{CallSeat, Ended, Looked, Pending, Unacquired, WordLock};
use lock_one::Action;
use std::sync::Wait;

impl WordLock {
    /// Makes an action on the word or a wake-up. Returns false for a pause, a sleep or the end.
    pub(crate) fn make_on_lock(&self, seat: &mut CallSeat, pending: &mut Pending) -> bool
        requires table { seat.old.seat.table_id ≡ self.now.id }
        requires going { CanGo (at pending.old) seat.old.seat.me }
        ensures table { KeepsSeat seat.old.seat seat.new.seat }
        ensures made { result ≡ true → (touches_lock pending.old.action ≡ true) × GoesOn pending.old seat.old.seat.me pending.new seat.new.seat.me }
        ensures other { result ≡ false → (touches_lock pending.old.action ≡ false) × (seat.new.seat.me ≡ seat.old.seat.me) × (pending.new ≡ pending.old) }
    {
        match pending.action() {
            Action::Load => self.look(seat, pending),
            Action::Exchange(old, new) => self.exchange(seat, pending, old, new),
            Action::Subtract(down) => self.subtract(seat, pending, down),
            Action::WakeOne => self.wake_one(pending),
            Action::WakeAll => self.wake_all(pending),
            Action::WakeNext => self.wake_next(pending),
            Action::WakeTurn => self.wake_turn(pending),
            Action::Sleep(..) | Action::Spin(_) | Action::Yield | Action::End(_) => return false,
        }
        true
    }

    /// Makes an action. Returns the answer of a call that asks for its end.
    fn make<R: Wait, U: Until<R>>(
        &self,
        rt: &R,
        seat: &mut CallSeat,
        pending: &mut Pending,
        until: &U,
    ) -> Option<bool>
        requires table { seat.old.seat.table_id ≡ self.now.id }
        requires going { CanGo (at pending.old) seat.old.seat.me }
        requires in_time { IsInTime U.has_end pending.old.call }
        ensures table { KeepsSeat seat.old.seat seat.new.seat }
        ensures in_time { IsInTime U.has_end pending.new.call }
        ensures made { result ≡ None → GoesOn pending.old seat.old.seat.me pending.new seat.new.seat.me }
        ensures ended { IfSome result (λ answer. (pending.old.action ≡ End answer) × (seat.new.seat.me ≡ seat.old.seat.me) × (pending.new ≡ pending.old)) }
    {
        if self.make_on_lock(seat, pending) {
            return None;
        }
        match pending.action() {
            Action::Sleep(number, class, is_brief) => {
                self.sleep(rt, pending, number, class, is_brief, until)
            }
            Action::Spin(times) => self.spin(pending, times),
            Action::Yield => self.rest(rt, pending, until),
            Action::End(answer) => return Some(answer),
            _ => unreachable!(),
        }
        None
    }

    /// Makes the actions of a call up to its end, and returns its answer. Kept off the uncontended path.
    #[cold]
    #[inline(never)]
    fn finish<R: Wait, U: Until<R>>(
        &self,
        rt: &R,
        seat: &mut CallSeat,
        call: Unacquired,
        until: &U,
    ) -> Result<Ended, Ended>
        requires table { seat.old.seat.table_id ≡ self.now.id }
        requires going { CanGo (unacquired_at call) seat.old.seat.me }
        requires blocks { (unacquired_at call).0.blocks ≡ true }
        requires in_time { IsInTime U.has_end (unacquired_at call).0 }
        ensures table { KeepsSeat seat.old.seat seat.new.seat }
        ensures ended { EndsWith (unacquired_at call) seat.old.seat.me (is_ok result) seat.new.seat.me }
        ensures refused { IsRefusedLate U.has_end (unacquired_at call) seat.old.seat.me result }
    {
        let mut pending = call.into_pending();
        for _ in rt.forever() {
            if let Some(answer) = self.make(rt, seat, &mut pending, until) {
                return pending.answer(answer);
            }
        }
        unreachable!()
    }

    /// Makes the actions of a call that blocks up to its end, and returns its answer.
    #[inline(always)]
    pub(crate) fn come_to_end<R: Wait, U: Until<R>>(
        &self,
        rt: &R,
        seat: &mut CallSeat,
        looked: Looked,
        until: &U,
    ) -> Result<Ended, Ended>
        requires table { seat.old.seat.table_id ≡ self.now.id }
        requires going { CanGo (looked_at looked) seat.old.seat.me }
        requires blocks { looked.blocks ≡ true }
        ensures table { KeepsSeat seat.old.seat seat.new.seat }
        ensures ended { EndsWith (looked_at looked) seat.old.seat.me (is_ok result) seat.new.seat.me }
        ensures refused { IsRefusedLate U.has_end (looked_at looked) seat.old.seat.me result }
    {
        match self.start(seat, looked) {
            Ok(ended) => Ok(ended),
            Err(call) => self.finish(rt, seat, call, until),
        }
    }
}
