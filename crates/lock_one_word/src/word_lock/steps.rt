//! The actions of a call, made on the word. Only these functions go on with a call.
ghost use Rattle.std.specs.Prelude.{◌≡◌, ◌+◌, ◌-◌, ◌<◌, ◌^◌, true};
ghost use Rattle.lock_one.specs.declared.action.Action.TheVariants.{Load, Exchange, Subtract, Sleep, WakeOne, WakeAll, WakeNext, WakeTurn, Spin, Yield};
ghost use Rattle.lock_one.specs.declared.action.Sleeper.{Sleeper};
ghost use Rattle.lock_one.specs.Machine.{next_of};
ghost use Rattle.lock_one_word.specs.Drives.{at, CanGo, GoesOn, HasRested};
ghost use Rattle.lock_one_word.specs.Seats.{KeepsSeat};

mod atomic;
mod call_seat;
mod ended;
mod looked;
mod pending;
mod releasing;
mod seen;
mod straight;
mod token;
mod unacquired;
mod unreleased;

use crate::until::{Left, Until};
use crate::word_lock::WordLock;
pub(crate) use call_seat::CallSeat;
pub(crate) use ended::Ended;
use lock_one::{Sleeper, to_stored};
use lock_word::Down;
pub(crate) use looked::Looked;
pub(crate) use pending::Pending;
use std::hint::spin_loop;
use std::sync::Wait;
use std::thread;
pub use token::WordToken;
pub(crate) use unacquired::Unacquired;
pub(crate) use unreleased::Unreleased;

impl WordLock {
    /// Loads the word.
    pub(crate) fn look(&self, seat: &mut CallSeat, pending: &mut Pending)
        requires table { seat.old.seat.table_id ≡ self.now.id }
        requires action { pending.old.action ≡ Load }
        ensures same { (seat.new.seat.table_id ≡ seat.old.seat.table_id) × (seat.new.seat.me ≡ seat.old.seat.me) }
        ensures goes { GoesOn pending.old seat.old.seat.me pending.new seat.new.seat.me }
        ensures exchanges { pending.new.exchanges ≡ pending.old.exchanges }
    {
        let found = self.load_word(seat);
        pending.go_on(found);
    }

    /// Replaces the word by the second one, if it is the first.
    pub(crate) fn exchange(&self, seat: &mut CallSeat, pending: &mut Pending, old: u64, new: u64)
        requires table { seat.old.seat.table_id ≡ self.now.id }
        requires action { pending.old.action ≡ Exchange old new }
        requires going { CanGo (at pending.old) seat.old.seat.me }
        ensures table { KeepsSeat seat.old.seat seat.new.seat }
        ensures goes { GoesOn pending.old seat.old.seat.me pending.new seat.new.seat.me }
        ensures counted { pending.old.exchanges < 2 ^ 64 - 1 → pending.new.exchanges ≡ pending.old.exchanges + 1 }
    {
        let found = self.exchange_word(seat, old, new);
        pending.count();
        pending.go_on(found);
    }

    /// Subtracts what the release takes.
    pub(crate) fn subtract(&self, seat: &mut CallSeat, pending: &mut Pending, down: Down)
        requires table { seat.old.seat.table_id ≡ self.now.id }
        requires action { pending.old.action ≡ Subtract down }
        requires going { CanGo (at pending.old) seat.old.seat.me }
        ensures table { KeepsSeat seat.old.seat seat.new.seat }
        ensures goes { GoesOn pending.old seat.old.seat.me pending.new seat.new.seat.me }
    {
        let found = self.subtract_from_word(seat, down);
        pending.go_on(found);
    }

    /// Sleeps while the word is this number, or until the wait is over, or the time of a brief sleep.
    pub(crate) fn sleep<R: Wait, U: Until<R>>(
        &self,
        rt: &R,
        pending: &mut Pending,
        number: u64,
        class: Sleeper,
        is_brief: bool,
        until: &U,
    )
        requires { pending.old.action ≡ Sleep number class is_brief }
        ensures { HasRested U.has_end pending.old pending.new }
    {
        self.sleep_while(rt, number, until.left(rt).at_most(is_brief));
        let is_late = until.is_over(rt);
        let found = answer_of_sleep(is_late, self.has_lasted(number, is_brief));
        pending.go_on(found);
    }

    /// Sleeps while the word is this number, for the time that is left.
    fn sleep_while<R: Wait>(&self, rt: &R, number: u64, left: Left) {
        let expected = (to_stored(number) % 4_294_967_296) as u32;
        match left {
            Left::Endless => self.table.shared.park(rt, 0, expected),
            Left::Within(left) => self.table.shared.park_timeout(rt, 0, expected, left),
            Left::Over => {}
        }
    }

    /// Returns whether a sleep is taken to have lasted its brief time.
    ///
    /// No clock tells why a sleep without a deadline ended. Where the word is still the number, no holder has released.
    fn has_lasted(&self, number: u64, is_brief: bool) -> bool {
        is_brief && self.peek().word() == number
    }

    /// Yields in place of a sleep.
    pub(crate) fn rest<R, U: Until<R>>(&self, rt: &R, pending: &mut Pending, until: &U)
        requires { pending.old.action ≡ Yield }
        ensures { HasRested U.has_end pending.old pending.new }
    {
        thread::yield_now();
        let is_late = until.is_over(rt);
        let found = answer_of_sleep(is_late, false);
        pending.go_on(found);
    }

    /// Spins two to the power of this number of times.
    pub(crate) fn spin(&self, pending: &mut Pending, times: u32)
        requires { pending.old.action ≡ Spin times }
        ensures { at pending.new ≡ next_of 0 pending.old.call }
    {
        for _ in 0..1u64 << (times % 64) {
            spin_loop();
        }
        pending.go_on(0);
    }

    /// Wakes one sleeper.
    pub(crate) fn wake_one(&self, pending: &mut Pending)
        requires { pending.old.action ≡ WakeOne }
        ensures { at pending.new ≡ next_of 0 pending.old.call }
    {
        self.table.shared.wake_one(0);
        pending.go_on(0);
    }

    /// Wakes all sleepers.
    pub(crate) fn wake_all(&self, pending: &mut Pending)
        requires { pending.old.action ≡ WakeAll }
        ensures { at pending.new ≡ next_of 0 pending.old.call }
    {
        self.table.shared.wake_all(0);
        pending.go_on(0);
    }

    /// Wakes the readers and the sleepers that may pass a bar, and all others too, which a table cannot tell apart.
    pub(crate) fn wake_turn(&self, pending: &mut Pending)
        requires { pending.old.action ≡ WakeTurn }
        ensures { at pending.new ≡ next_of 0 pending.old.call }
    {
        self.table.shared.wake_all(0);
        pending.go_on(0);
    }

    /// Wakes the sleepers that may pass a bar, and all others too, which a table cannot tell apart.
    pub(crate) fn wake_next(&self, pending: &mut Pending)
        requires { pending.old.action ≡ WakeNext }
        ensures { at pending.new ≡ next_of 0 pending.old.call }
    {
        self.table.shared.wake_all(0);
        pending.go_on(0);
    }
}

/// Returns the answer to the action of a sleep.
fn answer_of_sleep(is_late: bool, has_lasted: bool) -> u64
    ensures { result ≡ 1 → is_late ≡ true }
{
    if is_late {
        1
    } else if has_lasted {
        2
    } else {
        0
    }
}
