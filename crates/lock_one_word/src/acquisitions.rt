//! The calls that acquire a token.
ghost use Rattle.std.specs.Prelude.{◌≡◌, true, IfSome, IfNone, is_some};
ghost use Rattle.lock_word.specs.Word.{want_of_mode};
ghost use Rattle.lock_one_word.specs.Calls.{IsTokenOf, WasTried, HasTimedOut};

use crate::until::{Deadline, Endless, Until};
use crate::word_lock::{WordLock, WordToken};
use lock_modes::Mode;
use lock_word::ExWant;
use std::sync::Wait;
use std::time::{Clock, Instant};

impl WordLock {
    #[tactic(auto, using(crate::proofs::Tokens::may_acquire, crate::proofs::Tokens::awaits))]
    /// Acquires the mode without blocking. Returns `None` if a word refuses it.
    pub fn try_acquire(&self, mode: Mode) -> Option<WordToken>
        ensures acquired { IfSome result (IsTokenOf self.now mode) }
        ensures tried { WasTried self.now (want_of_mode mode) (is_some result) }
    {
        let (looked, mut seat) = self.begin(ExWant::of_mode(mode), false);
        let ended = self.attempt(&mut seat, looked);
        if ended.is_ok() {
            return Some(seat.into_token());
        }
        seat.end();
        None
    }

    /// Acquires the mode, blocking: it spins for a moment, and then sleeps until a release unblocks some sleeper. A
    /// writer sets the bar before it sleeps, unless it is set. In a mutex it first sleeps four times. A bar refuses later calls.
    pub fn acquire<R: Wait>(&self, rt: &R, mode: Mode) -> WordToken
        ensures { IsTokenOf self.now mode result }
    {
        match self.acquire_within(rt, mode, &Endless) {
            Some(token) => token,
            None => unreachable!(),
        }
    }

    /// Acquires the mode, blocking until `deadline`.
    pub fn acquire_until<R: Wait + Clock>(
        &self,
        rt: &R,
        mode: Mode,
        deadline: Instant,
    ) -> Option<WordToken>
        ensures acquired { IfSome result (IsTokenOf self.now mode) }
        ensures refused { IfNone result (HasTimedOut self.now) }
    {
        self.acquire_within(rt, mode, &Deadline(deadline))
    }

    #[tactic(auto, using(crate::proofs::Tokens::may_acquire, crate::proofs::Tokens::awaits))]
    /// Acquires the mode, blocking until the wait is over.
    #[inline(always)]
    fn acquire_within<R: Wait, U: Until<R>>(
        &self,
        rt: &R,
        mode: Mode,
        until: &U,
    ) -> Option<WordToken>
        ensures acquired { IfSome result (IsTokenOf self.now mode) }
        ensures refused { IfNone result (HasTimedOut self.now) }
        ensures over { IfNone result (U.has_end ≡ true) }
    {
        let (looked, mut seat) = self.begin(ExWant::of_mode(mode), true);
        let ended = self.come_to_end(rt, &mut seat, looked, until);
        if ended.is_ok() {
            return Some(seat.into_token());
        }
        seat.end();
        None
    }
}
