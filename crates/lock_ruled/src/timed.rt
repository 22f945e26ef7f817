//! Acquiring the mutex until a deadline.
ghost use Rattle.std.specs.Prelude.{◌≡◌, false, IfErr, MatchResult};
ghost use Rattle.lock_ruled.specs.Ruled.{HasLocked};
ghost use Rattle.lock_ruled.specs.Acquiring.{MayAcquire, MayHaveAcquired, WasHeld};
ghost use Rattle.lock_time.specs.Deadlines.{HasPassed};

use crate::guard::RuledGuard;
use crate::mutex::RuledMutex;
use crate::rule::{MutexRule, UserView};
use crate::user::User;
use atomic_table::Seat;
use lock_time::time_until;
use std::sync::Wait;
use std::time::{Clock, Instant};

impl<T: Drop, V, P: MutexRule<T, V>> RuledMutex<T, V, P> {
    /// Acquires the mutex, or returns the user if it is still held at `deadline` by the clock of `rt`.
    pub fn lock_until<R: Wait + Clock>(
        &self,
        rt: &R,
        user: User<T, V>,
        deadline: Instant,
    ) -> Result<RuledGuard<T, V>, User<T, V>>
        requires { user.mutex ≡ self.now }
        ensures locked { MatchResult result (HasLocked P.rule user) (λ same. same ≡ user) }
        ensures late { IfErr result (λ _. HasPassed deadline) }
        ensures held { IfErr result (λ _. WasHeld self.now) }
    {
        let mut seat = user.seat;
        if self.acquire_until(rt, &mut seat, deadline) {
            Ok(self.guard_of(seat))
        } else {
            Err(User { seat })
        }
    }

    /// Tries, and then sleeps between tries, until the deadline. After the deadline the mutex stays marked as awaited.
    fn acquire_until<R: Wait + Clock>(
        &self,
        rt: &R,
        seat: &mut Seat<Option<T>, UserView<T, V>>,
        deadline: Instant,
    ) -> bool
        requires { MayAcquire self.now seat.old }
        ensures acquired { MayHaveAcquired P.rule result seat.old seat.new }
        ensures late { result ≡ false → HasPassed deadline }
        ensures held { result ≡ false → WasHeld self.now }
    {
        if self.try_acquire(seat) || self.try_with_backoff(seat) {
            return true;
        }
        for _ in rt.forever() {
            let Some(watched) = self.mark(seat) else {
                return true;
            };
            let Ok(left) = time_until(rt, deadline) else {
                drop(self.leave(seat, watched));
                return false;
            };
            self.sleep(rt, seat, watched, Some(left));
        }
        unreachable!()
    }
}
