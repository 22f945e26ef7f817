//! Waiting until the value meets a condition.
ghost use Rattle.std.specs.Prelude.{◌≡◌, ◌⊎◌, true, false, IfOk, IfErr, MatchResult};
ghost use Rattle.std.specs.Fn.{FnReturnsAt};
ghost use Rattle.lock_ruled.specs.Ruled.{HasLocked};
ghost use Rattle.lock_ruled.specs.Acquiring.{WasHeld};
ghost use Rattle.lock_time.specs.Deadlines.{HasPassed};

use crate::guard::RuledGuard;
use crate::mutex::RuledMutex;
use crate::rule::MutexRule;
use crate::user::User;
use lock_time::time_until;
use std::sync::Wait;
use std::time::{Clock, Instant};

impl<T: Drop, V, P: MutexRule<T, V>> RuledMutex<T, V, P> {
    /// Acquires the mutex once `condition` holds of the value, blocking until then.
    ///
    /// # Blocking
    /// While the condition does not hold, the user sleeps until another user calls `unlock`.
    pub fn lock_when<R: Wait, F: Fn(&T) -> bool>(
        &self,
        rt: &R,
        user: User<T, V>,
        condition: F,
    ) -> RuledGuard<T, V>
        requires mutex { user.mutex ≡ self.now }
        requires condition { F.IsAlwaysCallable condition }
        ensures locked { HasLocked P.rule user result }
        ensures condition { FnReturnsAt F.Fn condition result.value true }
    {
        let mut user = user;
        for _ in rt.forever() {
            let guard = self.lock(rt, user);
            if condition(&*guard) {
                return guard;
            }
            let registered = self.changed.register(rt);
            let (released, waiting) = self.release_unchanged(guard, registered);
            self.changed.sleep(rt, waiting, None);
            user = released;
        }
        unreachable!()
    }

    /// Acquires the mutex once `condition` holds of the value, or returns the user at `deadline`.
    ///
    /// # Blocking
    /// As `lock_when`, until `deadline` by the clock of `rt`. After the deadline it checks the condition once more, unless
    /// another user holds the mutex.
    pub fn lock_when_until<R: Wait + Clock, F: Fn(&T) -> bool>(
        &self,
        rt: &R,
        user: User<T, V>,
        condition: F,
        deadline: Instant,
    ) -> Result<RuledGuard<T, V>, User<T, V>>
        requires mutex { user.mutex ≡ self.now }
        requires condition { F.IsAlwaysCallable condition }
        ensures locked { MatchResult result (HasLocked P.rule user) (λ same. same ≡ user) }
        ensures condition { IfOk result (λ guard. FnReturnsAt F.Fn condition guard.value true) }
        ensures late { IfErr result (λ _. HasPassed deadline) }
        // The mutex was held, or the condition did not hold of a value.
        ensures unmet { IfErr result (λ _. WasHeld self.now ⊎ ((value : T) × FnReturnsAt F.Fn condition value false)) }
    {
        let mut user = user;
        for _ in rt.forever() {
            let guard = self.lock_until(rt, user, deadline)?;
            if condition(&*guard) {
                return Ok(guard);
            }
            let registered = self.changed.register(rt);
            let (released, waiting) = self.release_unchanged(guard, registered);
            user = released;
            match time_until(rt, deadline) {
                Ok(left) => self.changed.sleep(rt, waiting, Some(left)),
                Err(_) => {
                    self.changed.leave(waiting);
                    return Err(user);
                }
            }
        }
        unreachable!()
    }
}
