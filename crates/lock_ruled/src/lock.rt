//! How a user acquires the mutex and releases it.
ghost use Rattle.std.specs.Prelude.{◌≡◌, MatchResult};
ghost use Rattle.lock_ruled.specs.Ruled.{HasLocked, Keeps};
ghost use Rattle.lock_ruled.specs.Acquiring.{MayAcquire, Acquired, MayHaveAcquired};

use crate::guard::RuledGuard;
use crate::mutex::RuledMutex;
use crate::rule::{MutexRule, UserView, ViewUpdate};
use crate::user::User;
use atomic_table::Seat;
use lock_wake::Pauses;
use std::sync::Wait;

impl<T: Drop, V, P: MutexRule<T, V>> RuledMutex<T, V, P> {
    /// Acquires the mutex, blocking until it is available. After a few tries it sleeps.
    pub fn lock<R: Wait>(&self, rt: &R, user: User<T, V>) -> RuledGuard<T, V>
        requires { user.mutex ≡ self.now }
        ensures { HasLocked P.rule user result }
    {
        let mut seat = user.seat;
        self.acquire(rt, &mut seat);
        self.guard_of(seat)
    }

    /// Acquires the mutex by one exchange without blocking, or returns the user if the mutex is held.
    pub fn try_lock(&self, user: User<T, V>) -> Result<RuledGuard<T, V>, User<T, V>>
        requires { user.mutex ≡ self.now }
        ensures { MatchResult result (HasLocked P.rule user) (λ same. same ≡ user) }
    {
        let mut seat = user.seat;
        if self.try_acquire(&mut seat) {
            Ok(self.guard_of(seat))
        } else {
            Err(User { seat })
        }
    }

    /// Releases the mutex. The caller proves that the rule holds of the new value and the view that `M` gives the user.
    pub fn unlock<M: ViewUpdate<T, V>>(&self, guard: RuledGuard<T, V>) -> User<T, V>
        requires mutex { guard.user.mutex ≡ self.now }
        requires rule { Keeps P.rule guard.taken guard.user.view guard.value
            (M.next guard.taken guard.user.view guard.value) }
        ensures { result ≡ record guard.user { view = M.next guard.taken guard.user.view guard.value } }
    {
        let (user, _notified) = self.release::<M>(guard).told(&self.changed);
        user
    }

    /// Tries, and then sleeps between tries.
    fn acquire<R: Wait>(&self, rt: &R, seat: &mut Seat<Option<T>, UserView<T, V>>)
        requires { MayAcquire self.now seat.old }
        ensures { Acquired P.rule seat.old seat.new }
    {
        if !self.try_acquire(seat) && !self.try_with_backoff(seat) {
            self.block(rt, seat);
        }
    }

    /// Tries a few times, each after a pause.
    pub(crate) fn try_with_backoff(&self, seat: &mut Seat<Option<T>, UserView<T, V>>) -> bool
        requires { MayAcquire self.now seat.old }
        ensures { MayHaveAcquired P.rule result seat.old seat.new }
    {
        let mut pauses = Pauses::new();
        for _ in 0..Pauses::MOST {
            pauses.pause();
            if self.try_acquire(seat) {
                return true;
            }
        }
        false
    }
}
