//! A release of the mutex, and the users that wait for a condition of its value.
ghost use Rattle.std.specs.Prelude.{◌≡◌, true, IfErr};
ghost use Rattle.lock_modes.specs.declared.fault.Fault.TheVariants as fault;
ghost use Rattle.lock_ruled.specs.Ruled.{Keeps};

use crate::guard::RuledGuard;
use crate::mutex::RuledMutex;
use crate::plays::Stay;
use crate::rule::{MutexRule, ViewUpdate};
use crate::user::User;
use lock_modes::Fault;
use lock_wake::{EventCount, Notified, Registered};
use std::alloc::Global;
use std::marker::Model;
use std::sync::Wait;
use std::time::Duration;

/// A user that released the mutex, and has yet to notify. It cannot be dropped, so a release ends in one of two ways. It
/// notifies all users that wait for a condition. Or its user registered to wait for one, and left the value as it was.
pub(crate) struct Released<T, V> {
    user: User<T, V>,
}

impl<T, V> Model for Released<T, V> {
    ghost use Rattle.lock_ruled.specs.Ruled.{UserState};

    ghost Value = { UserState V };

    ghost view = { λ r. r.user };
}

/// The users that wait until the value has changed.
#[derive(Drop)]
pub(crate) struct Changed {
    events: EventCount,
}

impl Model for Changed {
    ghost use Rattle.atomic_table.specs.Seated.{TableId};

    ghost Value = { TableId };

    ghost view = { λ c. c.events };
}

/// A user's wait for a condition: it registered, and then released the mutex. It cannot be dropped: `Changed::sleep` or
/// `leave` ends it.
pub(crate) struct ConditionWait {
    registered: Registered,
}

impl Model for ConditionWait {
    ghost use Rattle.atomic_table.specs.Seated.{TableId};

    ghost Value = { TableId };

    ghost view = { λ w. w.registered.events };
}

impl Changed {
    pub(crate) fn new(alloc: Global) -> Result<Changed, Fault>
        ensures { IfErr result (λ error. error ≡ fault.OutOfMemory) }
    {
        Ok(Changed {
            events: EventCount::new(alloc)?,
        })
    }

    /// Registers a wait: an `unlock` from now on ends its sleep.
    pub(crate) fn register<R: Wait>(&self, rt: &R) -> Registered
        ensures { result.events ≡ self.now }
    {
        self.events.register(rt)
    }

    /// Sleeps until an `unlock` since the registration, or for this time. It may end spuriously.
    pub(crate) fn sleep<R: Wait>(&self, rt: &R, waiting: ConditionWait, time: Option<Duration>)
        requires { waiting ≡ self.now }
    {
        let ConditionWait { registered } = waiting;
        match time {
            Some(time) => drop(self.events.sleep_for(rt, registered, time)),
            None => drop(self.events.sleep(rt, registered)),
        }
    }

    /// Ends a wait without a sleep.
    pub(crate) fn leave(&self, waiting: ConditionWait)
        requires { waiting ≡ self.now }
    {
        let ConditionWait { registered } = waiting;
        self.events.leave(registered);
    }
}

impl<T, V> Released<T, V> {
    /// Notifies all users that wait for a condition, and returns the user.
    pub(crate) fn told(self, changed: &Changed) -> (User<T, V>, Notified)
        ensures user { result.0 ≡ self }
        ensures events { result.1.events ≡ changed.now }
        ensures all { result.1.all ≡ true }
    {
        let Released { user } = self;
        (user, changed.events.notify_all())
    }
}

impl<T: Drop, V, P: MutexRule<T, V>> RuledMutex<T, V, P> {
    /// Releases the mutex by a user that registered to wait for a condition, and left the value as it was. It wakes no
    /// other such user.
    pub(crate) fn release_unchanged(
        &self,
        guard: RuledGuard<T, V>,
        registered: Registered,
    ) -> (User<T, V>, ConditionWait)
        requires mutex { guard.user.mutex ≡ self.now }
        requires unchanged { guard.value ≡ guard.taken }
        ensures user { result.0 ≡ guard.user }
        ensures waiting { result.1 ≡ registered.events }
    {
        let Released { user } = self.release::<Stay>(guard);
        (user, ConditionWait { registered })
    }

    /// Releases the mutex as `unlock` does, but wakes no user that waits for a condition.
    pub(crate) fn release<M: ViewUpdate<T, V>>(&self, guard: RuledGuard<T, V>) -> Released<T, V>
        requires mutex { guard.user.mutex ≡ self.now }
        requires rule { Keeps P.rule guard.taken guard.user.view guard.value
            (M.next guard.taken guard.user.view guard.value) }
        ensures { result ≡ record guard.user { view = M.next guard.taken guard.user.view guard.value } }
    {
        let (mut seat, was_awaited) = self.put_back::<M>(guard);
        if was_awaited {
            let wake_up = self.end_epoch(&mut seat);
            self.wake(wake_up);
        }
        Released {
            user: User { seat },
        }
    }
}
