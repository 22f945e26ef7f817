//! How a thread waits for a notification.
ghost use Rattle.std.specs.Prelude.{◌≡◌, false, Some, None};
ghost use Rattle.std.specs.Time.{instant_nanos};

use crate::sleepers::event_count::{EventCount, Registered, Slept};
use crate::sleepers::registration::Registration;
use lock_events::EventAction;
use lock_time::time_left;
use std::sync::Wait;
use std::time::{Clock, Duration, Instant};

impl EventCount {
    /// Registers a wait: a notification that begins from now on ends its sleep.
    ///
    /// If the count is full, or the last epoch has yet to end, the wait does not register: its sleep yields.
    ///
    /// # Blocking
    /// It repeats an exchange that other threads disturbed.
    pub fn register<R: Wait>(&self, rt: &R) -> Registered
        ensures { result.events ≡ self.now }
    {
        let mut call = self.begin_wait();
        for _ in rt.forever() {
            match call.action() {
                EventAction::Exchange(old, new) => self.exchange(&mut call, old, new),
                _ => return self.watch(call),
            }
        }
        unreachable!()
    }

    /// Registers a wait as `register` does. The registration keeps the token until `released`.
    pub(crate) fn register_with<R: Wait, T>(&self, rt: &R, token: T) -> Registration<T>
        ensures events { result.events ≡ self.now }
        ensures token { result.token ≡ token }
    {
        Registration::new(self.register(rt), token)
    }

    /// Sleeps until a notification ends the epoch of the registration, and leaves. It may end spuriously.
    pub fn sleep<R: Wait>(&self, rt: &R, registered: Registered) -> Slept
        requires { registered.events ≡ self.now }
        ensures wait { (result.events ≡ self.now) × (result.number ≡ registered.number) }
        ensures deadline { result.deadline ≡ None }
        ensures in_time { result.timed_out ≡ false }
    {
        let parked = self.park(rt, registered, None);
        self.rise(parked, None, false)
    }

    /// Sleeps as `sleep` does, until `deadline` at most. If the clock cannot be read, it times out.
    pub fn sleep_until<R: Wait + Clock>(
        &self,
        rt: &R,
        registered: Registered,
        deadline: Instant,
    ) -> Slept
        requires { registered.events ≡ self.now }
        ensures wait { (result.events ≡ self.now) × (result.number ≡ registered.number) }
        ensures deadline { result.deadline ≡ Some (instant_nanos deadline) }
    {
        let Some(left) = time_left(rt, deadline) else {
            return self.time_out(registered, deadline);
        };
        let parked = self.park(rt, registered, Some(left));
        let timed_out = time_left(rt, deadline).is_none();
        self.rise(parked, Some(deadline), timed_out)
    }

    /// Sleeps as `sleep` does, for at most `time`.
    pub fn sleep_for<R: Wait>(&self, rt: &R, registered: Registered, time: Duration) -> Slept
        requires { registered.events ≡ self.now }
        ensures wait { (result.events ≡ self.now) × (result.number ≡ registered.number) }
        ensures deadline { result.deadline ≡ None }
        ensures in_time { result.timed_out ≡ false }
    {
        let parked = self.park(rt, registered, Some(time));
        self.rise(parked, None, false)
    }
}
