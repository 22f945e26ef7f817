//! Waits that release a lock.
ghost use Rattle.std.specs.Prelude.{◌≡◌, true, false, None, Some, IfErr};
ghost use Rattle.std.specs.Time.{instant_nanos};
ghost use Rattle.lock_modes.specs.declared.fault.Fault.TheVariants as fault;
ghost use Rattle.lock_wake.specs.EventCalls.{HasKept, HasSlept};

use crate::sleepers::event_count::{EventCount, Notified, Registered, Slept};
use lock_modes::Fault;
use std::alloc::Global;
use std::marker::Model;
use std::sync::{MutexGuard, Wait};
use std::time::{Clock, Duration, Instant};

/// A held lock, which a wait releases.
pub trait HeldLock: Sized {
    /// Releases the lock.
    fn release(self);
}

impl<T> HeldLock for MutexGuard<'_, T> {
    fn release(self) {
        drop(self);
    }
}

/// An event count whose waits release a lock: a wait registers, releases the lock, and sleeps.
///
/// Its users can neither register nor sleep by themselves. So a wait that sleeps before the release, or twice for one release,
/// does not compile.
#[derive(Drop)]
pub struct LockWaits {
    events: EventCount,
}

impl Model for LockWaits {
    ghost use Rattle.atomic_table.specs.Seated.{TableId};

    ghost Value = { TableId };

    ghost view = { λ e. e.events };
}

impl LockWaits {
    /// Makes an event count without waits. No other call allocates.
    pub fn new(alloc: Global) -> Result<LockWaits, Fault>
        ensures { IfErr result (λ error. error ≡ fault.OutOfMemory) }
    {
        Ok(LockWaits {
            events: EventCount::new(alloc)?,
        })
    }

    /// Registers a wait, releases the lock, and sleeps until a notification. It may end spuriously.
    pub fn wait<R: Wait, L: HeldLock>(&self, rt: &R, held: L) -> Slept
        ensures slept { HasSlept self.now held None result }
        ensures in_time { result.timed_out ≡ false }
    {
        let registered = self.register(rt, held);
        self.events.sleep(rt, registered)
    }

    /// `wait`, which sleeps until `deadline` at most. If the clock cannot be read, it times out.
    pub fn wait_until<R: Wait + Clock, L: HeldLock>(
        &self,
        rt: &R,
        held: L,
        deadline: Instant,
    ) -> Slept
        ensures { HasSlept self.now held (Some (instant_nanos deadline)) result }
    {
        let registered = self.register(rt, held);
        self.events.sleep_until(rt, registered, deadline)
    }

    /// `wait`, which sleeps for at most `time`.
    pub fn wait_for<R: Wait, L: HeldLock>(&self, rt: &R, held: L, time: Duration) -> Slept
        ensures { HasSlept self.now held None result }
    {
        let registered = self.register(rt, held);
        self.events.sleep_for(rt, registered, time)
    }

    /// Wakes one thread that sleeps, as `EventCount::notify_one`.
    pub fn notify_one(&self) -> Notified
        ensures events { result.events ≡ self.now }
        ensures one { result.all ≡ false }
    {
        self.events.notify_one()
    }

    /// Wakes all threads that sleep, as `EventCount::notify_all`.
    pub fn notify_all(&self) -> Notified
        ensures events { result.events ≡ self.now }
        ensures all { result.all ≡ true }
    {
        self.events.notify_all()
    }

    /// Registers a wait, and releases the lock.
    fn register<R: Wait, L: HeldLock>(&self, rt: &R, held: L) -> Registered
        ensures events { result.events ≡ self.now }
        ensures kept { HasKept self.now held result.number }
    {
        let (registered, held) = self.events.register_with(rt, held).released();
        held.release();
        registered
    }
}
