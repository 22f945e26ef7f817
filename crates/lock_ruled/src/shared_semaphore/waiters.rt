//! The threads that wait for permits.
ghost use Rattle.std.specs.Prelude.{◌≡◌, true, IfErr};
ghost use Rattle.lock_modes.specs.declared.fault.Fault.TheVariants as fault;
ghost use Rattle.lock_ruled.specs.PermitCalls.{IsRefused};

use crate::shared_semaphore::table::PermitCall;
use lock_modes::Fault;
use lock_wake::{EventCount, Notified, Registered, Slept};
use std::alloc::Global;
use std::marker::Model;
use std::sync::Wait;
use std::time::Duration;

/// The threads that sleep until permits are released.
#[derive(Drop)]
pub(crate) struct PermitWaiters {
    released: EventCount,
}

impl Model for PermitWaiters {
    ghost use Rattle.atomic_table.specs.Seated.{TableId};

    ghost Value = { TableId };

    ghost view = { λ w. w.released };
}

impl PermitWaiters {
    pub(crate) fn new(alloc: Global) -> Result<PermitWaiters, Fault>
        ensures { IfErr result (λ error. error ≡ fault.OutOfMemory) }
    {
        Ok(PermitWaiters {
            released: EventCount::new(alloc)?,
        })
    }

    /// Registers a wait: a release from now on ends its sleep.
    pub(crate) fn register<R: Wait>(&self, rt: &R) -> Registered
        ensures { result.events ≡ self.now }
    {
        self.released.register(rt)
    }

    /// Sleeps until permits are released, or for this time. It may end spuriously.
    ///
    /// The call keeps the registration, so its last look at the free permits followed the registration.
    pub(crate) fn sleep<R: Wait>(
        &self,
        rt: &R,
        call: PermitCall<Registered>,
        time: Option<Duration>,
    ) -> Slept
        requires events { call.kept.events ≡ self.now }
        requires refused { IsRefused call }
        ensures { (result.events ≡ self.now) × (result.number ≡ call.kept.number) }
    {
        let registered = call.leave();
        match time {
            Some(time) => self.released.sleep_for(rt, registered, time),
            None => self.released.sleep(rt, registered),
        }
    }

    /// Ends a wait without a sleep.
    pub(crate) fn leave(&self, registered: Registered)
        requires { registered.events ≡ self.now }
    {
        self.released.leave(registered);
    }

    /// Wakes all threads that sleep.
    pub(crate) fn notify_all(&self) -> Notified
        ensures events { result.events ≡ self.now }
        ensures all { result.all ≡ true }
    {
        self.released.notify_all()
    }
}
