//! The threads that wait at a monitor.
ghost use Rattle.std.specs.Prelude.{IfErr, ◌≡◌};
ghost use Rattle.lock_modes.specs.declared.fault.Fault.TheVariants as fault;
ghost use Rattle.lock_raws_monitor.specs.Waking.{Wakes};
ghost use Rattle.lock_wake.specs.EventCalls.{Waited};

use crate::monitor_wake::MonitorWake;
use lock_modes::Fault;
use lock_traits::lock_std;
use lock_wake::{LockWaits, Notified, Whom};
use std::alloc::Global;
use std::sync::{Mutex, MutexGuard, Wait};

/// The threads that wait for a change of what a std mutex protects.
#[derive(Drop)]
pub(crate) struct MonitorWaiters {
    changed: LockWaits,
}

impl MonitorWaiters {
    /// Makes a value without waiters.
    pub(crate) fn new(alloc: Global) -> Result<MonitorWaiters, Fault>
        ensures { IfErr result (λ error. error ≡ fault.OutOfMemory) }
    {
        Ok(MonitorWaiters {
            changed: LockWaits::new(alloc)?,
        })
    }

    /// Releases the mutex until a change, and acquires it again. It may end spuriously.
    ///
    /// It registers under the mutex, so a call that had the mutex later wakes it.
    pub(crate) fn wait<'a, W: Wait, A>(
        &self,
        waiter: &W,
        mutex: &'a Mutex<A>,
        guard: MutexGuard<'a, A>,
    ) -> MutexGuard<'a, A>
        ensures { Waited self.now.changed guard.entry }
    {
        self.changed.wait(waiter, guard);
        lock_std(mutex, waiter)
    }

    /// Makes an owed wake-up. One load if no thread waits.
    pub(crate) fn wake(&self, owed: MonitorWake) -> Option<Notified>
        ensures { Wakes self.now.changed owed result }
    {
        let MonitorWake { whom } = owed;
        match whom {
            Whom::Nobody => None,
            Whom::One => Some(self.changed.notify_one()),
            Whom::All => Some(self.changed.notify_all()),
        }
    }
}
