//! How the waiters of a fair lock sleep.
ghost use Rattle.std.specs.Prelude.{◌≡◌, true, is_some, None, IfSome};
ghost use Rattle.std.specs.Sync.Mutex.{mutex_guard_value};
ghost use Rattle.lock_raws_fair.specs.Sleeping.{events_of, MaySleep, UpgradeMaySleep};
ghost use Rattle.lock_wake.specs.EventCalls.{HasSlept};

use crate::acquisition::{Acquisition, Waiting};
use crate::fair_arbiter::FairArbiter;
use crate::upgrade::{Upgrade, WaitingUpgrade};
use crate::waiters::FairWaiters;
use lock_raws::Timing;
use lock_raws_monitor::Arbiter;
use lock_wake::{LockWaits, Slept};
use std::sync::{MutexGuard, Wait};

impl FairWaiters {
    /// Registers an acquisition on its ticket's event count, ends the section, and sleeps until a notification or until the
    /// deadline. It may end spuriously.
    pub(crate) fn sleep<A: Arbiter, W: Wait, T: Timing<W>>(
        &self,
        waiter: &W,
        waiting: Waiting,
        state: MutexGuard<'_, FairArbiter<A>>,
        deadline: &Option<T::Instant>,
    ) -> (Acquisition, Option<Slept>)
        requires may { MaySleep (mutex_guard_value state) waiting.acquisition }
        ensures acquisition { result.0 ≡ waiting.acquisition }
        ensures slept { IfSome result.1 (λ slept. HasSlept (events_of self.now.tickets self.now.ticketless waiting.acquisition.ticket) state.entry None slept) }
        ensures sleeps { deadline.now ≡ None → is_some result.1 ≡ true }
    {
        let events = self.events(waiting.ticket());
        let slept = sleep::<A, W, T>(events, waiter, state, deadline);
        (waiting.resumed(), slept)
    }

    /// `sleep` for the holder whose upgrade waits.
    pub(crate) fn sleep_upgrade<A: Arbiter, W: Wait, T: Timing<W>>(
        &self,
        waiter: &W,
        waiting: WaitingUpgrade<A::Token>,
        state: MutexGuard<'_, FairArbiter<A>>,
        deadline: &Option<T::Instant>,
    ) -> (Upgrade<A::Token>, Option<Slept>)
        requires may { UpgradeMaySleep (mutex_guard_value state) waiting.pending }
        ensures upgrade { result.0.pending ≡ waiting.pending }
        ensures slept { IfSome result.1 (λ slept. HasSlept self.now.upgrader state.entry None slept) }
        ensures sleeps { deadline.now ≡ None → is_some result.1 ≡ true }
    {
        let slept = sleep::<A, W, T>(&self.upgrader, waiter, state, deadline);
        (waiting.resumed(), slept)
    }
}

/// Registers on the event count, ends the section, and sleeps. If the deadline has passed, it only ends the section.
fn sleep<A: Arbiter, W: Wait, T: Timing<W>>(
    events: &LockWaits,
    waiter: &W,
    state: MutexGuard<'_, FairArbiter<A>>,
    deadline: &Option<T::Instant>,
) -> Option<Slept>
    ensures slept { IfSome result (λ slept. HasSlept events.now state.entry None slept) }
    ensures sleeps { deadline.now ≡ None → is_some result ≡ true }
{
    let Some(deadline) = deadline else {
        return Some(events.wait(waiter, state));
    };
    match T::time_left(waiter, deadline) {
        Some(left) => Some(events.wait_for(waiter, state, left)),
        None => {
            drop(state);
            None
        }
    }
}
