//! A condition variable whose waiters sleep.
use lock_modes::Fault;
use lock_raws::TimedRaw;
use lock_traits::{RawCondvar, RawCondvarTimed, RawMutex, RawMutexTimed};
use lock_wake::{HeldLock, LockWaits};
use std::alloc::Global;
use std::marker::{Model, PhantomData};
use std::time::{Clock, Duration, Instant};

/// A condition variable over any raw mutex. A wait registers, releases the mutex, and sleeps. A notification that begins
/// after the wait registered ends its sleep: see `every_state_wakes_the_registered`. Without waiters a notification is one
/// load.
///
/// `notify_one` answers whether a waiter was counted, and `notify_all` how many were: those that are about to register are
/// counted too.
#[derive(Drop)]
pub struct SleepingCondvar<R> {
    waiting: LockWaits,
    mutex: PhantomData<R>,
}

/// A condition variable over a `TimedRaw`, whose timed waits sleep for as long as they are told.
pub type TimedCondvar<W> = SleepingCondvar<TimedRaw<W>>;

/// The token of a mutex that a wait releases. Contracts see the token.
struct HeldMutex<'a, R: RawMutex> {
    mutex: &'a R,
    token: R::Guard,
}

impl<'a, R: RawMutex> Model for HeldMutex<'a, R> {
    ghost use Rattle.std.specs.Prelude.{◌≡◌, true};

    ghost Value = { R.Guard };

    ghost view = { λ held. held.token };

    ghost invariant = { λ held. R.is_own held.mutex.now held.token ≡ true };
}

impl<'a, R: RawMutex> HeldLock for HeldMutex<'a, R> {
    fn release(self) {
        let HeldMutex { mutex, token } = self;
        mutex.unlock(token);
    }
}

impl<R: RawMutex> RawCondvar for SleepingCondvar<R> {
    ghost use Rattle.lock_raws_condvar.specs.Condvars.{Waited, NotifiedOne, NotifiedAll};

    type RawMutex = R;

    ghost waited = { λ condvar token. Waited condvar.waiting token };

    ghost notified_one = { λ condvar woke. NotifiedOne condvar.waiting woke };

    ghost notified_all = { λ condvar count. NotifiedAll condvar.waiting count };

    fn new(alloc: Global) -> Result<SleepingCondvar<R>, Fault> {
        Ok(SleepingCondvar {
            waiting: LockWaits::new(alloc)?,
            mutex: PhantomData,
        })
    }

    fn wait(&self, mutex: &R, token: R::Guard) -> R::Guard {
        self.waiting
            .wait(mutex.waiter(), HeldMutex { mutex, token });
        mutex.lock()
    }

    fn notify_one(&self) -> bool {
        self.waiting.notify_one().waiters() > 0
    }

    fn notify_all(&self) -> usize {
        self.waiting.notify_all().waiters() as usize
    }
}

/// Over a raw mutex that measures time, by its waiter's clock.
impl<R: RawMutexTimed<Duration = Duration, Instant = Instant>> RawCondvarTimed
    for SleepingCondvar<R>
where
    R::Waiter: Clock,
{
    ghost use Rattle.lock_raws_condvar.specs.Condvars.{WaitedUntil};

    ghost waited_until = { λ condvar token deadline timed_out.
        WaitedUntil condvar.waiting token deadline timed_out };

    /// `None`: there is no clock here.
    fn checked_duration_to_instant(_timeout: &Duration) -> Option<Instant> {
        None
    }

    fn instant_after(mutex: &R, timeout: &Duration) -> Option<Instant> {
        Instant::now(mutex.waiter()).ok()?.checked_add(*timeout)
    }

    fn wait_until(&self, mutex: &R, token: R::Guard, deadline: &Instant) -> (R::Guard, bool) {
        let held = HeldMutex { mutex, token };
        let slept = self.waiting.wait_until(mutex.waiter(), held, *deadline);
        (mutex.lock(), slept.has_timed_out())
    }
}
