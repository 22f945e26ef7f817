ghost use Rattle.std.specs.Prelude.{◌≡◌, true, false, IsOkUnless};
ghost use Rattle.std.specs.Sync.Mutex.{mutex_guard_value};
ghost use Rattle.lock_guard.specs.Held.{held_value};
ghost use Rattle.lock_traits.specs.Waits.{WaitedFor};
ghost use Rattle.lock_mutex.specs.Condvar.{raw_condvar_of, HasWaited};
ghost use Rattle.lock_mutex.specs.MutexGuard.{held_of};
ghost use Rattle.lock_mutex.specs.WaitsWhile.{WaitsWhile, has_timed_out};

use crate::sleep::{Sleep, UntilInstant, UntilNotified};
use crate::waiting::sleep_while;
use crate::{MutexGuard, WaitTimeoutResult};
use lock_guard::guard::Acquire;
use lock_modes::Fault;
use lock_traits::{RawCondvar, RawCondvarTimed, RawMutex, RawMutexTimed};
use std::alloc::Global;
use std::fmt;
use std::fmt::{Debug, Formatter};

/// A condition variable, to wait on with the guard of a mutex. A wait may end spuriously.
#[derive(Drop)]
pub struct Condvar<C> {
    raw: C,
}

impl<C: RawCondvar> Condvar<C> {
    /// Makes a condition variable over a new raw one.
    pub fn new(alloc: Global) -> Result<Condvar<C>, Fault>
        ensures { IsOkUnless result Fault.OutOfMemory }
    {
        Ok(Condvar {
            raw: C::new(alloc)?,
        })
    }

    /// `new`, under the name of std's default.
    pub fn default(alloc: Global) -> Result<Condvar<C>, Fault>
        ensures { IsOkUnless result Fault.OutOfMemory }
    {
        Condvar::new(alloc)
    }

    /// Returns the raw condition variable.
    pub fn raw(&self) -> &C
        ensures { result.now ≡ raw_condvar_of self.now }
    {
        &self.raw
    }

    /// Wakes one waiter, and returns what the raw condition variable says: whether one was woken.
    pub fn notify_one(&self) -> bool
        ensures { C.notified_one (raw_condvar_of self.now) result }
    {
        self.raw.notify_one()
    }

    /// Wakes all waiters, and returns what the raw condition variable says: how many were woken.
    pub fn notify_all(&self) -> usize
        ensures { C.notified_all (raw_condvar_of self.now) result }
    {
        self.raw.notify_all()
    }

    /// Releases the mutex, blocks until a notification, and reacquires the mutex.
    pub fn wait<T>(&self, guard: &mut MutexGuard<'_, C::RawMutex, T>)
        ensures lock { (held_of guard.new).lock ≡ (held_of guard.old).lock }
        ensures waited { HasWaited (C.waited (raw_condvar_of self.now)) }
    {
        UntilNotified { raw: &self.raw }.sleep(&mut guard.held);
    }

    /// Waits while `condition` is true. It checks first, so a false condition never blocks.
    pub fn wait_while<T, F: FnMut(&mut T) -> bool>(
        &self,
        guard: &mut MutexGuard<'_, C::RawMutex, T>,
        condition: F,
    )
        requires { F.IsAlwaysCallable condition }
        ensures lock { (held_of guard.new).lock ≡ (held_of guard.old).lock }
        ensures checks { WaitsWhile F.FnMut condition
            (held_value mutex_guard_value (held_of guard.old)) false
            (held_value mutex_guard_value (held_of guard.new)) }
    {
        let sleep = UntilNotified { raw: &self.raw };
        let waiter = guard.held.lock.mutex.raw.waiter();
        sleep_while(waiter, &mut guard.held, sleep, condition);
    }
}

impl<C: RawCondvarTimed> Condvar<C>
where
    C::RawMutex: RawMutexTimed,
{
    /// `wait`, until `deadline`.
    pub fn wait_until<T>(
        &self,
        guard: &mut MutexGuard<'_, C::RawMutex, T>,
        deadline: <C::RawMutex as RawMutexTimed>::Instant,
    ) -> WaitTimeoutResult
        ensures lock { (held_of guard.new).lock ≡ (held_of guard.old).lock }
        ensures waited { HasWaited (λ token.
            C.waited_until (raw_condvar_of self.now) token deadline (has_timed_out result)) }
    {
        let sleep = UntilInstant {
            raw: &self.raw,
            deadline: &deadline,
        };
        let timed_out = sleep.sleep(&mut guard.held);
        WaitTimeoutResult { timed_out }
    }

    /// `wait`, for at most `timeout`. If the deadline cannot be represented, it waits without one and does not time
    /// out.
    pub fn wait_for<T>(
        &self,
        guard: &mut MutexGuard<'_, C::RawMutex, T>,
        timeout: <C::RawMutex as RawMutexTimed>::Duration,
    ) -> WaitTimeoutResult
        ensures lock { (held_of guard.new).lock ≡ (held_of guard.old).lock }
        ensures waited { HasWaited (λ token. WaitedFor (C.waited (raw_condvar_of self.now) token)
            (C.waited_until (raw_condvar_of self.now) token) (has_timed_out result)) }
    {
        let mutex = guard.held.lock.mutex;
        let held = &mut guard.held;
        let (next, timed_out) = self.raw.wait_for(&mutex.raw, held.inner.empty(), &timeout);
        held.inner.fill(next, held.lock.lock_value());
        WaitTimeoutResult { timed_out }
    }

    /// `wait_while`, until `deadline`. After a timeout it checks the condition once more.
    pub fn wait_while_until<T, F: FnMut(&mut T) -> bool>(
        &self,
        guard: &mut MutexGuard<'_, C::RawMutex, T>,
        condition: F,
        deadline: <C::RawMutex as RawMutexTimed>::Instant,
    ) -> WaitTimeoutResult
        requires { F.IsAlwaysCallable condition }
        ensures lock { (held_of guard.new).lock ≡ (held_of guard.old).lock }
        ensures checks { WaitsWhile F.FnMut condition
            (held_value mutex_guard_value (held_of guard.old)) (has_timed_out result)
            (held_value mutex_guard_value (held_of guard.new)) }
        ensures waited { has_timed_out result ≡ true → HasWaited (λ token.
            C.waited_until (raw_condvar_of self.now) token deadline true) }
    {
        let sleep = UntilInstant {
            raw: &self.raw,
            deadline: &deadline,
        };
        let waiter = guard.held.lock.mutex.raw.waiter();
        let timed_out = sleep_while(waiter, &mut guard.held, sleep, condition);
        WaitTimeoutResult { timed_out }
    }

    /// `wait_while`, for at most `timeout`. If the deadline cannot be represented, it waits without one and does not
    /// time out.
    pub fn wait_while_for<T, F: FnMut(&mut T) -> bool>(
        &self,
        guard: &mut MutexGuard<'_, C::RawMutex, T>,
        condition: F,
        timeout: <C::RawMutex as RawMutexTimed>::Duration,
    ) -> WaitTimeoutResult
        requires { F.IsAlwaysCallable condition }
        ensures lock { (held_of guard.new).lock ≡ (held_of guard.old).lock }
        ensures checks { WaitsWhile F.FnMut condition
            (held_value mutex_guard_value (held_of guard.old)) (has_timed_out result)
            (held_value mutex_guard_value (held_of guard.new)) }
        ensures waited { has_timed_out result ≡ true → HasWaited (λ token.
            (deadline : C.RawMutex.Instant) × C.waited_until (raw_condvar_of self.now) token deadline true) }
    {
        let mutex = guard.held.lock.mutex;
        if let Some(deadline) = C::instant_after(&mutex.raw, &timeout) {
            return self.wait_while_until(guard, condition, deadline);
        }
        self.wait_while(guard, condition);
        WaitTimeoutResult { timed_out: false }
    }
}

impl<C> Debug for Condvar<C> {
    fn fmt<W: fmt::Write>(&self, f: &mut Formatter<W>) -> fmt::Result {
        f.write_str("Condvar { .. }")
    }
}
