//! A condition variable for guards of ranked mutexes.
ghost use Rattle.std.specs.Prelude.{◌≡◌, false, IsOkUnless};
ghost use Rattle.std.specs.Sync.Mutex.{mutex_guard_value};
ghost use Rattle.lock_guard.specs.Held.{held_value};
ghost use Rattle.lock_traits.specs.Waits.{WaitedFor};
ghost use Rattle.lock_mutex.specs.Condvar.{raw_condvar_of, HasWaited};
ghost use Rattle.lock_mutex.specs.WaitsWhile.{WaitsWhile, has_timed_out};
ghost use Rattle.lock_ranked.specs.Condvars.{plain_of};
ghost use Rattle.lock_ranked.specs.Guards.{held_of};

use crate::mutex::RankedMutexGuard;
use crate::order::Order;
use crate::rank::{AtRank, Rank};
use lock_modes::Fault;
use lock_mutex::{Condvar, WaitTimeoutResult};
use lock_traits::{RawCondvar, RawCondvarTimed, RawMutexTimed};
use std::alloc::Global;

/// A condition variable, to wait on with the guard of a ranked mutex. A wait may end spuriously.
///
/// A thread waits with nothing else held. Its order was at 0 when it acquired the mutex, and the order at `K` shows that it
/// holds nothing that it acquired since. No rank shows that some thread notifies.
///
/// # Examples
///
/// ```
/// fn wait_for_place<C: RawCondvar>(
///     pool: &RankedMutex<C::RawMutex, u64, AtRank<20>>,
///     freed: &RankedCondvar<C>,
///     order: &mut Order<'_, AtRank<0>>,
/// ) {
///     let (mut free, mut above) = pool.lock(order);
///     freed.wait_while(&mut free, &mut above, |free| *free == 0);
///     *free = free.wrapping_sub(1);
/// }
/// ```
#[derive(Drop)]
pub struct RankedCondvar<C> {
    condvar: Condvar<C>,
}

impl<C: RawCondvar> RankedCondvar<C> {
    /// Makes a condition variable over a new raw one.
    pub fn new(alloc: Global) -> Result<RankedCondvar<C>, Fault>
        ensures { IsOkUnless result Fault.OutOfMemory }
    {
        Ok(RankedCondvar {
            condvar: Condvar::new(alloc)?,
        })
    }

    /// Wakes one waiter, and returns what the raw condition variable says: whether one was woken.
    pub fn notify_one(&self) -> bool
        ensures { C.notified_one (raw_condvar_of (plain_of self.now)) result }
    {
        self.condvar.notify_one()
    }

    /// Wakes all waiters, and returns what the raw condition variable says: how many were woken.
    pub fn notify_all(&self) -> usize
        ensures { C.notified_all (raw_condvar_of (plain_of self.now)) result }
    {
        self.condvar.notify_all()
    }

    /// Releases the mutex, blocks until a notification, and reacquires the mutex.
    pub fn wait<'o, T, K: Rank>(
        &self,
        guard: &mut RankedMutexGuard<'_, 'o, C::RawMutex, T, AtRank<0>, K>,
        _order: &mut Order<'o, K>,
    )
        ensures lock { (held_of guard.new).lock ≡ (held_of guard.old).lock }
        ensures waited { HasWaited (C.waited (raw_condvar_of (plain_of self.now))) }
    {
        self.condvar.wait(&mut guard.guard);
    }

    /// Waits while `condition` is true. It checks first, so a false condition never blocks.
    pub fn wait_while<'o, T, K: Rank, F: FnMut(&mut T) -> bool>(
        &self,
        guard: &mut RankedMutexGuard<'_, 'o, C::RawMutex, T, AtRank<0>, K>,
        _order: &mut Order<'o, K>,
        condition: F,
    )
        requires { F.IsAlwaysCallable condition }
        ensures lock { (held_of guard.new).lock ≡ (held_of guard.old).lock }
        ensures checks { WaitsWhile F.FnMut condition
            (held_value mutex_guard_value (held_of guard.old)) false
            (held_value mutex_guard_value (held_of guard.new)) }
    {
        self.condvar.wait_while(&mut guard.guard, condition);
    }
}

impl<C: RawCondvarTimed> RankedCondvar<C>
where
    C::RawMutex: RawMutexTimed,
{
    /// `wait`, until `deadline`.
    pub fn wait_until<'o, T, K: Rank>(
        &self,
        guard: &mut RankedMutexGuard<'_, 'o, C::RawMutex, T, AtRank<0>, K>,
        _order: &mut Order<'o, K>,
        deadline: <C::RawMutex as RawMutexTimed>::Instant,
    ) -> WaitTimeoutResult
        ensures lock { (held_of guard.new).lock ≡ (held_of guard.old).lock }
        ensures waited { HasWaited (λ token.
            C.waited_until (raw_condvar_of (plain_of self.now)) token deadline (has_timed_out result)) }
    {
        self.condvar.wait_until(&mut guard.guard, deadline)
    }

    /// `wait`, for at most `timeout`. If the deadline cannot be represented, it waits without one and does not time
    /// out.
    pub fn wait_for<'o, T, K: Rank>(
        &self,
        guard: &mut RankedMutexGuard<'_, 'o, C::RawMutex, T, AtRank<0>, K>,
        _order: &mut Order<'o, K>,
        timeout: <C::RawMutex as RawMutexTimed>::Duration,
    ) -> WaitTimeoutResult
        ensures lock { (held_of guard.new).lock ≡ (held_of guard.old).lock }
        ensures waited { HasWaited (λ token.
            WaitedFor (C.waited (raw_condvar_of (plain_of self.now)) token)
            (C.waited_until (raw_condvar_of (plain_of self.now)) token) (has_timed_out result)) }
    {
        self.condvar.wait_for(&mut guard.guard, timeout)
    }

    /// `wait_while`, until `deadline`. After a timeout it checks the condition once more.
    pub fn wait_while_until<'o, T, K: Rank, F: FnMut(&mut T) -> bool>(
        &self,
        guard: &mut RankedMutexGuard<'_, 'o, C::RawMutex, T, AtRank<0>, K>,
        _order: &mut Order<'o, K>,
        condition: F,
        deadline: <C::RawMutex as RawMutexTimed>::Instant,
    ) -> WaitTimeoutResult
        requires { F.IsAlwaysCallable condition }
        ensures lock { (held_of guard.new).lock ≡ (held_of guard.old).lock }
        ensures checks { WaitsWhile F.FnMut condition
            (held_value mutex_guard_value (held_of guard.old)) (has_timed_out result)
            (held_value mutex_guard_value (held_of guard.new)) }
    {
        self.condvar
            .wait_while_until(&mut guard.guard, condition, deadline)
    }

    /// `wait_while`, for at most `timeout`. If the deadline cannot be represented, it waits without one and does not
    /// time out.
    pub fn wait_while_for<'o, T, K: Rank, F: FnMut(&mut T) -> bool>(
        &self,
        guard: &mut RankedMutexGuard<'_, 'o, C::RawMutex, T, AtRank<0>, K>,
        _order: &mut Order<'o, K>,
        condition: F,
        timeout: <C::RawMutex as RawMutexTimed>::Duration,
    ) -> WaitTimeoutResult
        requires { F.IsAlwaysCallable condition }
        ensures lock { (held_of guard.new).lock ≡ (held_of guard.old).lock }
        ensures checks { WaitsWhile F.FnMut condition
            (held_value mutex_guard_value (held_of guard.old)) (has_timed_out result)
            (held_value mutex_guard_value (held_of guard.new)) }
    {
        self.condvar
            .wait_while_for(&mut guard.guard, condition, timeout)
    }
}
