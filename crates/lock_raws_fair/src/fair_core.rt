//! A fair arbiter behind a std mutex.
ghost use Rattle.std.specs.Prelude.{◌≡◌, true, IsTrue, IfSome, IfNone, IfOk, IfErr, OnErr, is_some};
ghost use Rattle.std.specs.Bool.{OnTrue};
ghost use Rattle.lock_modes.specs.declared.mode.Mode.TheVariants.{Upgradable, Exclusive};
ghost use Rattle.lock_raws_monitor.specs.ModeTokens.{same_mode};

use crate::acquisition::Acquisition;
use crate::fair_arbiter::{FairArbiter, FairToken};
use crate::fair_wake::FairWake;
use crate::upgrade::Upgrade;
use crate::waiters::FairWaiters;
use lock_modes::{Fault, Mode};
use lock_raws::{LockCore, NoTime, RawLock, RealTime, Timing};
use lock_raws_monitor::{Arbiter, TableArbiter};
use lock_traits::lock_std;
use std::alloc::Global;
use std::clone::Clone;
use std::marker::PhantomData;
use std::sync::{Mutex, MutexGuard, Wait};

/// A raw lock that admits in the order of arrival. Pick it where no thread may starve. A timed try is a plain try.
///
/// An acquisition arrives when it joins the line, under the lock's std `Mutex`. It is not admitted while one that
/// arrived before it waits. A try is refused while any acquisition waits. The upgrade of a holder goes first.
pub type FairRaw<W> = RawLock<FairCore<TableArbiter, W, NoTime>>;

/// `FairRaw` with timed calls that block for as long as they are told, by the waiter's clock.
///
/// At most 64 tickets from the first on may be timed. A timed call beyond them waits without a ticket, and may be
/// overtaken until it gets one.
pub type TimedFairRaw<W> = RawLock<FairCore<TableArbiter, W, RealTime>>;

/// A `LockCore`: a std `Mutex` around a `FairArbiter`, and event counts on which waiters sleep.
#[derive(Drop)]
pub struct FairCore<A: Arbiter, W: Wait + Clone + Drop, T: Timing<W>> {
    waiter: W,
    state: Mutex<FairArbiter<A>>,
    waiters: FairWaiters,
    timing: PhantomData<T>,
}

impl<A: Arbiter, W: Wait + Clone + Drop, T: Timing<W>> FairCore<A, W, T> {
    /// Locks the state. Each call holds this lock for a moment.
    fn state(&self) -> MutexGuard<'_, FairArbiter<A>> {
        lock_std(&self.state, &self.waiter)
    }

    /// Returns how many acquisitions have joined the line. The answer may be stale at once.
    pub fn arrivals(&self) -> u64 {
        self.state().line().issued()
    }

    /// Returns whether there is a deadline, and it has passed.
    fn is_over(&self, deadline: &Option<T::Instant>) -> bool
        ensures { OnTrue result (IsTrue (is_some deadline.now)) }
    {
        match deadline {
            Some(deadline) => T::time_left(&self.waiter, deadline).is_none(),
            None => false,
        }
    }

    /// Acquires the mode, blocking until it is admitted or until the deadline.
    fn acquire_until(
        &self,
        mode: Mode,
        deadline: &Option<T::Instant>,
    ) -> Option<FairToken<A::Token>>
        ensures held { IfSome result (λ held. held.mode ≡ mode) }
        ensures refused { IfNone result (IsTrue (is_some deadline.now)) }
    {
        let passed = self.state().pass(mode);
        match passed {
            Some(token) => Some(token),
            None => self.wait(Acquisition::new(mode, deadline.is_some()), deadline),
        }
    }

    /// The slow path of `acquire_until`.
    ///
    /// A caller that gets a ticket first spins for a moment. Each later round looks at the state and registers in one
    /// section, so a later step notifies the caller.
    #[inline(never)]
    fn wait(
        &self,
        acquisition: Acquisition,
        deadline: &Option<T::Instant>,
    ) -> Option<FairToken<A::Token>>
        requires timed { acquisition.is_timed ≡ is_some deadline.now }
        ensures held { IfSome result (λ held. held.mode ≡ acquisition.mode) }
        ensures refused { IfNone result (IsTrue (is_some deadline.now)) }
    {
        let mut next = acquisition;
        for _ in self.waiter.forever() {
            let mut state = self.state();
            let refused = match state.attempt(next) {
                Ok((token, woken)) => {
                    drop(state);
                    self.wake(woken);
                    return Some(token);
                }
                Err(refused) => refused,
            };
            let refused = match state.end_if(self.is_over(deadline), refused) {
                Ok(woken) => {
                    drop(state);
                    self.wake(woken);
                    return None;
                }
                Err(same) => same,
            };
            let (waiting, spins) = state.join(refused);
            if spins {
                next = self.waiters.spin(waiting, state);
                continue;
            }
            let (resumed, _slept) = self
                .waiters
                .sleep::<A, W, T>(&self.waiter, waiting, state, deadline);
            next = resumed;
        }
        unreachable!()
    }

    /// Wakes the waiters of a step, if it has any.
    fn wake(&self, woken: Option<FairWake>) {
        if let Some(woken) = woken {
            woken.wake(&self.waiters);
        }
    }

    /// Makes an upgradable token exclusive, blocking until no other token is held or until the deadline.
    fn upgrade_until(
        &self,
        token: FairToken<A::Token>,
        deadline: &Option<T::Instant>,
    ) -> Result<FairToken<A::Token>, FairToken<A::Token>>
        requires { token.mode ≡ Upgradable }
        ensures held { IfOk result (λ next. next.mode ≡ Exclusive) }
        ensures back { IfErr result (λ back. back ≡ token) }
        ensures refused { OnErr result (IsTrue (is_some deadline.now)) }
    {
        let mut next = Upgrade::of(token);
        for _ in self.waiter.forever() {
            let mut state = self.state();
            let refused = match state.attempt_upgrade(next) {
                Ok(token) => return Ok(token),
                Err(refused) => refused,
            };
            let refused = match state.withdraw_if(self.is_over(deadline), refused) {
                Ok((token, woken)) => {
                    drop(state);
                    woken.wake(&self.waiters);
                    return Err(token);
                }
                Err(same) => same,
            };
            let (waiting, is_new) = state.await_upgrade(refused);
            if is_new {
                next = self.waiters.spin_upgrade(waiting, state);
                continue;
            }
            let (resumed, _slept) = self
                .waiters
                .sleep_upgrade::<A, W, T>(&self.waiter, waiting, state, deadline);
            next = resumed;
        }
        unreachable!()
    }
}

impl<A: Arbiter, W: Wait + Clone + Drop, T: Timing<W>> LockCore for FairCore<A, W, T> {
    type Token = FairToken<A::Token>;

    type Waiter = W;

    type Duration = T::Duration;

    type Instant = T::Instant;

    ghost holds = { λ _ mode token. same_mode mode token.mode };

    fn new(alloc: Global, waiter: W, readers: u64) -> Result<FairCore<A, W, T>, Fault> {
        let arbiter: FairArbiter<A> = FairArbiter::new(alloc, readers)?;
        Ok(FairCore {
            waiter,
            state: Mutex::new(arbiter),
            waiters: FairWaiters::new(alloc)?,
            timing: PhantomData,
        })
    }

    fn waiter(&self) -> &W {
        &self.waiter
    }

    fn is_locked(&self) -> bool {
        self.state().bag().tokens() != 0
    }

    fn is_locked_exclusive(&self) -> bool {
        self.state().bag().exclusive != 0
    }

    fn acquire(&self, mode: Mode) -> FairToken<A::Token> {
        match self.acquire_until(mode, &None) {
            Some(token) => token,
            None => unreachable!(),
        }
    }

    fn try_acquire(&self, mode: Mode) -> Option<FairToken<A::Token>> {
        self.state().pass(mode)
    }

    fn try_acquire_until(&self, mode: Mode, deadline: T::Instant) -> Option<FairToken<A::Token>> {
        self.acquire_until(mode, &Some(deadline))
    }

    /// The token knows its mode.
    fn release(&self, token: FairToken<A::Token>, _mode: Mode) {
        let mut state = self.state();
        let woken = state.give_back(token);
        drop(state);
        woken.wake(&self.waiters);
    }

    fn upgrade(&self, token: FairToken<A::Token>) -> FairToken<A::Token> {
        match self.upgrade_until(token, &None) {
            Ok(token) => token,
            Err(_) => unreachable!(),
        }
    }

    fn try_upgrade(
        &self,
        token: FairToken<A::Token>,
    ) -> Result<FairToken<A::Token>, FairToken<A::Token>> {
        self.state().try_upgrade(token)
    }

    fn try_upgrade_until(
        &self,
        token: FairToken<A::Token>,
        deadline: T::Instant,
    ) -> Result<FairToken<A::Token>, FairToken<A::Token>> {
        self.upgrade_until(token, &Some(deadline))
    }

    /// The token knows its mode.
    fn downgrade(&self, token: FairToken<A::Token>, _from: Mode, to: Mode) -> FairToken<A::Token> {
        let mut state = self.state();
        let (token, woken) = state.downgrade(token, to);
        drop(state);
        woken.wake(&self.waiters);
        token
    }

    fn instant_after(&self, timeout: T::Duration) -> Option<T::Instant> {
        T::instant_after(&self.waiter, timeout)
    }
}
