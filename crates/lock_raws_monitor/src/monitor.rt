//! An arbiter behind a std mutex.
ghost use Rattle.std.specs.Prelude.{IfErr, ◌≡◌};
ghost use Rattle.lock_modes.specs.declared.fault.Fault.TheVariants as fault;
ghost use Rattle.lock_raws_monitor.specs.ModeTokens.{mode_of, same_mode};

mod steps;

use crate::arbiter::Arbiter;
use crate::monitor_wake::MonitorWaiters;
use lock_modes::{Fault, Mode};
use lock_raws::LockCore;
use lock_traits::lock_std;
use std::alloc::Global;
use std::clone::Clone;
use std::sync::{Mutex, MutexGuard, Wait};
pub use steps::ModeToken;

/// A `LockCore`: a std `Mutex` around an arbiter, and an event count on which waiters sleep.
///
/// A release or a downgrade wakes no waiter if it admits none that was not admitted before. Otherwise it wakes one
/// waiter where the readers' limit is 1, and else all. Under a bar it wakes all, since the bar may keep out a single
/// one that is woken. A writer that acquires clears its bar and wakes no waiter, since none is admitted next to it.
///
/// A call with a token that is not held in its mode is ignored: a release changes nothing, and a change of mode returns
/// the same token. A timed try is a plain try: it does not block.
#[derive(Drop)]
pub struct Monitor<A: Arbiter, W: Wait + Clone + Drop> {
    pub(crate) waiter: W,
    pub(crate) arbiter: Mutex<A>,
    waiters: MonitorWaiters,
}

impl<A: Arbiter, W: Wait + Clone + Drop> Monitor<A, W> {
    /// Makes a monitor of an arbiter.
    pub(crate) fn over(alloc: Global, arbiter: A, waiter: W) -> Result<Monitor<A, W>, Fault>
        ensures { IfErr result (λ error. error ≡ fault.OutOfMemory) }
    {
        Ok(Monitor {
            waiter,
            arbiter: Mutex::new(arbiter),
            waiters: MonitorWaiters::new(alloc)?,
        })
    }

    /// Locks the arbiter. Each call holds this lock for a moment.
    pub(crate) fn arbiter(&self) -> MutexGuard<'_, A> {
        lock_std(&self.arbiter, &self.waiter)
    }
}

impl<A: Arbiter, W: Wait + Clone + Drop> LockCore for Monitor<A, W> {
    type Token = ModeToken<A::Token>;

    type Waiter = W;

    type Duration = ();

    type Instant = ();

    ghost holds = { λ _ mode token. same_mode mode (mode_of token) };

    fn new(alloc: Global, waiter: W, readers: u64) -> Result<Monitor<A, W>, Fault> {
        let arbiter: A = Arbiter::new(alloc, readers)?;
        Monitor::over(alloc, arbiter, waiter)
    }

    fn waiter(&self) -> &W {
        &self.waiter
    }

    fn is_locked(&self) -> bool {
        self.arbiter().bag().tokens() != 0
    }

    fn is_locked_exclusive(&self) -> bool {
        self.arbiter().bag().exclusive != 0
    }

    fn acquire(&self, mode: Mode) -> ModeToken<A::Token> {
        let mut arbiter = self.arbiter();
        for _ in self.waiter.forever() {
            if let Some(token) = steps::admit(&mut *arbiter, mode) {
                return token;
            }
            arbiter = self.waiters.wait(&self.waiter, &self.arbiter, arbiter);
        }
        unreachable!()
    }

    fn acquire_announced(&self) -> ModeToken<A::Token> {
        let mut announced = false;
        let mut arbiter = self.arbiter();
        for _ in self.waiter.forever() {
            if let Some(token) = steps::admit_or_announce(&mut *arbiter, &mut announced) {
                return token;
            }
            arbiter = self.waiters.wait(&self.waiter, &self.arbiter, arbiter);
        }
        unreachable!()
    }

    fn try_acquire(&self, mode: Mode) -> Option<ModeToken<A::Token>> {
        let mut arbiter = self.arbiter();
        steps::admit(&mut *arbiter, mode)
    }

    fn release(&self, token: ModeToken<A::Token>, mode: Mode) {
        let mut arbiter = self.arbiter();
        let owed = steps::give_back(&mut *arbiter, token, mode);
        drop(arbiter);
        self.waiters.wake(owed);
    }

    fn upgrade(&self, token: ModeToken<A::Token>) -> ModeToken<A::Token> {
        let mut token = token;
        let mut arbiter = self.arbiter();
        for _ in self.waiter.forever() {
            match steps::upgrade(&mut *arbiter, token) {
                Ok(next) => return next,
                Err(same) => token = same,
            }
            arbiter = self.waiters.wait(&self.waiter, &self.arbiter, arbiter);
        }
        unreachable!()
    }

    fn try_upgrade(
        &self,
        token: ModeToken<A::Token>,
    ) -> Result<ModeToken<A::Token>, ModeToken<A::Token>> {
        let mut arbiter = self.arbiter();
        steps::upgrade(&mut *arbiter, token)
    }

    fn downgrade(&self, token: ModeToken<A::Token>, from: Mode, to: Mode) -> ModeToken<A::Token> {
        let mut arbiter = self.arbiter();
        let (token, owed) = steps::downgrade(&mut *arbiter, token, from, to);
        drop(arbiter);
        self.waiters.wake(owed);
        token
    }

    fn instant_after(&self, _timeout: ()) -> Option<()> {
        Some(())
    }
}
