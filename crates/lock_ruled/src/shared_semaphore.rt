//! A semaphore that threads share by reference or in an `Arc`. Its permits are all accounted for: those that are free, and
//! those of all tokens.
ghost use Rattle.std.specs.Prelude.{◌≡◌, ◌≤◌, None, IfOk, IfErr, IfSome};
ghost use Rattle.lock_modes.specs.declared.fault.Fault.TheVariants as fault;
ghost use Rattle.lock_ruled.specs.Accounts.{token_of};
ghost use Rattle.lock_ruled.specs.PermitCalls.{IsRefused, IsSameCall, WasRefused};
ghost use Rattle.lock_time.specs.Deadlines.{HasPassed};

mod guard;
mod plays;
mod rule;
mod table;
mod waiters;

use crate::shared_semaphore::table::{PermitCall, PermitTable};
use crate::shared_semaphore::waiters::PermitWaiters;
pub use guard::{ArcPermitGuard, PermitGuard};
use lock_modes::Fault;
use lock_time::time_until;
pub use rule::{PermitRule, PermitView};
use std::alloc::Global;
use std::marker::Model;
use std::sync::Wait;
use std::time::{Clock, Duration, Instant};
pub use table::PermitToken;

/// A semaphore that threads share by reference or in an `Arc`. A call takes no holder: each acquisition returns a token, and a
/// release consumes it. Contracts see which semaphore it is, and the number of all permits.
///
/// A waiter sleeps until permits are released. An acquisition of few permits may overtake one that waits for many.
#[derive(Drop)]
pub struct SharedSemaphore {
    permits: PermitTable,
    /// The threads that sleep until permits are released.
    waiters: PermitWaiters,
}

impl Model for SharedSemaphore {
    ghost use Rattle.lock_ruled.specs.Accounts.{SemaphoreView};

    ghost Value = { SemaphoreView };

    ghost view = { λ s. s.permits };
}

impl SharedSemaphore {
    /// Makes a semaphore with this many permits, all of them free. No other call allocates.
    pub fn new(alloc: Global, permits: u64) -> Result<SharedSemaphore, Fault>
        ensures permits { IfOk result (λ made. made.permits ≡ permits) }
        ensures fault { IfErr result (λ error. error ≡ fault.OutOfMemory) }
    {
        let waiters = PermitWaiters::new(alloc)?;
        let permits = PermitTable::new(alloc, permits)?;
        Ok(SharedSemaphore { permits, waiters })
    }

    /// Acquires this many permits, or returns `None` if fewer are free. It repeats an exchange that another thread
    /// disturbed.
    pub fn try_acquire<R: Wait>(&self, rt: &R, permits: u64) -> Option<PermitToken>
        ensures token { IfSome result (λ token. token ≡ token_of self.now permits) }
        ensures within { IfSome result (λ _. permits ≤ self.now.permits) }
        ensures refused { result ≡ None → WasRefused self.now permits }
    {
        match self.attempt(rt, self.permits.begin(permits, ())) {
            Ok((token, ())) => Some(token),
            Err(refused) => {
                refused.leave();
                None
            }
        }
    }

    /// Takes the permits that the call wants, or returns it if fewer are free.
    fn attempt<R: Wait, K>(
        &self,
        rt: &R,
        call: PermitCall<K>,
    ) -> Result<(PermitToken, K), PermitCall<K>>
        requires semaphore { call.semaphore ≡ self.now }
        requires none { call.own ≡ 0 }
        ensures token { IfOk result (λ took. (took.0 ≡ token_of self.now call.permits) × (took.1 ≡ call.kept)) }
        ensures within { IfOk result (λ _. call.permits ≤ self.now.permits) }
        ensures same { IfErr result (IsSameCall call) }
        ensures refused { IfErr result IsRefused }
    {
        let mut call = call;
        for _ in rt.forever() {
            if call.found_few() {
                return Err(call);
            }
            match self.permits.take(call) {
                Ok(took) => return Ok(took.into_token()),
                Err(same) => call = same,
            }
        }
        unreachable!()
    }

    /// Acquires this many permits, blocking until they are free. A call for more than all permits blocks for ever.
    pub fn acquire<R: Wait>(&self, rt: &R, permits: u64) -> PermitToken
        ensures token { result ≡ token_of self.now permits }
        ensures within { permits ≤ self.now.permits }
    {
        if let Some(token) = self.try_acquire(rt, permits) {
            return token;
        }
        for _ in rt.forever() {
            if let Some(token) = self.wait_once(rt, permits, None) {
                return token;
            }
        }
        unreachable!()
    }

    /// Acquires this many permits, blocking until they are free, or returns `None` at `deadline`.
    pub fn acquire_until<R: Wait + Clock>(
        &self,
        rt: &R,
        permits: u64,
        deadline: Instant,
    ) -> Option<PermitToken>
        ensures token { IfSome result (λ token. token ≡ token_of self.now permits) }
        ensures within { IfSome result (λ _. permits ≤ self.now.permits) }
        ensures late { result ≡ None → HasPassed deadline }
        ensures refused { result ≡ None → WasRefused self.now permits }
    {
        for _ in rt.forever() {
            if let Some(token) = self.try_acquire(rt, permits) {
                return Some(token);
            }
            let Ok(left) = time_until(rt, deadline) else {
                return None;
            };
            if let Some(token) = self.wait_once(rt, permits, Some(left)) {
                return Some(token);
            }
        }
        unreachable!()
    }

    /// Registers a wait, and tries again. If it is refused, it sleeps until permits are released, or for the time that is
    /// left. In the other order, a release between the try and the sleep would be lost.
    #[cold]
    #[inline(never)]
    fn wait_once<R: Wait>(
        &self,
        rt: &R,
        permits: u64,
        left: Option<Duration>,
    ) -> Option<PermitToken>
        ensures token { IfSome result (λ token. token ≡ token_of self.now permits) }
        ensures within { IfSome result (λ _. permits ≤ self.now.permits) }
    {
        let registered = self.waiters.register(rt);
        match self.attempt(rt, self.permits.begin(permits, registered)) {
            Ok((token, registered)) => {
                self.waiters.leave(registered);
                Some(token)
            }
            Err(refused) => {
                self.waiters.sleep(rt, refused, left);
                None
            }
        }
    }

    /// Releases the permits of the token, and wakes all waiters.
    pub fn release(&self, token: PermitToken)
        requires { token.semaphore ≡ self.now }
    {
        self.permits.give_back(token).told(&self.waiters);
    }

    /// Runs `f` while it holds this many permits. It acquires them before, as `acquire` does, and releases them after.
    pub fn with_permits<R: Wait, U, F: FnOnce() -> U>(&self, rt: &R, permits: u64, f: F) -> U
        requires { F.pre f }
        ensures answer { F.post f result }
        ensures within { permits ≤ self.now.permits }
    {
        let token = self.acquire(rt, permits);
        let answer = f();
        self.release(token);
        answer
    }

    /// Returns how many permits are free. The number may be outdated at once.
    pub fn available_permits(&self) -> u64
        ensures { result ≤ self.now.permits }
    {
        self.permits.free()
    }
}
