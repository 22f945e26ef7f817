//! A semaphore. Its free permits and those of its holders always add up to the number that it was made with.
ghost use Rattle.std.specs.Prelude.{◌≡◌, ◌-◌, ◌+◌, ◌<◌, ◌≤◌, IfOk, IfErr, MatchResult};
ghost use Rattle.lock_modes.specs.declared.fault.Fault.TheVariants as fault;
ghost use Rattle.lock_ruled.specs.Ruled.{all_parts, first_user};
ghost use Rattle.lock_ruled.specs.Permits.{with_more, with_fewer, HasFew};
ghost use Rattle.lock_time.specs.Deadlines.{HasPassed};

use crate::holder::Holder;
use crate::ledger::{Ledger, Settles, Share, Shares};
use crate::mutex::RuledMutex;
use crate::permits::Permits;
use lock_modes::Fault;
use std::alloc::Global;
use std::marker::Model;
use std::sync::Wait;
use std::time::{Clock, Instant};

/// A semaphore. A holder that waits for permits sleeps until others release theirs.
#[derive(Drop)]
pub struct Semaphore {
    free: RuledMutex<u64, Share, Ledger<Permits>>,
}

impl Model for Semaphore {
    ghost use Rattle.atomic_table.specs.Seated.{TableId};

    ghost Value = { TableId };

    ghost view = { λ s. s.free };
}

impl Semaphore {
    /// Makes a semaphore with this many free permits, and its only holder, which has none of them.
    pub fn new(alloc: Global, permits: u64) -> Result<(Semaphore, Holder), Fault>
        ensures holder { IfOk result (λ made. made.1 ≡ first_user made.0 (record { own = 0; all = permits })) }
        ensures fault { IfErr result (λ error. error ≡ fault.OutOfMemory) }
    {
        let (free, user) = RuledMutex::new(alloc, permits)?;
        Ok((Semaphore { free }, Holder { user }))
    }

    /// Acquires this many permits, blocking until they are free.
    pub fn acquire<R: Wait>(&self, rt: &R, holder: Holder, permits: u64) -> Holder
        requires semaphore { holder.mutex ≡ self.now }
        ensures { result ≡ with_more holder permits }
    {
        let mut free = self
            .free
            .lock_when(rt, holder.user, move |free: &u64| *free >= permits);
        *free -= permits;
        Holder {
            user: self.free.unlock_ready::<Settles<Permits>>(free),
        }
    }

    /// Acquires this many permits, or returns the holder unchanged if they are not free. It blocks only while another
    /// call has the number of free permits.
    pub fn try_acquire<R: Wait>(
        &self,
        rt: &R,
        holder: Holder,
        permits: u64,
    ) -> Result<Holder, Holder>
        requires semaphore { holder.mutex ≡ self.now }
        ensures acquired { MatchResult result (λ after. after ≡ with_more holder permits) (λ same. same ≡ holder) }
        // Fewer permits were free than it wants.
        ensures few { IfErr result (λ same. HasFew holder permits) }
    {
        let mut free = self.free.lock(rt, holder.user);
        self.free.known(&free);
        if *free < permits {
            return Err(Holder {
                user: self.free.unlock_ready::<Settles<Permits>>(free),
            });
        }
        *free -= permits;
        Ok(Holder {
            user: self.free.unlock_ready::<Settles<Permits>>(free),
        })
    }

    /// Acquires this many permits, blocking until they are free, or returns the holder unchanged at `deadline`.
    pub fn acquire_until<R: Wait + Clock>(
        &self,
        rt: &R,
        holder: Holder,
        permits: u64,
        deadline: Instant,
    ) -> Result<Holder, Holder>
        requires semaphore { holder.mutex ≡ self.now }
        ensures acquired { MatchResult result (λ after. after ≡ with_more holder permits) (λ same. same ≡ holder) }
        ensures late { IfErr result (λ _. HasPassed deadline) }
    {
        let enough = move |free: &u64| *free >= permits;
        match self.free.lock_when_until(rt, holder.user, enough, deadline) {
            Ok(mut free) => {
                *free -= permits;
                Ok(Holder {
                    user: self.free.unlock_ready::<Settles<Permits>>(free),
                })
            }
            Err(user) => Err(Holder { user }),
        }
    }

    /// Releases this many of the holder's permits, and wakes the holders that wait.
    pub fn release<R: Wait>(&self, rt: &R, holder: Holder, permits: u64) -> Holder
        requires semaphore { holder.mutex ≡ self.now }
        requires held { permits ≤ holder.view.own }
        ensures { result ≡ with_fewer holder permits }
    {
        let mut free = self.free.lock(rt, holder.user);
        self.free.known(&free);
        *free += permits;
        Holder {
            user: self.free.unlock_ready::<Settles<Permits>>(free),
        }
    }

    /// Returns the holder, and how many permits are free. The number may be outdated at once.
    pub fn available_permits<R: Wait>(&self, rt: &R, holder: Holder) -> (Holder, u64)
        requires semaphore { holder.mutex ≡ self.now }
        ensures holder { result.0 ≡ holder }
        ensures free { result.1 + holder.view.own ≤ holder.view.all }
    {
        let free = self.free.lock(rt, holder.user);
        self.free.known(&free);
        let count = *free;
        let user = self.free.unlock_ready::<Settles<Permits>>(free);
        (Holder { user }, count)
    }

    /// Runs `f` while the holder has this many permits more. It acquires them before, as `acquire` does, and releases them
    /// after.
    pub fn with_permits<R: Wait, U, F: FnOnce() -> U>(
        &self,
        rt: &R,
        holder: Holder,
        permits: u64,
        f: F,
    ) -> (Holder, U)
        requires semaphore { holder.mutex ≡ self.now }
        requires callable { F.pre f }
        ensures holder { result.0 ≡ holder }
        ensures answer { F.post f result.1 }
    {
        let lease = self.lease(rt, holder, permits);
        let answer = f();
        (lease.end(rt, self), answer)
    }

    /// Makes a second holder, which has no permits.
    pub fn split(&self, holder: Holder) -> (Holder, Holder)
        requires semaphore { holder.mutex ≡ self.now }
        requires parts { 1 < holder.parts }
        ensures first { result.0 ≡ record holder { parts = holder.parts - 1 } }
        ensures second { result.1 ≡ record { mutex = self.now; parts = 1; view = record holder.view { own = 0 } } }
    {
        let (first, second) = self.free.split_ready::<Shares>(holder.user);
        (Holder { user: first }, Holder { user: second })
    }

    /// Joins two holders to one with the permits of both.
    pub fn join(&self, holder: Holder, other: Holder) -> Holder
        requires semaphore { (holder.mutex ≡ self.now) × (other.mutex ≡ self.now) }
        ensures { result ≡ record (with_more holder other.view.own) { parts = holder.parts + other.parts } }
    {
        Holder {
            user: self.free.join_ready::<Shares>(holder.user, other.user),
        }
    }

    /// Consumes the semaphore and its only holder, and returns the number of free permits. With those of the holder they
    /// are all permits.
    pub fn into_permits(self, holder: Holder) -> u64
        requires semaphore { holder.mutex ≡ self }
        requires alone { holder.parts ≡ all_parts }
        ensures { result + holder.view.own ≡ holder.view.all }
    {
        self.free.into_inner_ready(holder.user)
    }
}
