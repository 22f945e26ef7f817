//! Threads that act on one fair core, each after a number of events.
use super::parts::{Parts, play_in_threads};
use lock_modes::Mode::{self, Exclusive, Upgradable};
use lock_raws::{LockCore, RealTime};
use lock_raws_fair::FairCore;
use lock_raws_monitor::Arbiter;
use lock_test_support::answer::equal;
use std::alloc::Global;
use std::clone::Clone;
use std::sync::Wait;
use std::sync::atomic::{AtomicU64, Ordering};
use std::test::Fail;
use std::thread::{self, Threads};
use std::time::{Clock, Duration, Instant};

/// A core with a line, which measures time.
pub trait Queueing: LockCore<Duration = Duration, Instant = Instant> {
    /// Returns how many acquisitions have joined the line.
    fn joined(&self) -> u64;
}

impl<A: Arbiter, W: Wait + Clock + Clone + Drop> Queueing for FairCore<A, W, RealTime> {
    fn joined(&self) -> u64 {
        self.arrivals()
    }
}

/// What a thread does.
#[derive(Clone, Copy)]
pub enum Role {
    /// Acquires exclusively, and releases.
    Write,
    /// Acquires exclusively for at most a millisecond.
    TimedWrite,
    /// Releases a hold of this mode.
    Release(Mode),
    /// Releases an exclusive hold, and acquires exclusively at once.
    Pass,
    /// Upgrades an upgradable hold, and releases.
    Upgrade,
    /// Makes 70 timed calls next to an exclusive hold, and releases.
    TimedCalls,
    Nothing,
}

/// A thread of a scene: how many threads must have arrived and how many timed calls timed out before it acts, what it
/// does, and the digit that it appends to the order of admission while it holds the lock exclusively.
pub type Actor = (u64, u64, Role, u64);

/// How many threads must have arrived, and how many timed calls timed out.
type Cue = (u64, u64);

/// A core, its threads, and what they note.
#[derive(Drop)]
struct Scene<'a, C: LockCore> {
    core: C,
    actors: &'a [Actor; 5],
    /// How many threads have what they hold when the scene begins.
    started: AtomicU64,
    /// The digits of the threads, in the order of admission.
    admitted: AtomicU64,
    /// How many calls timed out.
    timed_out: AtomicU64,
}

impl<C: Queueing> Parts for Scene<'_, C> {
    type Waiter = C::Waiter;

    fn play(&self, thread: usize) {
        let actors = self.actors;
        if let Some(actor) = actors.get(thread) {
            let (arrived, timed_out, role, digit) = *actor;
            self.act((arrived, timed_out), role, digit);
        }
    }
}

impl<C: Queueing> Scene<'_, C> {
    fn act(&self, cue: Cue, role: Role, digit: u64) {
        match role {
            Role::Write => {
                self.await_cue(cue);
                self.write(digit);
            }
            Role::TimedWrite => {
                self.await_cue(cue);
                self.write_in_line(digit);
            }
            Role::Release(mode) => self.release(cue, mode),
            Role::Pass => {
                self.release(cue, Exclusive);
                self.write(digit);
            }
            Role::Upgrade => self.upgrade(cue, digit),
            Role::TimedCalls => self.call_in_time(cue),
            Role::Nothing => self.await_cue(cue),
        }
    }

    /// Says that the thread has what it holds when the scene begins, and blocks until its cue.
    fn await_cue(&self, (arrived, timed_out): Cue) {
        self.started.fetch_add(1, Ordering::SeqCst);
        for _ in self.core.waiter().forever() {
            if self.started.load(Ordering::SeqCst) == 5
                && self.core.joined() >= arrived
                && self.timed_out.load(Ordering::SeqCst) >= timed_out
            {
                return;
            }
            thread::yield_now();
        }
    }

    /// Appends the digit, while the thread holds the core exclusively.
    fn note(&self, digit: u64) {
        let digits = self.admitted.load(Ordering::SeqCst);
        self.admitted.store(
            digits.wrapping_mul(10).wrapping_add(digit),
            Ordering::SeqCst,
        );
    }

    fn write(&self, digit: u64) {
        let token = self.core.acquire(Exclusive);
        self.note(digit);
        self.core.release(token, Exclusive);
    }

    /// Writes if the core admits it within a millisecond. A call that ends before it joins the line is made again.
    fn write_in_line(&self, digit: u64) {
        let joined = self.core.joined();
        for _ in self.core.waiter().forever() {
            if self.write_within(Duration::from_millis(1), digit) {
                return;
            }
            // on a busy machine the deadline may pass before the first look, and the cues count arrivals
            if self.core.joined() > joined {
                self.timed_out.fetch_add(1, Ordering::SeqCst);
                return;
            }
        }
    }

    /// Writes if the core admits it within so long, and returns whether it did.
    fn write_within(&self, time: Duration, digit: u64) -> bool {
        let admitted = match self.core.instant_after(time) {
            Some(deadline) => self.core.try_acquire_until(Exclusive, deadline),
            None => None,
        };
        match admitted {
            Some(token) => {
                self.note(digit);
                self.core.release(token, Exclusive);
                true
            }
            None => false,
        }
    }

    /// Holds the mode from the begin to the cue.
    fn release(&self, cue: Cue, mode: Mode) {
        let held = self.core.try_acquire(mode);
        self.await_cue(cue);
        if let Some(token) = held {
            self.core.release(token, mode);
        }
    }

    /// Upgrades what it holds from the begin, at the cue.
    fn upgrade(&self, cue: Cue, digit: u64) {
        let held = self.core.try_acquire(Upgradable);
        self.await_cue(cue);
        if let Some(token) = held {
            let token = self.core.upgrade(token);
            self.note(digit);
            self.core.release(token, Exclusive);
        }
    }

    /// Makes 70 timed calls, which are not admitted while the core is locked.
    fn call_in_time(&self, cue: Cue) {
        let held = self.core.try_acquire(Exclusive);
        self.await_cue(cue);
        if let Some(token) = held {
            for _ in 0..70u32 {
                if self.core.is_locked() {
                    let _ = self.write_within(Duration::from_micros(200), 0);
                }
            }
            self.core.release(token, Exclusive);
        }
    }
}

/// Plays a scene of five threads. Returns their digits in the order of admission, and how many arrived.
fn play<R: Threads + Sync, C: Queueing + Sync>(
    rt: &R,
    alloc: Global,
    waiter: C::Waiter,
    actors: &[Actor; 5],
) -> Result<(u64, u64), Fail>
where
    C::Waiter: Send,
{
    let core: C = LockCore::new(alloc, waiter, 4)?;
    let scene = Scene {
        core,
        actors,
        started: AtomicU64::new(0),
        admitted: AtomicU64::new(0),
        timed_out: AtomicU64::new(0),
    };
    play_in_threads(rt, alloc, 5, &scene)?;
    Ok((scene.admitted.load(Ordering::SeqCst), scene.core.joined()))
}

/// Plays each scene so many times, and checks its order of admission.
pub fn check_scenes<R, C>(
    rt: &R,
    alloc: Global,
    scenes: &[(&str, u32, [Actor; 5], u64)],
) -> Result<(), Fail>
where
    R: Wait + Threads + Send + Sync + Copy + Drop,
    C: Queueing<Waiter = R> + Sync,
{
    for (name, runs, actors, wanted) in scenes {
        for _ in 0..*runs {
            let (digits, _) = play::<R, C>(rt, alloc, *rt, actors)?;
            equal((*name, digits), (*name, *wanted))?;
        }
    }
    Ok(())
}

/// Returns how many arrive if a thread waits next to one that holds the core and makes timed calls.
pub fn arrivals_beside_timed_calls<R: Threads + Sync, C: Queueing + Sync>(
    rt: &R,
    alloc: Global,
    waiter: C::Waiter,
) -> Result<u64, Fail>
where
    C::Waiter: Send,
{
    let idle = (0, 0, Role::Nothing, 0);
    let (holder, waiting) = ((1, 0, Role::TimedCalls, 0), (0, 0, Role::Write, 1));
    let (_, arrivals) = play::<R, C>(rt, alloc, waiter, &[holder, waiting, idle, idle, idle])?;
    Ok(arrivals)
}
