//! What a recording lock writes.
use super::actions::ThreadAction::{
    Bump, Lock, MustUpgrade, Refused, SeeAll, To, Try, Unlock, Write, WriteIfFree,
};
use super::actions::{Actions, Acts, in_threads};
use super::meeting::Meeting;
use lock_modes::Fault;
use lock_modes::Mode::{Exclusive, Shared, Upgradable};
use lock_modes::ModeStep::{self, Acquire, Change, Release};
use lock_raws::RawLock;
use lock_raws_monitor::{Arbiter, Monitor, RecordingArbiter, RecordingRaw};
use lock_test_support::answer::{answers_or_lacks_memory, equal, lacks_memory};
use lock_traits::{RawMutex, RawMutexFair};
use std::alloc::Global;
use std::clone::Clone;
use std::rt::Env;
use std::sync::Wait;
use std::test::Fail;
use std::thread::Threads;
use std::time::Clock;

/// A raw lock with a journal.
trait Journaled: Acts {
    fn with_room(
        alloc: Global,
        waiter: Self::Waiter,
        limit: u64,
        room: usize,
    ) -> Result<Self, Fault>;

    fn steps(&self, alloc: Global) -> Result<Vec<ModeStep>, Fault>;

    fn has_stopped(&self) -> bool;
}

impl<A: Arbiter, W: Wait + Clone + Drop> Journaled for RawLock<Monitor<RecordingArbiter<A>, W>> {
    fn with_room(alloc: Global, waiter: W, limit: u64, room: usize) -> Result<Self, Fault> {
        RawLock::with_room(alloc, waiter, limit, room)
    }

    fn steps(&self, alloc: Global) -> Result<Vec<ModeStep>, Fault> {
        self.journal(alloc)
    }

    fn has_stopped(&self) -> bool {
        self.stopped()
    }
}

/// What a thread does with a lock that has room for so many steps, the steps that the lock writes, and whether it stops, is
/// held and is held exclusively then.
type JournalRun = (&'static str, usize, Actions, &'static [ModeStep], [bool; 3]);

const RUNS: [JournalRun; 6] = [
    ("no room", 0, &[Lock(Exclusive)], &[], [true; 3]),
    (
        "room for all",
        2,
        &[Try(Exclusive), Refused(Shared), To(Shared)],
        &[Acquire(Exclusive), Change(Exclusive, Shared)],
        [false, true, false],
    ),
    (
        "a release past the room",
        2,
        &[Try(Exclusive), Refused(Shared), To(Shared), Unlock],
        &[Acquire(Exclusive), Change(Exclusive, Shared)],
        [true, false, false],
    ),
    (
        "an upgrade past the room",
        1,
        &[Lock(Upgradable), To(Exclusive), Unlock],
        &[Acquire(Upgradable)],
        [true, false, false],
    ),
    (
        "a bump",
        4,
        &[Lock(Shared), Bump, Unlock],
        &[
            Acquire(Shared),
            Release(Shared),
            Acquire(Shared),
            Release(Shared),
        ],
        [false, false, false],
    ),
    (
        "each transition",
        8,
        &[
            Lock(Upgradable),
            To(Exclusive),
            To(Upgradable),
            To(Shared),
            Unlock,
            Lock(Exclusive),
            To(Shared),
            Unlock,
        ],
        &[
            Acquire(Upgradable),
            Change(Upgradable, Exclusive),
            Change(Exclusive, Upgradable),
            Change(Upgradable, Shared),
            Release(Shared),
            Acquire(Exclusive),
            Change(Exclusive, Shared),
            Release(Shared),
        ],
        [false, false, false],
    ),
];

/// A thread has two tokens between its second step and its third.
const UPGRADE: Actions = &[Try(Shared), Try(Upgradable), MustUpgrade, Refused(Shared)];

/// The upgrade is made whatever the room is.
const UPGRADES: [JournalRun; 2] = [
    (
        "room for all but the upgrade",
        3,
        UPGRADE,
        &[Acquire(Shared), Acquire(Upgradable), Release(Shared)],
        [true, true, true],
    ),
    (
        "room for the upgrade",
        4,
        UPGRADE,
        &[
            Acquire(Shared),
            Acquire(Upgradable),
            Release(Shared),
            Change(Upgradable, Exclusive),
        ],
        [false, true, true],
    ),
];

fn check_runs<K: Clock + Copy, L: Journaled + Acts<Waiter = K>>(
    clock: &K,
    alloc: Global,
    readers: u64,
    runs: &[JournalRun],
) -> Result<(), Fail> {
    for (name, room, actions, steps, ends) in runs {
        let lock: L = L::with_room(alloc, *clock, readers, *room)?;
        let wrong = lock.act(clock, &Meeting::of(1), &[*actions], 1);
        let written = lock.steps(alloc)?;
        let [is_locked, is_exclusive] = lock.is_held();
        let seen = [lock.has_stopped(), is_locked, is_exclusive];
        equal(
            (*name, wrong, written.as_slice(), seen),
            (*name, None, *steps, *ends),
        )?;
    }
    Ok(())
}

#[test]
fn a_recording_lock_writes_its_steps(rt: HostRuntime) -> Result<(), Fail> {
    check_runs::<HostRuntime, RecordingRaw<HostRuntime>>(&rt, rt.alloc(), 2, &RUNS)
}

#[test]
fn an_upgrade_is_the_fourth_step(rt: HostRuntime) -> Result<(), Fail> {
    check_runs::<HostRuntime, RecordingRaw<HostRuntime>>(&rt, rt.alloc(), 4, &UPGRADES)
}

/// All acquire before the first releases.
const STEPS_OF_READERS: [ModeStep; 8] = [
    Acquire(Shared),
    Acquire(Shared),
    Acquire(Shared),
    Acquire(Shared),
    Release(Shared),
    Release(Shared),
    Release(Shared),
    Release(Shared),
];

/// Readers in two threads and in four.
fn check_readers<R, L>(rt: &R, alloc: Global) -> Result<(), Fail>
where
    R: Threads + Clock + Sync + Copy,
    L: Journaled + Acts<Waiter = R> + Sync,
{
    let list: &[Actions] = &[&[Lock(Shared), SeeAll, Unlock]];
    let all = STEPS_OF_READERS.as_slice();
    for (threads, steps) in [(2u32, &all[2..6]), (4, all)] {
        let lock: L = L::with_room(alloc, *rt, threads as u64, steps.len())?;
        let (wrong, _) = in_threads(rt, alloc, &lock, threads, (list, list, 1))?;
        let written = lock.steps(alloc)?;
        equal(
            (wrong, written.as_slice(), lock.has_stopped()),
            (None, steps, false),
        )?;
    }
    Ok(())
}

#[test]
fn steps_of_readers_are_written(rt: HostRuntime) -> Result<(), Fail> {
    check_readers::<HostRuntime, RecordingRaw<HostRuntime>>(&rt, rt.alloc())
}

/// The writers block, or try. Each write is two steps.
fn check_writers<R, L>(rt: &R, alloc: Global) -> Result<(), Fail>
where
    R: Threads + Clock + Sync + Copy,
    L: Journaled + Acts<Waiter = R> + Sync,
{
    let lists: [(&[Actions], u64); 2] = [
        (&[&[Lock(Exclusive), Write, Unlock]], 1_000),
        (&[&[WriteIfFree]], 1),
    ];
    for (list, least) in lists {
        let lock: L = L::with_room(alloc, *rt, 4, 2_000)?;
        let (wrong, writes) = in_threads(rt, alloc, &lock, 4, (list, list, 250))?;
        let steps = lock.steps(alloc)?.len() as u64;
        equal(
            (wrong, writes >= least, steps, lock.has_stopped()),
            (None, true, writes.wrapping_mul(2), false),
        )?;
    }
    Ok(())
}

#[test]
fn steps_of_writers_are_written(rt: HostRuntime) -> Result<(), Fail> {
    check_writers::<HostRuntime, RecordingRaw<HostRuntime>>(&rt, rt.alloc())
}

fn lock_and_unlock<R: RawMutexFair>(raw: &R, rounds: u32) {
    for _ in 0..rounds {
        raw.unlock_fair(raw.lock());
    }
}

fn check_room<L: Journaled + RawMutexFair>(
    alloc: Global,
    waiter: <L as RawMutex>::Waiter,
) -> Result<(), Fail> {
    let raw: L = RawMutex::new(alloc, waiter)?;
    lock_and_unlock(&raw, 512);
    let is_full = raw.has_stopped();
    lock_and_unlock(&raw, 1);
    let seen = (is_full, raw.has_stopped(), raw.steps(alloc)?.len());
    equal(seen, (false, true, 1_024))
}

/// A lock that the raw traits made has room for 1,024 steps.
#[test]
fn a_recording_mutex_writes_1024_steps(rt: HostRuntime) -> Result<(), Fail> {
    check_room::<RecordingRaw<HostRuntime>>(rt.alloc(), rt)
}

/// Returns how many steps the lock has written.
fn written<L: Journaled>(raw: &L, alloc: Global) -> Result<usize, Fault> {
    Ok(raw.steps(alloc)?.len())
}

/// Checks that a lock and its end are written, or that the journal lacks memory.
fn check_journal<E: Env, L: Journaled + RawMutex>(
    rt: &E,
    alloc: Global,
    raw: &L,
) -> Result<(), Fail> {
    let token = raw.lock();
    let locked = written(raw, alloc);
    raw.unlock(token);
    answers_or_lacks_memory(rt, locked, 1)?;
    answers_or_lacks_memory(rt, written(raw, alloc), 2)?;
    equal(RawMutex::is_locked(raw), false)
}

/// Checks the maker and the journal, or that they lack memory.
fn check_memory<E: Env, L: Journaled + RawMutex>(
    rt: &E,
    alloc: Global,
    waiter: <L as Acts>::Waiter,
) -> Result<(), Fail> {
    match L::with_room(alloc, waiter, 1, 2) {
        Ok(raw) => check_journal::<E, L>(rt, alloc, &raw),
        Err(fault) => lacks_memory(rt, fault),
    }
}

#[test]
fn refused_memory_of_a_recording_lock(rt: HostRuntime) -> Result<(), Fail> {
    check_memory::<HostRuntime, RecordingRaw<HostRuntime>>(&rt, rt.alloc(), rt)
}
