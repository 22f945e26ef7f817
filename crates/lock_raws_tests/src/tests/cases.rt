//! Threads that wait for one another at a raw lock. Each case ends only if every waiter is woken.
use super::actions::ThreadAction::{
    AwaitBar, AwaitWrite, Lock, Meet, ReadUntilWritten, Sleep, To, Try, TryUpgrade, Unlock,
    Unwritten, Write, WriteOrRead, Yield,
};
use super::actions::{Actions, Acts, in_threads};
use super::meeting::Meeting;
use lock_modes::Mode::{Exclusive, Shared, Upgradable};
use lock_test_support::answer::equal;
use lock_traits::RawRwLock;
use std::alloc::Global;
use std::test::Fail;
use std::thread::Threads;
use std::time::{Clock, Duration, Instant};

/// Waits for a lock that another thread holds, and reads until all four threads do, or have.
const READER: Actions = &[Meet, Lock(Shared), Meet, Unlock];

const WRITER: Actions = &[Meet, Lock(Exclusive), Write, Unlock, Meet];

/// What the first thread does with a lock of four readers, and each of three others.
const CASES: [(&'static str, Actions, Actions); 11] = [
    (
        "a writer's end wakes readers",
        &[Lock(Exclusive), Meet, Sleep, Unlock, Meet],
        READER,
    ),
    (
        "a writer's downgrade wakes readers",
        &[Lock(Exclusive), Meet, Sleep, To(Shared), Meet, Unlock],
        READER,
    ),
    (
        "a writer's downgrade to upgradable wakes readers",
        &[Lock(Exclusive), Meet, Sleep, To(Upgradable), Meet, Unlock],
        READER,
    ),
    (
        "a downgrade of an upgradable token wakes one that waits for such a token",
        &[
            Lock(Upgradable),
            Meet,
            Sleep,
            To(Shared),
            AwaitWrite,
            Unlock,
        ],
        &[Meet, Lock(Upgradable), Write, Unlock],
    ),
    (
        "the last reader's end wakes writers",
        &[Lock(Shared), Meet, Sleep, Sleep, Unlock],
        &[Lock(Shared), Meet, Unlock, Lock(Exclusive), Unlock],
    ),
    (
        "the last reader's end wakes an upgrade",
        &[Lock(Shared), Meet, Sleep, Sleep, Unlock],
        &[
            Lock(Shared),
            Meet,
            Unlock,
            Lock(Upgradable),
            To(Exclusive),
            Unlock,
        ],
    ),
    (
        "readers' ends wake a writer",
        &[Meet, Lock(Exclusive), Unlock],
        &[Lock(Shared), Meet, Sleep, Unlock],
    ),
    WAITING_WRITERS,
    (
        "waiting writers do not acquire during a single downgrade",
        &[
            Lock(Upgradable),
            Meet,
            AwaitBar,
            To(Exclusive),
            To(Upgradable),
            TryUpgrade,
            To(Shared),
            Unwritten,
            Unlock,
            Meet,
        ],
        WRITER,
    ),
    (
        "waiting writers do not acquire during a downgrade in steps",
        &[
            Lock(Upgradable),
            Meet,
            AwaitBar,
            To(Exclusive),
            To(Upgradable),
            TryUpgrade,
            To(Upgradable),
            To(Shared),
            Unwritten,
            Unlock,
            Meet,
        ],
        WRITER,
    ),
    WRITER_AMONG_READERS,
];

/// One writer refuses readers, too, next to a single reader.
const WAITING_WRITERS: (&'static str, Actions, Actions) = (
    "waiting writers refuse readers, and only while they wait",
    &[
        Lock(Shared),
        Meet,
        AwaitBar,
        Unlock,
        Meet,
        Try(Shared),
        Unlock,
    ],
    WRITER,
);

const WRITER_AMONG_READERS: (&'static str, Actions, Actions) = (
    "a writer acquires among readers without a pause",
    &[Meet, Sleep, Lock(Exclusive), Write, Unlock],
    &[Meet, ReadUntilWritten],
);

/// Waits in each mode, and changes tokens in each way.
const ROUND: Actions = &[
    Lock(Shared),
    Unlock,
    Lock(Upgradable),
    To(Exclusive),
    To(Upgradable),
    To(Shared),
    Unlock,
    Lock(Exclusive),
    Unlock,
    Lock(Shared),
    Yield,
    Unlock,
    Lock(Exclusive),
    Yield,
    To(Shared),
    Unlock,
];

/// Short runs, each of which ends once all four threads have: near the end of a run nobody comes who would wake the
/// forgotten. Between two runs all four hold tokens, by a downgrade where no other thread did.
const SHORT_RUNS: [Actions; 9] = [
    ROUND,
    ROUND,
    &[Meet, Lock(Upgradable), Yield, To(Shared), Meet, Unlock],
    ROUND,
    ROUND,
    &[Meet, WriteOrRead, Yield, To(Upgradable), Meet, Unlock],
    ROUND,
    ROUND,
    &[Meet, WriteOrRead, Yield, To(Shared), Meet, Unlock],
];

/// A readers' limit, and what four threads make again and again at a lock of that limit, how many times twenty.
pub type Contention = (u64, &'static [Actions], u32);

/// Without a meeting.
pub const ROUNDS: [Contention; 2] = [(4, &[ROUND], 50), (1, &[ROUND], 50)];

/// 5,100 short runs.
pub const RUNS_OF_FOUR_READERS: [Contention; 1] = [(4, &SHORT_RUNS, 85)];

/// 5,000 short runs.
pub const RUNS_OF_ONE_READER: [Contention; 1] = [(1, &[ROUND, ROUND, &[Meet]], 250)];

fn check_case<R: Threads + Clock + Sync, L: Acts + Sync>(
    rt: &R,
    alloc: Global,
    lock: &L,
    threads: u32,
    (name, first, others): (&'static str, Actions, Actions),
) -> Result<(), Fail> {
    let (wrong, _) = in_threads(rt, alloc, lock, threads, (&[first], &[others], 1))?;
    equal((name, wrong, lock.is_held()), (name, None, [false; 2]))
}

/// Each case with a lock of four readers, and the one for a single reader with a lock of one. A reader is admitted once
/// all other threads have ended.
pub fn check_cases<R, L>(rt: &R, alloc: Global) -> Result<(), Fail>
where
    R: Threads + Clock + Sync + Copy,
    L: Acts + RawRwLock<Waiter = R> + Sync,
{
    let (four, one): (L, L) = (
        RawRwLock::new(alloc, *rt, 4)?,
        RawRwLock::new(alloc, *rt, 1)?,
    );
    for case in CASES {
        check_case(rt, alloc, &four, 4, case)?;
    }
    check_case(rt, alloc, &one, 4, WRITER_AMONG_READERS)?;
    check_case(rt, alloc, &four, 2, WAITING_WRITERS)?;
    let wrong = four.act(rt, &Meeting::of(1), &[&[Try(Shared), Unlock]], 1);
    equal(wrong, None)
}

/// The threads go on for at most 10 seconds, if the machine is loaded.
pub fn contend<R, L>(rt: &R, alloc: Global, contentions: &[Contention]) -> Result<(), Fail>
where
    R: Threads + Clock + Sync + Copy,
    L: Acts + RawRwLock<Waiter = R> + Sync,
{
    for (readers, lists, twenties) in contentions {
        let lock: L = RawRwLock::new(alloc, *rt, *readers)?;
        let start = Instant::now(rt)?;
        for _ in 0..*twenties {
            let (wrong, _) = in_threads(rt, alloc, &lock, 4, (*lists, *lists, 20))?;
            equal((wrong, lock.is_held()), (None, [false; 2]))?;
            if start.elapsed(rt)? >= Duration::from_secs(10) {
                break;
            }
        }
    }
    Ok(())
}
