//! Each name that fixes a raw lock makes a lock.
//!
//! A test only makes the locks, since each function that names a raw lock is proved anew. Functions over any core use
//! them.
use lock_api::raw::{LockCore, RawLock, SleepingCondvar};
use lock_api::{
    Condvar, FairCondvar, FairMutex, FairReentrantMutex, FairRwLock, Fault, Mutex, PartyId,
    RecordingCondvar, RecordingMutex, RecordingReentrantMutex, RecordingRwLock, ReentrantMutex,
    RwLock, TimedFairCondvar, TimedFairMutex, TimedFairReentrantMutex, TimedFairRwLock,
    TimedWordCondvar, TimedWordMutex, TimedWordReentrantMutex, TimedWordRwLock, TokenCondvar,
    TokenMutex, TokenReentrantMutex, TokenRwLock, WordCondvar, WordMutex, WordReentrantMutex,
    WordRwLock,
};
use std::test::Fail;
use std::time::{Clock, Duration, Instant};

/// A mutex, its condition variable, a reader-writer lock and a reentrant mutex over one raw lock, as their names made them.
type Made<C> = (
    Result<Mutex<RawLock<C>, u64>, Fault>,
    Result<Condvar<SleepingCondvar<RawLock<C>>>, Fault>,
    Result<RwLock<RawLock<C>, u64>, Fault>,
    Result<ReentrantMutex<RawLock<C>, u64>, Fault>,
);

fn party() -> Result<PartyId, Fail> {
    Ok(PartyId::new(1).ok_or("1 is the id of a party")?)
}

/// What the three locks hold. The condition variable waits while the mutex holds another value than 1.
fn held<C: LockCore>(made: Made<C>) -> Result<[u64; 3], Fail> {
    let (mutex, condvar, lock, reentrant) = made;
    let (mutex, condvar) = (mutex?, condvar?);
    let (lock, reentrant) = (lock?, reentrant?);
    let mut guard = mutex.lock();
    condvar.wait_while(&mut guard, |value| *value != 1);
    let reader = lock.read();
    let level = reentrant.lock(party()?)?;
    Ok([*guard, *reader, *level])
}

/// Whether a wait, a mutex that is held, and a writer's lock time out, and whether a free reentrant mutex does not.
fn are_timed<C: LockCore<Duration = Duration, Instant = Instant>>(
    made: Made<C>,
) -> Result<[bool; 4], Fail>
where
    C::Waiter: Clock,
{
    let (mutex, condvar, lock, reentrant) = made;
    let (mutex, condvar) = (mutex?, condvar?);
    let (lock, reentrant) = (lock?, reentrant?);
    let short = Duration::from_millis(1);
    let mut guard = mutex.lock();
    let waited = condvar.wait_while_for(&mut guard, |value| *value == 1, short);
    let _writer = lock.write();
    Ok([
        waited.timed_out(),
        mutex.try_lock_for(short).is_none(),
        lock.try_read_for(short).is_none(),
        reentrant.try_lock_for(party()?, short)?.is_some(),
    ])
}

#[test]
fn each_name_makes_a_lock(rt: HostRuntime) -> Result<(), Fail> {
    let alloc = rt.alloc();
    let plain = held((
        WordMutex::new(alloc, rt, 1u64),
        WordCondvar::new(alloc),
        WordRwLock::new(alloc, rt, 2u64),
        WordReentrantMutex::new(alloc, rt, 3u64),
    ));
    assert_eq!(rt; plain?, [1, 2, 3]);
    let timed = are_timed((
        TimedWordMutex::new(alloc, rt, 1u64),
        TimedWordCondvar::new(alloc),
        TimedWordRwLock::new(alloc, rt, 2u64),
        TimedWordReentrantMutex::new(alloc, rt, 3u64),
    ));
    assert_eq!(rt; timed?, [true; 4]);
    Ok(())
}

#[test]
fn each_fair_name_makes_a_lock(rt: HostRuntime) -> Result<(), Fail> {
    let alloc = rt.alloc();
    let plain = held((
        FairMutex::new(alloc, rt, 1u64),
        FairCondvar::new(alloc),
        FairRwLock::new(alloc, rt, 2u64),
        FairReentrantMutex::new(alloc, rt, 3u64),
    ));
    assert_eq!(rt; plain?, [1, 2, 3]);
    let timed = are_timed((
        TimedFairMutex::new(alloc, rt, 1u64),
        TimedFairCondvar::new(alloc),
        TimedFairRwLock::new(alloc, rt, 2u64),
        TimedFairReentrantMutex::new(alloc, rt, 3u64),
    ));
    assert_eq!(rt; timed?, [true; 4]);
    Ok(())
}

#[test]
fn each_name_over_a_table_makes_a_lock(rt: HostRuntime) -> Result<(), Fail> {
    let alloc = rt.alloc();
    let by_tokens = held((
        TokenMutex::new(alloc, rt, 1u64),
        TokenCondvar::new(alloc),
        TokenRwLock::new(alloc, rt, 2u64),
        TokenReentrantMutex::new(alloc, rt, 3u64),
    ));
    assert_eq!(rt; by_tokens?, [1, 2, 3]);
    let recorded = held((
        RecordingMutex::new(alloc, rt, 1u64),
        RecordingCondvar::new(alloc),
        RecordingRwLock::new(alloc, rt, 2u64),
        RecordingReentrantMutex::new(alloc, rt, 3u64),
    ));
    assert_eq!(rt; recorded?, [1, 2, 3]);
    Ok(())
}
