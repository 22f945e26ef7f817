//! Each acquisition of a free lock by a guard that owns a reference to it.
use crate::tests::Table;
use lock_modes::{Fault, PartyId};
use lock_mutex::Mutex;
use lock_raws::{LockCore, RawLock};
use lock_remutex::ReentrantMutex;
use lock_rwlock::RwLock;
use lock_test_support::answer::equal;
use lock_test_support::party;
use lock_traits::{RawMutex, RawMutexTimed, RawRwLock, RawRwLockTimed, RawRwLockUpgradeTimed};
use std::alloc::Global;
use std::sync::Arc;
use std::test::Fail;

/// Whether an acquisition gave a guard, and whether the lock was held beside the guard and after its end.
type Ended = (bool, bool, bool);

const FREED: Ended = (true, true, false);

/// Ends the guard of the mutex, if the acquisition gave one.
fn mutex_ended<G: Drop, R: RawMutex>(
    mutex: &Mutex<R, u64>,
    answer: Result<Option<G>, Fault>,
) -> Ended {
    let guard = answer.ok().flatten();
    let is_given = guard.is_some();
    let is_held = mutex.is_locked();
    drop(guard);
    (is_given, is_held, mutex.is_locked())
}

fn check_mutex<R: RawMutexTimed<Duration = (), Instant = ()> + Drop>(
    alloc: Global,
    waiter: R::Waiter,
) -> Result<(), Fail> {
    let mutex: Mutex<R, u64> = Mutex::new(alloc, waiter, 0)?;
    let mutex = Arc::new(alloc, mutex)?;
    let ended = [
        mutex_ended(&mutex, Mutex::lock_arc(&mutex).map(Some)),
        mutex_ended(&mutex, Mutex::try_lock_arc(&mutex)),
        mutex_ended(&mutex, Mutex::try_lock_arc_for(&mutex, ())),
        mutex_ended(&mutex, Mutex::try_lock_arc_until(&mutex, ())),
    ];
    equal(ended, [FREED; 4])
}

/// Ends the guard of the lock, if the acquisition gave one.
fn rwlock_ended<G: Drop, R: RawRwLock>(
    lock: &RwLock<R, u64>,
    answer: Result<Option<G>, Fault>,
) -> Ended {
    let guard = answer.ok().flatten();
    let is_given = guard.is_some();
    let is_held = lock.is_locked();
    drop(guard);
    (is_given, is_held, lock.is_locked())
}

/// By readers and writers.
fn ended_rwlocks<R: RawRwLockTimed<Duration = (), Instant = ()> + Drop>(
    lock: &Arc<RwLock<R, u64>>,
) -> [[Ended; 4]; 2] {
    let read = [
        rwlock_ended(lock, RwLock::read_arc(lock).map(Some)),
        rwlock_ended(lock, RwLock::try_read_arc(lock)),
        rwlock_ended(lock, RwLock::try_read_arc_for(lock, ())),
        rwlock_ended(lock, RwLock::try_read_arc_until(lock, ())),
    ];
    let written = [
        rwlock_ended(lock, RwLock::write_arc(lock).map(Some)),
        rwlock_ended(lock, RwLock::try_write_arc(lock)),
        rwlock_ended(lock, RwLock::try_write_arc_for(lock, ())),
        rwlock_ended(lock, RwLock::try_write_arc_until(lock, ())),
    ];
    [read, written]
}

/// By upgradable readers.
fn ended_upgradable<R: RawRwLockUpgradeTimed<Duration = (), Instant = ()> + Drop>(
    lock: &Arc<RwLock<R, u64>>,
) -> [Ended; 4] {
    [
        rwlock_ended(lock, RwLock::upgradable_read_arc(lock).map(Some)),
        rwlock_ended(lock, RwLock::try_upgradable_read_arc(lock)),
        rwlock_ended(lock, RwLock::try_upgradable_read_arc_for(lock, ())),
        rwlock_ended(lock, RwLock::try_upgradable_read_arc_until(lock, ())),
    ]
}

fn check_rwlock<R: RawRwLockUpgradeTimed<Duration = (), Instant = ()> + Drop>(
    alloc: Global,
    waiter: R::Waiter,
) -> Result<(), Fail> {
    let lock: RwLock<R, u64> = RwLock::new(alloc, waiter, 0)?;
    let lock = Arc::new(alloc, lock)?;
    let ended = (ended_rwlocks(&lock), ended_upgradable(&lock));
    equal(ended, ([[FREED; 4]; 2], [FREED; 4]))
}

/// Ends the guard of the lock, if the acquisition gave one.
fn reentrant_mutex_ended<G: Drop, R: RawMutex>(
    lock: &ReentrantMutex<R, u64>,
    answer: Result<Option<G>, Fault>,
) -> Ended {
    let guard = answer.ok().flatten();
    let is_given = guard.is_some();
    let is_held = lock.is_locked();
    drop(guard);
    (is_given, is_held, lock.is_locked())
}

fn check_reentrant_mutex<R: RawMutexTimed<Duration = (), Instant = ()> + Drop>(
    alloc: Global,
    waiter: R::Waiter,
    one: PartyId,
) -> Result<(), Fail>
where
    R::Guard: Send,
{
    let lock: ReentrantMutex<R, u64> = ReentrantMutex::new(alloc, waiter, 0)?;
    let lock = Arc::new(alloc, lock)?;
    let ended = [
        reentrant_mutex_ended(&lock, ReentrantMutex::lock_arc(&lock, one).map(Some)),
        reentrant_mutex_ended(&lock, ReentrantMutex::try_lock_arc(&lock, one)),
        reentrant_mutex_ended(&lock, ReentrantMutex::try_lock_arc_for(&lock, one, ())),
        reentrant_mutex_ended(&lock, ReentrantMutex::try_lock_arc_until(&lock, one, ())),
    ];
    equal(ended, [FREED; 4])
}

/// Each kind of lock.
fn check_all<C: LockCore<Duration = (), Instant = ()>>(
    alloc: Global,
    [mutex, rwlock, reentrant]: [C::Waiter; 3],
    one: PartyId,
) -> Result<(), Fail>
where
    C::Token: Send,
{
    check_mutex::<RawLock<C>>(alloc, mutex)?;
    check_rwlock::<RawLock<C>>(alloc, rwlock)?;
    check_reentrant_mutex::<RawLock<C>>(alloc, reentrant, one)
}

#[test]
fn each_acquisition_by_an_arc_ends_free(rt: HostRuntime) -> Result<(), Fail> {
    check_all::<Table>(rt.alloc(), [rt; 3], party(1)?)
}
