//! A guard returns its own lock.
use crate::tests::{Table, is_refused};
use lock_modes::{Fault, PartyId};
use lock_mutex::{ArcMutexGuard, Mutex};
use lock_raws::{LockCore, RawLock};
use lock_remutex::{ArcReentrantMutexGuard, ReentrantMutex};
use lock_rwlock::{ArcRwLockGuard, FairMode, RwLock};
use lock_test_support::answer::equal;
use lock_test_support::two_parties;
use lock_traits::{RawMutex, RawMutexFair, RawRwLock, RawRwLockUpgradeFair};
use std::alloc::Global;
use std::sync::Arc;
use std::test::Fail;

/// Whether the second mutex refuses a try while the first is held.
fn refuses_beside<R: RawMutex + Drop>(
    held: Arc<Mutex<R, u64>>,
    tried: &Arc<Mutex<R, u64>>,
) -> bool {
    let _guard = held.lock();
    is_refused(tried.try_lock())
}

/// By `into_arc` and by `into_arc_fair`.
fn check_mutex<R: RawMutexFair + Drop>(alloc: Global, waiter: R::Waiter) -> Result<(), Fail> {
    let mutex: Mutex<R, u64> = Mutex::new(alloc, waiter, 0)?;
    let mutex = Arc::new(alloc, mutex)?;
    let plain = ArcMutexGuard::into_arc(Mutex::lock_arc(&mutex)?);
    let is_own = refuses_beside(plain, &mutex);
    let fair = ArcMutexGuard::into_arc_fair(Mutex::lock_arc(&mutex)?);
    equal([is_own, refuses_beside(fair, &mutex)], [true; 2])
}

type Owned<R> = Arc<RwLock<R, u64>>;

/// Whether the second lock refuses a reader while the first is held by a writer.
fn refuses_readers<R: RawRwLock + Drop>(held: Owned<R>, tried: &Owned<R>) -> bool {
    let _guard = held.write();
    is_refused(tried.try_read())
}

/// Whether the guard returns the lock, by `into_arc` or by `into_arc_fair`.
fn returns<M: FairMode<R>, R: RawRwLock + Drop>(
    guard: Result<ArcRwLockGuard<M, R, u64>, Fault>,
    lock: &Owned<R>,
    is_fair: bool,
) -> Result<bool, Fault> {
    let guard = guard?;
    let own = if is_fair {
        ArcRwLockGuard::into_arc_fair(guard)
    } else {
        ArcRwLockGuard::into_arc(guard)
    };
    Ok(refuses_readers(own, lock))
}

/// `returns` of a reader, of a writer, and of an upgradable reader.
fn returned_rwlocks<R: RawRwLockUpgradeFair + Drop>(
    lock: &Owned<R>,
    is_fair: bool,
) -> Result<[bool; 3], Fault> {
    Ok([
        returns(RwLock::read_arc(lock), lock, is_fair)?,
        returns(RwLock::write_arc(lock), lock, is_fair)?,
        returns(RwLock::upgradable_read_arc(lock), lock, is_fair)?,
    ])
}

/// By `into_arc` and by `into_arc_fair`.
fn check_rwlock<R: RawRwLockUpgradeFair + Drop>(
    alloc: Global,
    waiter: R::Waiter,
) -> Result<(), Fail> {
    let lock: RwLock<R, u64> = RwLock::new(alloc, waiter, 0)?;
    let lock = Arc::new(alloc, lock)?;
    let (plain, fair) = (
        returned_rwlocks(&lock, false),
        returned_rwlocks(&lock, true),
    );
    equal([plain, fair], [Ok([true; 3]); 2])
}

/// Whether a try gave no guard, for a party that may have more levels.
fn is_refused_level<G: Drop>(tried: Result<Option<G>, Fault>) -> bool {
    matches!(tried, Ok(None))
}

/// Whether the second lock refuses the second party while the first is held by the first.
fn refuses_the_other<R: RawMutex + Drop>(
    held: Arc<ReentrantMutex<R, u64>>,
    tried: &Arc<ReentrantMutex<R, u64>>,
    parties: (PartyId, PartyId),
) -> bool {
    let guard = held.lock(parties.0);
    guard.is_ok() && is_refused_level(tried.try_lock(parties.1))
}

/// By `into_arc` and by `into_arc_fair`.
fn returned_reentrant_mutexes<R: RawMutexFair + Drop>(
    lock: &Arc<ReentrantMutex<R, u64>>,
    parties: (PartyId, PartyId),
) -> Result<[bool; 2], Fault> {
    let plain = ArcReentrantMutexGuard::into_arc(ReentrantMutex::lock_arc(lock, parties.0)?);
    let is_own = refuses_the_other(plain, lock, parties);
    let fair = ArcReentrantMutexGuard::into_arc_fair(ReentrantMutex::lock_arc(lock, parties.0)?);
    Ok([is_own, refuses_the_other(fair, lock, parties)])
}

fn check_reentrant_mutex<R: RawMutexFair + Drop>(
    alloc: Global,
    waiter: R::Waiter,
    parties: (PartyId, PartyId),
) -> Result<(), Fail>
where
    R::Guard: Send,
{
    let lock: ReentrantMutex<R, u64> = ReentrantMutex::new(alloc, waiter, 0)?;
    let lock = Arc::new(alloc, lock)?;
    equal(returned_reentrant_mutexes(&lock, parties)?, [true; 2])
}

/// Each kind of lock.
fn check_all<C: LockCore>(
    alloc: Global,
    [mutex, rwlock, reentrant]: [C::Waiter; 3],
    parties: (PartyId, PartyId),
) -> Result<(), Fail>
where
    C::Token: Send,
{
    check_mutex::<RawLock<C>>(alloc, mutex)?;
    check_rwlock::<RawLock<C>>(alloc, rwlock)?;
    check_reentrant_mutex::<RawLock<C>>(alloc, reentrant, parties)
}

/// A lock that a guard returned refuses a try through the first reference while it is held.
#[test]
fn an_arc_guard_returns_its_own_lock(rt: HostRuntime) -> Result<(), Fail> {
    check_all::<Table>(rt.alloc(), [rt; 3], two_parties()?)
}
