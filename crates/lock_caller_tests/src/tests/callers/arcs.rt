//! What a caller knows of guards that own a reference to their lock.
ghost use Rattle.std.specs.Prelude.{◌≡◌, IfOk};
ghost use Rattle.std.specs.Arc.{arc_value};
ghost use Rattle.lock_api.specs.Guards.{value_of};

use lock_api::{
    ArcMutexGuard, ArcReentrantMutexGuard, ArcRwLockReadGuard, ArcRwLockUpgradableReadGuard,
    ArcRwLockWriteGuard, Fault, Mutex, PartyId, RawMutex, RawMutexFair, RawRwLockUpgradeDowngrade,
    ReentrantMutex, RwLock,
};
use std::sync::Arc;

/// The closures' answers are returned, and the guard keeps its mutex through all calls.
pub fn same_mutex_by_an_arc<R: RawMutexFair + Drop>(
    mutex: &Arc<Mutex<R, u64>>,
    answer: u64,
) -> Result<(Arc<Mutex<R, u64>>, u64, u64), Fault>
    ensures { IfOk result (λ made.
        (arc_value made.0 ≡ arc_value mutex.now) × (made.1 ≡ answer) × (made.2 ≡ answer)) }
{
    let mut guard = Mutex::lock_arc(mutex)?;
    let written = ArcMutexGuard::with_mut(&mut guard, |value| {
        *value = answer;
        *value
    });
    ArcMutexGuard::bump(&mut guard);
    let answered = ArcMutexGuard::unlocked(&mut guard, || answer);
    Ok((ArcMutexGuard::into_arc(guard), written, answered))
}

/// The guard keeps its lock through all changes of mode, and the closure's answer is returned.
pub fn same_rwlock_by_an_arc<R: RawRwLockUpgradeDowngrade + Drop>(
    lock: &Arc<RwLock<R, u64>>,
    answer: u64,
) -> Result<(Arc<RwLock<R, u64>>, u64), Fault>
    ensures { IfOk result (λ made. (arc_value made.0 ≡ arc_value lock.now) × (made.1 ≡ answer)) }
{
    let writer = RwLock::write_arc(lock)?;
    let mut guard = ArcRwLockWriteGuard::downgrade_to_upgradable(writer);
    let written = guard.with_upgraded(|value| {
        *value = answer;
        *value
    });
    let reader = match ArcRwLockUpgradableReadGuard::try_upgrade(guard) {
        Ok(writer) => ArcRwLockWriteGuard::downgrade(writer),
        Err(same) => ArcRwLockUpgradableReadGuard::downgrade(same),
    };
    Ok((ArcRwLockReadGuard::into_arc(reader), written))
}

/// A guard reads the value of its lock.
pub fn value_by_an_arc<R: RawMutex + Drop>(
    lock: &Arc<ReentrantMutex<R, u64>>,
    party: PartyId,
) -> Result<u64, Fault>
    ensures { IfOk result (λ value. value ≡ value_of (arc_value lock.now)) }
{
    let guard = ReentrantMutex::lock_arc(lock, party)?;
    Ok(*guard)
}
