//! Code that is generic over the raw lock, and makes more than one kind of lock over it.
ghost use Rattle.std.specs.Prelude.{◌≡◌, IfOk};

use lock_api::raw::{FullRawLock, FullRawLockTimed, WaiterOf};
use lock_api::{Fault, Mutex, RawMutexTimed, RwLock};
use std::alloc::Global;

/// Makes a mutex and a reader-writer lock over one raw lock, writes the value under each, and returns what each reads.
pub fn write_under_each<R: FullRawLock>(
    alloc: Global,
    waiter: &WaiterOf<R>,
    value: u64,
) -> Result<(u64, u64), Fault>
    ensures { IfOk result (λ read. (read.0 ≡ value) × (read.1 ≡ value)) }
{
    let mutex: Mutex<R, u64> = Mutex::new(alloc, waiter.clone()?, 0)?;
    let lock: RwLock<R, u64> = RwLock::new(alloc, waiter.clone()?, 0)?;
    let mut guard = mutex.lock();
    let mut writer = lock.write();
    *guard = value;
    *writer = value;
    Ok((*guard, *writer))
}

/// Returns what each lock holds if both are acquired within this time.
pub fn read_within<R: FullRawLockTimed>(
    mutex: &Mutex<R, u64>,
    lock: &RwLock<R, u64>,
    times: [<R as RawMutexTimed>::Duration; 2],
) -> Option<(u64, u64)> {
    let [first, second] = times;
    let guard = mutex.try_lock_for(first)?;
    let reader = lock.try_read_for(second)?;
    Some((*guard, *reader))
}
