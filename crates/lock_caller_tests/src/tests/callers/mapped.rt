//! What a caller knows of a part of a value.
ghost use Rattle.std.specs.Prelude.{◌≡◌};
ghost use Rattle.lock_api.specs.MutexGuard.{held_of};
ghost use Rattle.lock_api.specs.Mapped.{IsMapOf};

use crate::tests::callers::{Limit, Settings};
use lock_api::{
    At, MappedMutexGuard, MappedRwLockWriteGuard, Mutex, MutexGuard, RawMutex, RawRwLock, RwLock,
    RwLockReadGuard, RwLockWriteGuard,
};

/// A part reads what was written to it.
pub fn write_and_read<R: RawMutex>(mutex: &Mutex<R, Settings>, value: u64) -> u64
    ensures { result ≡ value }
{
    let mut limit = MutexGuard::map(mutex.lock(), At(Limit));
    *limit = value;
    *limit
}

/// The value of the guard is the value of the mapped guard.
pub fn read_through_map<R: RawMutex>(mutex: &Mutex<R, Settings>, value: u64) -> u64
    ensures { result ≡ value }
{
    let mut guard = mutex.lock();
    guard.limit = value;
    *MutexGuard::map(guard, At(Limit))
}

/// A mapped guard that is passed on holds what the guard held.
pub fn map_it<'a, R: RawMutex>(
    guard: MutexGuard<'a, R, Settings>,
    limit: At<Limit>,
) -> MappedMutexGuard<'a, R, Settings, At<Limit>>
    ensures { IsMapOf (held_of guard.entry) limit result }
{
    MutexGuard::map(guard, limit)
}

/// The same of a write guard.
pub fn raise<R: RawRwLock>(lock: &RwLock<R, Settings>, value: u64) -> u64
    ensures { result ≡ value }
{
    let mut limit: MappedRwLockWriteGuard<'_, R, Settings, At<Limit>> = RwLockWriteGuard::map(
        lock.write(),
        At(Limit),
    );
    *limit = value;
    *limit
}

/// A part that is read stays as it is.
pub fn read_twice<R: RawRwLock>(lock: &RwLock<R, Settings>) -> (u64, u64)
    ensures { result.0 ≡ result.1 }
{
    let limit = RwLockReadGuard::map(lock.read(), At(Limit));
    (*limit, *limit)
}
