//! What a caller knows of a mutex.
ghost use Rattle.std.specs.Prelude.{◌≡◌, IfSome};
ghost use Rattle.std.specs.Sync.Mutex.{mutex_guard_value};
ghost use Rattle.lock_api.specs.MutexGuard.{IsGuardOf};
ghost use Rattle.lock_caller_tests.specs.Words.{Shows};

use lock_api::{Mutex, MutexGuard, RawMutex, RawMutexFair};

/// What is written through a guard is what it reads next.
pub fn write_and_read<R: RawMutex>(mutex: &Mutex<R, u64>) -> u64
    ensures { result ≡ 5 }
{
    let mut guard = mutex.lock();
    *guard = 5;
    if MutexGuard::mutex(&guard).is_locked() {
        return *guard;
    }
    *guard
}

/// The same, if the mutex is free.
pub fn try_write_and_read<R: RawMutex>(mutex: &Mutex<R, u64>, value: u64) -> Option<u64>
    ensures { IfSome result (λ read. read ≡ value) }
{
    let mut guard = mutex.try_lock()?;
    *guard = value;
    Some(*guard)
}

/// A guard reads one value until it is written.
pub fn read_twice<R: RawMutex>(guard: &MutexGuard<'_, R, u64>) -> (u64, u64)
    ensures { result.0 ≡ result.1 }
{
    (**guard, **guard)
}

/// A guard that a caller lends reads what was written through it.
pub fn put<R: RawMutex>(guard: &mut MutexGuard<'_, R, u64>, value: u64)
    ensures { Shows mutex_guard_value value guard.new }
{
    **guard = value;
}

/// A guard that is returned is of the mutex that was locked.
pub fn lock_it<R: RawMutex, T>(mutex: &Mutex<R, T>) -> MutexGuard<'_, R, T>
    ensures { IsGuardOf mutex.entry result }
{
    mutex.lock()
}

/// A guard in a struct, which is generic over the guard.
#[derive(Drop)]
pub struct Session<G: Drop> {
    guard: G,
    pub calls: u64,
}

impl<'a, R: RawMutex> Session<MutexGuard<'a, R, u64>> {
    /// Writes through the guard, which then reads the same.
    pub fn write(&mut self, value: u64) -> u64
        ensures { result ≡ value }
    {
        *self.guard = value;
        self.calls = self.calls.wrapping_add(1);
        *self.guard
    }
}

/// The closure's answer is returned.
pub fn answer_unlocked<R: RawMutex>(mutex: &Mutex<R, u64>, answer: u64) -> u64
    ensures { result ≡ answer }
{
    let mut guard = mutex.lock();
    MutexGuard::unlocked(&mut guard, || answer)
}

/// The closure's answer is returned after a fair release, and the guard keeps its mutex.
pub fn same_mutex_after_all<'a, R: RawMutexFair>(
    mutex: &'a Mutex<R, u64>,
    answer: u64,
) -> (&'a Mutex<R, u64>, u64)
    ensures mutex { result.0.ref_ptr ≡ mutex.entry.ref_ptr }
    ensures answer { result.1 ≡ answer }
{
    let mut guard = mutex.lock();
    let answered = MutexGuard::unlocked_fair(&mut guard, || answer);
    MutexGuard::bump(&mut guard);
    (MutexGuard::mutex(&guard), answered)
}
