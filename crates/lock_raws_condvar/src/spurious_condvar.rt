//! A condition variable whose waits end at once.
use lock_modes::Fault;
use lock_traits::{RawCondvar, RawCondvarTimed, RawMutex, RawMutexTimed};
use std::alloc::Global;
use std::marker::PhantomData;

/// A condition variable whose waits release the lock, reacquire it, and end. A timed wait answers that it timed out.
#[derive(Drop)]
pub struct SpuriousCondvar<R> {
    mutex: PhantomData<R>,
}

impl<R: RawMutex> RawCondvar for SpuriousCondvar<R> {
    type RawMutex = R;

    fn new(_alloc: Global) -> Result<SpuriousCondvar<R>, Fault> {
        Ok(SpuriousCondvar { mutex: PhantomData })
    }

    fn wait(&self, mutex: &R, token: R::Guard) -> R::Guard {
        mutex.unlock(token);
        mutex.lock()
    }

    fn notify_one(&self) -> bool {
        false
    }

    fn notify_all(&self) -> usize {
        0
    }
}

impl<R: RawMutexTimed<Duration = (), Instant = ()>> RawCondvarTimed for SpuriousCondvar<R> {
    fn checked_duration_to_instant(_timeout: &()) -> Option<()> {
        Some(())
    }

    fn wait_until(&self, mutex: &R, token: R::Guard, _deadline: &()) -> (R::Guard, bool) {
        (self.wait(mutex, token), true)
    }
}
