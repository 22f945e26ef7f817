//! A raw lock of the user's own, which spins.
use lock_api::raw::is_limit;
use lock_api::{Fault, RawMutex, RawRwLock};
use std::alloc::Global;
use std::clone::Clone;
use std::sync::Wait;
use std::sync::atomic::{AtomicU64, Ordering};
use std::thread;

/// The word while a writer holds the lock. There may be fewer readers than that.
const WRITES: u64 = u64::MAX;

/// A shared token. Only this module makes one.
#[derive(Drop)]
pub struct SpinReader {
    _only_here: (),
}

/// An exclusive token. Only this module makes one.
#[derive(Drop)]
pub struct SpinWriter {
    _only_here: (),
}

/// A lock in one word: the number of readers, or a mark of a writer. A blocked call tries again and again.
#[derive(Drop)]
pub struct SpinLock<W: Wait + Clone + Drop> {
    waiter: W,
    readers: u64,
    word: AtomicU64,
}

impl<W: Wait + Clone + Drop> SpinLock<W> {
    fn free(waiter: W, readers: u64) -> SpinLock<W> {
        SpinLock {
            waiter,
            readers,
            word: AtomicU64::new(0),
        }
    }

    /// Replaces the word if it is still the one that was seen, and returns whether it was.
    fn exchange(&self, seen: u64, next: u64) -> bool {
        self.word
            .compare_exchange(seen, next, Ordering::SeqCst, Ordering::SeqCst)
            .is_ok()
    }

    /// Tries until it gets a token.
    fn spin<T, F: Fn(&Self) -> Option<T> + Drop>(&self, ask: F) -> T
        requires { F.IsAlwaysCallable ask }
    {
        for _ in self.waiter.forever() {
            if let Some(token) = ask(self) {
                return token;
            }
            thread::yield_now();
        }
        unreachable!()
    }
}

impl<W: Wait + Clone + Drop> RawMutex for SpinLock<W> {
    type Guard = SpinWriter;

    type Waiter = W;

    fn new(_alloc: Global, waiter: W) -> Result<SpinLock<W>, Fault> {
        Ok(SpinLock::free(waiter, 1))
    }

    fn waiter(&self) -> &W {
        &self.waiter
    }

    fn lock(&self) -> SpinWriter {
        self.spin(|lock| RawMutex::try_lock(lock))
    }

    fn try_lock(&self) -> Option<SpinWriter> {
        self.exchange(0, WRITES)
            .then_some(SpinWriter { _only_here: () })
    }

    fn unlock(&self, _token: SpinWriter) {
        self.word.store(0, Ordering::SeqCst);
    }

    fn is_locked(&self) -> bool {
        self.word.load(Ordering::SeqCst) != 0
    }
}

impl<W: Wait + Clone + Drop> RawRwLock for SpinLock<W> {
    type SharedGuard = SpinReader;

    type ExclusiveGuard = SpinWriter;

    type Waiter = W;

    fn new(_alloc: Global, waiter: W, readers: u64) -> Result<SpinLock<W>, Fault> {
        if !is_limit(readers) {
            return Err(Fault::BadLimits);
        }
        Ok(SpinLock::free(waiter, readers))
    }

    fn waiter(&self) -> &W {
        &self.waiter
    }

    fn lock_shared(&self) -> SpinReader {
        self.spin(|lock| lock.try_lock_shared())
    }

    fn try_lock_shared(&self) -> Option<SpinReader> {
        let seen = self.word.load(Ordering::SeqCst);
        if seen < self.readers && self.exchange(seen, seen + 1) {
            return Some(SpinReader { _only_here: () });
        }
        None
    }

    fn unlock_shared(&self, _token: SpinReader) {
        self.word.fetch_sub(1, Ordering::SeqCst);
    }

    fn lock_exclusive(&self) -> SpinWriter {
        RawMutex::lock(self)
    }

    fn try_lock_exclusive(&self) -> Option<SpinWriter> {
        RawMutex::try_lock(self)
    }

    fn unlock_exclusive(&self, token: SpinWriter) {
        RawMutex::unlock(self, token);
    }

    fn is_locked(&self) -> bool {
        RawMutex::is_locked(self)
    }

    fn is_locked_exclusive(&self) -> bool {
        self.word.load(Ordering::SeqCst) == WRITES
    }
}
