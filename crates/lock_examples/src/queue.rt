//! A bounded queue for several producers and consumers.
ghost use Rattle.std.specs.Prelude.{◌≡◌, IfErr, IsOkUnless};

use crate::ring::Ring;
use lock_api::{Condvar, Fault, Mutex, RawCondvar, RawCondvarTimed, RawMutex, RawMutexTimed};
use std::alloc::Global;

/// A queue with a number of places. A push blocks while it is full, and a pop while it is empty.
#[derive(Drop)]
pub struct Queue<C: RawCondvar, T> {
    ring: Mutex<C::RawMutex, Ring<T>>,
    not_full: Condvar<C>,
    not_empty: Condvar<C>,
}

impl<C: RawCondvar + Drop, T: Drop> Queue<C, T>
where
    C::RawMutex: Drop,
{
    /// Makes an empty queue. It allocates all the memory that it ever needs.
    pub fn new(
        alloc: Global,
        waiter: <C::RawMutex as RawMutex>::Waiter,
        places: usize,
    ) -> Result<Queue<C, T>, Fault>
        ensures { IsOkUnless result Fault.OutOfMemory }
    {
        let ring = Ring::with_places(alloc, places)?;
        Ok(Queue {
            ring: Mutex::new(alloc, waiter, ring)?,
            not_full: Condvar::new(alloc)?,
            not_empty: Condvar::new(alloc)?,
        })
    }
}

impl<C: RawCondvar, T> Queue<C, T> {
    /// Pushes an item, blocking while the queue is full. After the wait the ring is not full, as its `push` requires.
    pub fn push(&self, item: T) {
        let mut ring = self.ring.lock();
        self.not_full.wait_while(&mut ring, |ring| ring.is_full());
        ring.push(item);
        drop(ring);
        self.not_empty.notify_one();
    }

    /// Pushes an item without blocking, or returns it if the queue is full.
    pub fn try_push(&self, item: T) -> Result<(), T>
        ensures { IfErr result (λ back. back ≡ item) }
    {
        let pushed = self.ring.lock().try_push(item);
        if pushed.is_ok() {
            self.not_empty.notify_one();
        }
        pushed
    }

    /// Pops the oldest item, blocking while the queue is empty.
    pub fn pop(&self) -> T {
        let mut ring = self.ring.lock();
        self.not_empty.wait_while(&mut ring, |ring| ring.is_empty());
        let item = ring.pop();
        drop(ring);
        self.not_full.notify_one();
        item
    }

    /// Pops the oldest item, or returns `None` if the queue is empty.
    pub fn try_pop(&self) -> Option<T> {
        let popped = self.ring.lock().try_pop();
        if popped.is_some() {
            self.not_full.notify_one();
        }
        popped
    }
}

impl<C: RawCondvarTimed, T> Queue<C, T>
where
    C::RawMutex: RawMutexTimed,
{
    /// `push` for at most a timeout, or returns the item if the queue stayed full.
    pub fn push_for(
        &self,
        item: T,
        timeout: <C::RawMutex as RawMutexTimed>::Duration,
    ) -> Result<(), T>
        ensures { IfErr result (λ back. back ≡ item) }
    {
        let mut ring = self.ring.lock();
        let waited = self
            .not_full
            .wait_while_for(&mut ring, |ring| ring.is_full(), timeout);
        let pushed = if waited.timed_out() {
            Err(item)
        } else {
            ring.push(item);
            Ok(())
        };
        drop(ring);
        if pushed.is_ok() {
            self.not_empty.notify_one();
        }
        pushed
    }
}
