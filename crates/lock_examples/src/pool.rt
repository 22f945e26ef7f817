//! A pool of objects, each leased to one holder at a time.
use lock_api::{ArcMutexGuard, Fault, Mutex, RawMutex};
use std::alloc::Global;
use std::sync::Arc;

/// A lease of an object of a pool. It returns the object on drop, and it may outlive the pool.
pub type Lease<R, T> = ArcMutexGuard<R, T>;

/// Objects, each leased to one holder at a time.
#[derive(Drop)]
pub struct Pool<R: RawMutex + Drop, T: Drop> {
    objects: Vec<Arc<Mutex<R, T>>>,
}

impl<R: RawMutex + Drop, T: Drop> Pool<R, T> {
    ghost use Rattle.std.specs.Prelude.{◌≡◌, [], ◌∷◌, ◌++◌, Any, IfOk, IfSome, IsOkUnless, OnErr};
    ghost use Rattle.lock_api.specs.ArcMutexGuard.{IsArcGuardOf};
    ghost use Rattle.lock_api.specs.Closure.{AnswersSomeValue};
    ghost use Rattle.lock_examples.specs.Pool.{objects_of};

    /// Makes a pool without objects.
    pub fn new(alloc: Global) -> Pool<R, T>
        ensures { objects_of result ≡ [] }
    {
        Pool {
            objects: Vec::new(alloc),
        }
    }

    /// Adds an object. Without memory the object is dropped, and the pool stays as it was.
    pub fn add(&mut self, alloc: Global, waiter: R::Waiter, object: T) -> Result<(), Fault>
        ensures fault { IsOkUnless result Fault.OutOfMemory }
        ensures added { IfOk result (λ _. (added : _) × (objects_of self.new ≡ objects_of self.old ++ added ∷ [])) }
        ensures kept { OnErr result (objects_of self.new ≡ objects_of self.old) }
    {
        let mutex = Mutex::new(alloc, waiter, object)?;
        let shared = Arc::new(alloc, mutex)?;
        Ok(self.objects.push(shared)?)
    }

    /// Leases the first object that is free, or returns `None` if all are leased.
    pub fn lend(&self) -> Result<Option<Lease<R, T>>, Fault>
        ensures fault { IsOkUnless result Fault.OutOfMemory }
        ensures object { IfOk result (λ lent. IfSome lent (λ lease.
            Any (λ object. IsArcGuardOf object lease) (objects_of self.now))) }
    {
        for object in &self.objects {
            let lent = Mutex::try_lock_arc(object)?;
            if lent.is_some() {
                return Ok(lent);
            }
        }
        Ok(None)
    }

    /// Runs `f` on the first object that is free, or returns `None` if all are leased.
    pub fn with_free<U, F: FnOnce(&mut T) -> U>(&self, use_it: F) -> Result<Option<U>, Fault>
    where
        F: Drop,
        requires { F.IsAlwaysCallable use_it }
        ensures fault { IsOkUnless result Fault.OutOfMemory }
        ensures answer { IfOk result (λ answered. IfSome answered (AnswersSomeValue F.FnOnce use_it)) }
    {
        let Some(mut lease) = self.lend()? else {
            return Ok(None);
        };
        Ok(Some(ArcMutexGuard::with_mut(&mut lease, use_it)))
    }
}
