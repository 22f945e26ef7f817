//! A shelf of objects, each lent by a loan that returns it on drop.
ghost use Rattle.std.specs.Prelude.{◌≡◌, IfErr, IfSome, IsOkUnless};

use lock_api::{Fault, Mutex, RawMutex};
use std::alloc::{AllocFailed, Global};
use std::collections::VecDeque;

/// Objects that nobody has borrowed, behind a lock.
#[derive(Drop)]
pub struct Shelf<R: RawMutex, T: Drop> {
    free: Mutex<R, VecDeque<T>>,
}

impl<R: RawMutex + Drop, T: Drop> Shelf<R, T> {
    /// Makes an empty shelf.
    pub fn new(alloc: Global, waiter: R::Waiter) -> Result<Shelf<R, T>, Fault>
        ensures { IsOkUnless result Fault.OutOfMemory }
    {
        Ok(Shelf {
            free: Mutex::new(alloc, waiter, VecDeque::new(alloc))?,
        })
    }
}

impl<R: RawMutex, T: Drop> Shelf<R, T> {
    /// Puts an object last. Without memory the object is returned.
    pub fn put(&self, object: T) -> Result<(), AllocFailed<T>>
        ensures { IfErr result (λ refused. refused.value ≡ object) }
    {
        self.free.lock().push_back(object)
    }

    /// Borrows the first object, or returns `None` if there is none.
    pub fn borrow(&self) -> Option<Loan<'_, R, T>>
        ensures { IfSome result (λ loan. loan.shelf.ref_ptr ≡ self.entry.ref_ptr) }
    {
        let object = self.free.lock().pop_front()?;
        Some(Loan {
            shelf: self,
            object,
        })
    }
}

/// An object of a shelf. The loan returns it on drop, or drops it if there is no memory to put it back.
pub struct Loan<'a, R: RawMutex, T: Drop> {
    shelf: &'a Shelf<R, T>,
    pub object: T,
}

impl<R: RawMutex, T: Drop> Drop for Loan<'_, R, T> {
    fn drop(self) {
        let Loan { shelf, object } = self;
        let _ = shelf.put(object);
    }
}
