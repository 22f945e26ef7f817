//! A reader-writer lock that a guard owns a reference to.
ghost use Rattle.std.specs.Prelude.{◌≡◌};
ghost use Rattle.std.specs.Arc.{arc_value};
ghost use Rattle.lock_guard.specs.Closure.{ReadsSomeValue};
ghost use Rattle.lock_rwlock.specs.RwLock.{raw_of};

use crate::closures::read_with;
use crate::lock::RwLock;
use crate::mode::{FairMode, LockMode};
use lock_guard::guard::{Acquire, AcquireFair, Release};
use lock_traits::RawRwLock;
use std::marker::PhantomData;
use std::sync::Arc;

/// A lock whose value can be read while a guard holds the lock.
pub trait ReadValue: Acquire {
    type Value;

    /// Runs `f` on the value, holding the value's lock for the length of the call.
    fn read_value<U, F: FnOnce(&Self::Value) -> U>(&self, f: F) -> U
        requires { F.IsAlwaysCallable f }
        ensures { ReadsSomeValue F.FnOnce f result };
}

/// One `Arc` of a lock, held in the mode `M`.
#[derive(Drop)]
pub struct OwnedInMode<M: LockMode<R>, R: RawRwLock + Drop, T: Drop> {
    pub(crate) rwlock: Arc<RwLock<R, T>>,
    mode: PhantomData<M>,
}

impl<M: LockMode<R>, R: RawRwLock + Drop, T: Drop> OwnedInMode<M, R, T> {
    pub(crate) fn new(rwlock: Arc<RwLock<R, T>>) -> Self
        ensures { result.rwlock ≡ rwlock }
    {
        OwnedInMode {
            rwlock,
            mode: PhantomData,
        }
    }
}

impl<M: LockMode<R>, R: RawRwLock + Drop, T: Drop> Release for OwnedInMode<M, R, T> {
    type Token = M::Token;

    type Waiter = R::Waiter;

    ghost is_own = { λ owned token. M.is_own (raw_of (arc_value owned.rwlock)) token };

    fn release(&self, token: M::Token) {
        M::release(&self.rwlock.raw, token);
    }
}

/// It keeps no guard of the value: std's guard would borrow from the lock next to it in the same struct.
impl<M: LockMode<R>, R: RawRwLock + Drop, T: Drop> Acquire for OwnedInMode<M, R, T> {
    type Shown = ();

    fn acquire(&self) -> M::Token {
        M::acquire(&self.rwlock.raw)
    }

    fn try_lock_value(&self) -> Option<()> {
        Some(())
    }

    fn block_on_value(&self) {}
}

impl<M: LockMode<R>, R: RawRwLock + Drop, T: Drop> ReadValue for OwnedInMode<M, R, T> {
    type Value = T;

    fn read_value<U, F: FnOnce(&T) -> U>(&self, f: F) -> U {
        read_with(&self.rwlock, f)
    }
}

impl<M: FairMode<R>, R: RawRwLock + Drop, T: Drop> AcquireFair for OwnedInMode<M, R, T> {
    fn release_fair(&self, token: M::Token) {
        M::release_fair(&self.rwlock.raw, token);
    }

    fn bump(&self, token: M::Token) -> M::Token {
        M::bump(&self.rwlock.raw, token)
    }
}
