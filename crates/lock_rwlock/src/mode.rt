//! The modes of a lock.
mod exclusive;
mod shared;
mod upgradable;

ghost use Rattle.std.specs.Prelude.{◌≡◌, Bool, true};

use crate::lock::RwLock;
pub use exclusive::Exclusive;
use lock_guard::guard::{Acquire, AcquireFair, Release, ValueGuard};
use lock_traits::RawRwLock;
pub use shared::Shared;
use std::marker::PhantomData;
pub use upgradable::Upgradable;

/// The calls of a raw lock in one mode. The marker type of the mode implements it.
pub trait LockMode<R: RawRwLock> {
    /// The raw lock's token of this mode.
    type Token;

    /// Whether the token is one of the raw lock's acquisitions in this mode.
    ghost is_own: { R → Self.Token → Bool };

    /// Acquires the raw lock in this mode, blocking until it is available.
    fn acquire(raw: &R) -> Self::Token
        ensures { is_own raw.now result ≡ true };

    fn release(raw: &R, token: Self::Token)
        requires { is_own raw.now token ≡ true };
}

/// The fair calls of a raw lock in one mode.
pub trait FairMode<R: RawRwLock>: LockMode<R> {
    fn release_fair(raw: &R, token: Self::Token)
        requires { Self.is_own raw.now token ≡ true };

    /// Releases the raw lock by a fair release, and reacquires it.
    fn bump(raw: &R, token: Self::Token) -> Self::Token
        requires { Self.is_own raw.now token ≡ true }
        ensures { Self.is_own raw.now result ≡ true };
}

/// How a borrowed lock, held in one mode, reaches its value through std's lock.
pub trait ShowMode<'a, R: RawRwLock, T>: LockMode<R> {
    type Shown: ValueGuard;

    /// Tries the value's lock.
    fn try_lock_value(rwlock: &'a RwLock<R, T>) -> Option<Self::Shown>;

    /// Locks the value's lock, blocking until it is free.
    fn block_on_value(rwlock: &'a RwLock<R, T>) -> Self::Shown;
}

/// A borrowed lock in the mode `M`: `Shared`, `Exclusive` or `Upgradable`.
#[derive_where(Clone, Copy)]
pub struct InMode<'a, M, R, T> {
    pub(crate) rwlock: &'a RwLock<R, T>,
    mode: PhantomData<M>,
}

impl<'a, M, R, T> InMode<'a, M, R, T> {
    pub(crate) fn new(rwlock: &'a RwLock<R, T>) -> Self
        ensures { result.rwlock ≡ rwlock.entry }
    {
        InMode {
            rwlock,
            mode: PhantomData,
        }
    }
}

impl<M: LockMode<R>, R: RawRwLock, T> Release for InMode<'_, M, R, T> {
    type Token = M::Token;

    type Waiter = R::Waiter;

    ghost is_own = { λ borrowed token. M.is_own borrowed.rwlock.now.raw token };

    fn release(&self, token: M::Token) {
        M::release(&self.rwlock.raw, token);
    }
}

impl<'a, M: ShowMode<'a, R, T>, R: RawRwLock, T> Acquire for InMode<'a, M, R, T> {
    type Shown = M::Shown;

    fn acquire(&self) -> M::Token {
        M::acquire(&self.rwlock.raw)
    }

    fn try_lock_value(&self) -> Option<M::Shown> {
        M::try_lock_value(self.rwlock)
    }

    fn block_on_value(&self) -> M::Shown {
        M::block_on_value(self.rwlock)
    }
}

impl<'a, M: FairMode<R> + ShowMode<'a, R, T>, R: RawRwLock, T> AcquireFair for InMode<'a, M, R, T> {
    fn release_fair(&self, token: M::Token) {
        M::release_fair(&self.rwlock.raw, token);
    }

    fn bump(&self, token: M::Token) -> M::Token {
        M::bump(&self.rwlock.raw, token)
    }
}
