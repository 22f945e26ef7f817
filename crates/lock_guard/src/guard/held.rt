//! A held lock.
ghost use Rattle.std.specs.Prelude.{◌≡◌, IfErr, IfOk, Some, true};
ghost use Rattle.lock_guard.specs.declared.guard.inner.Inner.TheVariants.{Filled};
ghost use Rattle.lock_guard.specs.Inner.{is_filled, owns};

use crate::guard::{Acquire, AcquireFair, Inner};

/// Makes the `Held` of a lock and its token: tries the value's lock, and blocks where another thread holds it.
///
/// A macro, not a function: after a call that may block, compiled code tests a flag, and the uncontended path has no
/// such call.
#[macro_export]
macro_rules! held {
    ($lock:expr, $token:expr) => {
        match $crate::guard::Held::try_new($lock, $token) {
            Ok(held) => held,
            Err((lock, token)) => $crate::guard::Held::new(lock, token),
        }
    };
}

/// A lock with the token of one acquisition and access to the value. Its drop releases the value's lock, then the raw
/// lock.
///
/// The borrow lies in the type parameter, so that a proof can follow writes through it.
pub struct Held<L: Acquire> {
    pub lock: L,
    pub inner: Inner<L::Token, L::Shown>,
    ghost filled: { is_filled inner ≡ true },
    ghost own: { owns (L.is_own lock) inner ≡ true },
}

impl<L: Acquire> Held<L> {
    ghost use Rattle.lock_guard.specs.Held.{held_token};

    /// Makes the `Held` of a lock and its token, blocking until the value's lock is free. `held!` tries it first.
    pub fn new(lock: L, token: L::Token) -> Held<L>
        requires { L.is_own lock token ≡ true }
        ensures lock { result.lock ≡ lock }
        ensures token { held_token result ≡ Some token }
    {
        let shown = lock.block_on_value();
        Held {
            lock,
            inner: Inner::Filled(token, shown),
        }
    }

    /// Makes the `Held` if the value's lock is free. Otherwise returns the lock and the token.
    pub fn try_new(lock: L, token: L::Token) -> Result<Held<L>, (L, L::Token)>
        requires { L.is_own lock token ≡ true }
        ensures held { IfOk result (λ held. held.lock ≡ lock) }
        ensures token { IfOk result (λ held. held_token held ≡ Some token) }
        ensures back { IfErr result (λ back. (back.0 ≡ lock) × (back.1 ≡ token)) }
    {
        match lock.try_lock_value() {
            Some(shown) => Ok(Held {
                lock,
                inner: Inner::Filled(token, shown),
            }),
            None => Err((lock, token)),
        }
    }

    /// Releases the value's lock, and returns the lock with its token.
    pub fn into_token(self) -> (L, L::Token)
        ensures lock { result.0 ≡ self.lock }
        ensures own { L.is_own result.0 result.1 ≡ true }
    {
        let Held { lock, inner } = self;
        (lock, inner.into_token())
    }

    /// Returns the lock, its token and the guard of the value. The caller releases the value's lock first, and the
    /// token after.
    pub fn into_parts(self) -> (L, L::Token, L::Shown)
        ensures lock { result.0 ≡ self.lock }
        ensures inner { Filled result.1 result.2 ≡ self.inner }
        ensures own { L.is_own result.0 result.1 ≡ true }
    {
        let Held { lock, inner } = self;
        let (token, shown) = inner.into_parts();
        (lock, token, shown)
    }

    /// Returns the inner part, still filled. The caller releases the token.
    pub fn into_inner(self) -> Inner<L::Token, L::Shown>
        ensures inner { result ≡ self.inner }
        ensures own { owns (L.is_own self.lock) result ≡ true }
    {
        let Held { lock: _, inner } = self;
        inner
    }

    /// Releases the lock, runs `f`, and reacquires the lock, blocking until it is available.
    pub fn unlocked<U, F: FnOnce() -> U>(&mut self, f: F) -> U
        requires { F.IsAlwaysCallable f }
        ensures answer { F.post f result }
        ensures lock { self.new.lock ≡ self.old.lock }
    {
        self.lock.release(self.inner.empty());
        let answer = f();
        self.inner.refill(&self.lock);
        answer
    }
}

impl<L: AcquireFair> Held<L> {
    /// Releases the lock by a fair release.
    pub fn unlock_fair(self) {
        let (lock, token) = self.into_token();
        lock.release_fair(token);
    }

    /// `unlocked`, by a fair release.
    pub fn unlocked_fair<U, F: FnOnce() -> U>(&mut self, f: F) -> U
        requires { F.IsAlwaysCallable f }
        ensures answer { F.post f result }
        ensures lock { self.new.lock ≡ self.old.lock }
    {
        self.lock.release_fair(self.inner.empty());
        let answer = f();
        self.inner.refill(&self.lock);
        answer
    }

    /// Releases the lock by a fair release, and reacquires it, blocking until it is available.
    pub fn bump(&mut self)
        ensures { self.new.lock ≡ self.old.lock }
    {
        let next = self.lock.bump(self.inner.empty());
        self.inner.fill(next, self.lock.lock_value());
    }
}

impl<L: Acquire> Drop for Held<L> {
    fn drop(self) {
        let (lock, token) = self.into_token();
        lock.release(token);
    }
}
