//! Calls of a closure on the value, made by the holder of a token.
ghost use Rattle.std.specs.Prelude.{◌≡◌, true, false, IfOk, IfErr, IfSome, is_ok, is_some};
ghost use Rattle.lock_guard.specs.Closure.{ReadsSomeValue, AnswersSomeValue};
ghost use Rattle.lock_guard.specs.Inner.{is_filled, owns};
ghost use Rattle.lock_guard.specs.declared.guard.inner.Inner.TheVariants.{Filled};

use crate::lock::RwLock;
use crate::mode::{Exclusive, InMode, Shared};
use crate::upgrade::Upgraded;
use lock_guard::guard::{Acquire, Inner};
use lock_traits::{RawRwLock, RawRwLockUpgradeDowngrade};

/// Runs `f` on the value, holding the value's lock for reading for the length of the call.
pub(crate) fn read_with<R: RawRwLock, T, U, F: FnOnce(&T) -> U>(rwlock: &RwLock<R, T>, f: F) -> U
    requires { F.IsAlwaysCallable f }
    ensures { ReadsSomeValue F.FnOnce f result }
{
    let value = InMode::<Shared, R, T>::new(rwlock).lock_value();
    f(&value)
}

/// Runs `f` on the value, which it may change, holding the value's lock for writing for the length of the call.
pub(crate) fn write_with<R: RawRwLock, T, U, F: FnOnce(&mut T) -> U>(
    rwlock: &RwLock<R, T>,
    f: F,
) -> U
    requires { F.IsAlwaysCallable f }
    ensures { AnswersSomeValue F.FnOnce f result }
{
    let mut value = InMode::<Exclusive, R, T>::new(rwlock).lock_value();
    f(&mut value)
}

/// Upgrades the token, runs `f` on the value, and downgrades the token. The upgrade blocks until no other token is
/// held.
pub(crate) fn with_upgraded<R: RawRwLockUpgradeDowngrade, T, U, F: FnOnce(&mut T) -> U>(
    rwlock: &RwLock<R, T>,
    token: R::UpgradableGuard,
    f: F,
) -> (R::UpgradableGuard, U)
    requires callable { F.IsAlwaysCallable f }
    requires own { R.owns_upgradable rwlock.now.raw token ≡ true }
    ensures answer { AnswersSomeValue F.FnOnce f result.1 }
    ensures own { R.owns_upgradable rwlock.now.raw result.0 ≡ true }
{
    let token = rwlock.raw.upgrade(token);
    let answer = write_with(rwlock, f);
    (rwlock.raw.downgrade_to_upgradable(token), answer)
}

/// Runs `f` on the value if the raw lock upgraded the token, downgrades the token, and fills `inner` with it. If the raw
/// lock refused, fills `inner` with the token and `shown`, and does not call `f`.
///
/// `shown` is the caller's access to the value. It is dropped before the value's lock is acquired for writing.
pub(crate) fn with_if_upgraded<
    R: RawRwLockUpgradeDowngrade,
    T,
    L: Acquire<Token = R::UpgradableGuard>,
    U,
    F: FnOnce(&mut T) -> U,
>(
    inner: &mut Inner<R::UpgradableGuard, L::Shown>,
    lock: &L,
    rwlock: &RwLock<R, T>,
    shown: L::Shown,
    upgraded: Upgraded<R>,
    f: F,
) -> Option<U>
where
    F: Drop,
    requires callable { F.IsAlwaysCallable f }
    requires emptied { is_filled inner.old ≡ false }
    requires own { IfOk upgraded (λ token. R.owns_exclusive rwlock.now.raw token ≡ true) }
    requires same { IfErr upgraded (λ token. R.owns_upgradable rwlock.now.raw token ≡ true) }
    requires one_lock { (token : R.UpgradableGuard) → R.owns_upgradable rwlock.now.raw token ≡ true
        → L.is_own lock.now token ≡ true }
    ensures filled { is_filled inner.new ≡ true }
    ensures own { owns (L.is_own lock.now) inner.new ≡ true }
    ensures called { is_some result ≡ is_ok upgraded }
    ensures answer { IfSome result (AnswersSomeValue F.FnOnce f) }
    ensures refused { IfErr upgraded (λ token. inner.new ≡ Filled token shown) }
{
    match upgraded {
        Ok(token) => {
            drop(shown);
            let answer = write_with(rwlock, f);
            let token = rwlock.raw.downgrade_to_upgradable(token);
            inner.settle(lock, Ok((token, answer)))
        }
        Err(token) => inner.settle(lock, Err(Inner::Filled(token, shown))),
    }
}
