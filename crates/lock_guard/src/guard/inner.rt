//! The inner part of a guard.
ghost use Rattle.std.specs.Prelude.{◌≡◌, Bool, true, false, Some, IfNone, IfSome, IfOk, IfErr, is_ok, is_some};
ghost use Rattle.std.specs.Borrow.{Lends, sem};
ghost use Rattle.lock_guard.specs.Inner.{is_filled, owns, inner_value, inner_with_value};
ghost use Rattle.lock_guard.specs.declared.guard.inner.Inner.TheVariants.{Filled};
ghost use Rattle.lock_guard.specs.contracts.guard.inner.Inner.{the_row};

use crate::guard::{Acquire, ValueGuard, ValueGuardMut};
use std::mem;

/// A token with the guard of the value, or neither. It cannot be dropped: whoever empties it releases the token.
pub enum Inner<K, V> {
    Filled(K, V),
    Empty,
}

impl<K, V> Inner<K, V> {
    /// Fills an empty inner part.
    pub fn fill(&mut self, token: K, shown: V)
        requires { is_filled self.old ≡ false }
        ensures { self.new ≡ Filled token shown }
    {
        self.put(Inner::Filled(token, shown));
    }

    /// Puts an inner part in the place of an empty one.
    pub fn put(&mut self, inner: Inner<K, V>)
        requires { is_filled self.old ≡ false }
        ensures { self.new ≡ inner }
    {
        match mem::replace(self, inner) {
            Inner::Filled(_token, _shown) => unreachable!(),
            Inner::Empty => {}
        }
    }

    /// Takes the part out, and leaves an empty one.
    pub fn take(&mut self) -> Inner<K, V>
        ensures taken { result ≡ self.old }
        ensures emptied { is_filled self.new ≡ false }
    {
        mem::replace(self, Inner::Empty)
    }

    /// Returns the token and the guard of the value.
    pub fn into_parts(self) -> (K, V)
        requires { is_filled self ≡ true }
        ensures { Filled result.0 result.1 ≡ self }
    {
        match self {
            Inner::Filled(token, shown) => (token, shown),
            Inner::Empty => unreachable!(),
        }
    }
}

impl<K, V: Drop> Inner<K, V> {
    /// Releases the value's lock, empties the part, and returns the token.
    pub fn empty(&mut self) -> K
        requires { is_filled self.old ≡ true }
        ensures emptied { is_filled self.new ≡ false }
        ensures token { (is_own : K → Bool) → owns is_own self.old ≡ true → is_own result ≡ true }
    {
        mem::replace(self, Inner::Empty).into_token()
    }

    /// Releases the value's lock, and returns the token.
    pub fn into_token(self) -> K
        requires { is_filled self ≡ true }
        ensures { (is_own : K → Bool) → owns is_own self ≡ true → is_own result ≡ true }
    {
        match self {
            Inner::Filled(token, shown) => {
                drop(shown);
                token
            }
            Inner::Empty => unreachable!(),
        }
    }
}

impl<K, V: ValueGuard> Inner<K, V> {
    /// Acquires the lock, blocking until it is available, and fills an empty inner part.
    pub fn refill<L: Acquire<Token = K, Shown = V>>(&mut self, lock: &L)
        requires { is_filled self.old ≡ false }
        ensures filled { is_filled self.new ≡ true }
        ensures own { owns (L.is_own lock.now) self.new ≡ true }
    {
        self.fill(lock.acquire(), lock.lock_value());
    }

    /// Fills an empty part with the token of a call that was admitted, or puts back the part of a refused one.
    pub fn settle<L: Acquire<Token = K, Shown = V>, U>(
        &mut self,
        lock: &L,
        made: Result<(K, U), Inner<K, V>>,
    ) -> Option<U>
        requires emptied { is_filled self.old ≡ false }
        requires filled { IfErr made (λ same. is_filled same ≡ true) }
        requires own { IfOk made (λ done. L.is_own lock.now done.0 ≡ true) }
        requires still_own { IfErr made (λ same. owns (L.is_own lock.now) same ≡ true) }
        ensures filled { is_filled self.new ≡ true }
        ensures own { owns (L.is_own lock.now) self.new ≡ true }
        ensures made { is_some result ≡ is_ok made }
        ensures answer { IfOk made (λ done. result ≡ Some done.1) }
        ensures refused { IfErr made (λ same. self.new ≡ same) }
    {
        match made {
            Ok((token, answer)) => {
                self.fill(token, lock.lock_value());
                Some(answer)
            }
            Err(same) => {
                self.put(same);
                None
            }
        }
    }

    pub fn value(&self) -> &V::Value
        requires { is_filled self.now ≡ true }
        ensures { inner_value V.value_of self.now ≡ Some result.now }
    {
        match self {
            Inner::Filled(_, shown) => shown.value(),
            Inner::Empty => unreachable!(),
        }
    }
}

impl<K, V: ValueGuardMut> Inner<K, V> {
    pub fn value_mut(&mut self) -> &mut V::Value
        requires { is_filled self.old ≡ true }
        ensures* writes_back { sem 𝓛 (Lends (the_row K.row V.row) V.Value.row self.entry result
            (inner_with_value V.with_value self.old)) }
        ensures value { inner_value V.value_of self.old ≡ Some result.now }
    {
        match self {
            Inner::Filled(_, shown) => shown.value_mut(),
            Inner::Empty => unreachable!(),
        }
    }
}
