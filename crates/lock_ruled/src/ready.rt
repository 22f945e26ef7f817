//! Rules whose obligations name one user and one value, so that a caller needs no lemma about lists of views.
ghost use Rattle.std.specs.Prelude.{◌≡◌, ◌-◌, ◌+◌, ◌<◌};
ghost use Rattle.lock_ruled.specs.Ruled.{all_parts, Meets};
ghost use Rattle.lock_ruled.specs.With.{KeepsWith, RanWith};

use crate::guard::RuledGuard;
use crate::mutex::RuledMutex;
use crate::rule::{MutexRule, ViewUpdate};
use crate::user::User;
use atomic_table::{Join, Split};
use std::sync::Wait;

/// A rule that says when a step of one user keeps it. Its laws prove that such a step keeps the rule whatever the views
/// of the other users are.
pub trait ReadyRule<T, V>: MutexRule<T, V> {
    ghost use Rattle.std.specs.Prelude.{[], ◌∷◌};
    ghost use Rattle.lock_ruled.specs.Ruled.{Meets, Keeps, Splits, Joins};

    /// A user may change the first value and its first view into the second ones.
    ghost updates: { T → V → T → V → Type 0 };

    /// A user may split the first view into the other two.
    ghost splits: { V → V → V → Type 0 };

    /// Two users may join the first two views into the third.
    ghost joins: { V → V → V → Type 0 };

    /// What a user with this view knows of a value that it acquired.
    ghost knows: { T → V → Type 0 };

    /// What the only user with this view knows of the last value.
    ghost ends: { T → V → Type 0 };

    ghost update_keeps: { (value : T) (view : V) (value' : T) (view' : V) → updates value view value' view'
        → Keeps Self.rule value view value' view' };

    ghost split_keeps: { (view left right : V) → splits view left right → Splits Self.rule view left right };

    ghost join_keeps: { (view other both : V) → joins view other both → Joins Self.rule view other both };

    ghost met_is_known: { (value : T) (view : V) → Meets Self.rule value view → knows value view };

    ghost last_is_known: { (value : T) (view : V) → Self.rule value (view ∷ []) → ends value view };
}

impl<T: Drop, V, P: ReadyRule<T, V>> RuledMutex<T, V, P> {
    /// Releases the mutex as `unlock` does. The caller proves `P.updates` in place of `Keeps`.
    pub fn unlock_ready<M: ViewUpdate<T, V>>(&self, guard: RuledGuard<T, V>) -> User<T, V>
        requires mutex { guard.user.mutex ≡ self.now }
        requires update { P.updates guard.taken guard.user.view guard.value
            (M.next guard.taken guard.user.view guard.value) }
        ensures { result ≡ record guard.user { view = M.next guard.taken guard.user.view guard.value } }
    {
        self.unlock::<M>(guard)
    }

    /// Runs `f` on the value, holding the mutex for the length of the call, and returns the user and what `f` returned. `f`
    /// may return early, by `?` too: the mutex is released in any case.
    ///
    /// # Blocking
    ///
    /// As `lock`. If `f` acquires the same mutex, it blocks for ever.
    pub fn with<M: ViewUpdate<T, V>, R: Wait, U, F: FnOnce(&mut T) -> U>(
        &self,
        rt: &R,
        user: User<T, V>,
        f: F,
    ) -> (User<T, V>, U)
        requires mutex { user.mutex ≡ self.now }
        requires callable { F.IsAlwaysCallable f }
        requires update { KeepsWith P.rule P.updates M.next F.FnOnce f user.view }
        ensures { RanWith P.rule M.next F.FnOnce f user result }
    {
        let mut guard = self.lock(rt, user);
        let answer = f(&mut guard);
        (self.unlock_ready::<M>(guard), answer)
    }

    /// Makes a second user as `split` does. The caller proves `P.splits` in place of `Splits`.
    pub fn split_ready<M: Split<V>>(&self, user: User<T, V>) -> (User<T, V>, User<T, V>)
        requires mutex { user.mutex ≡ self.now }
        requires parts { 1 < user.parts }
        requires split { P.splits user.view (M.left user.view) (M.right user.view) }
        ensures first { result.0 ≡ record user { parts = user.parts - 1; view = M.left user.view } }
        ensures second { result.1 ≡ record { mutex = self.now; parts = 1; view = M.right user.view } }
    {
        self.split::<M>(user)
    }

    /// Joins two users as `join` does. The caller proves `P.joins` in place of `Joins`.
    pub fn join_ready<M: Join<V>>(&self, user: User<T, V>, other: User<T, V>) -> User<T, V>
        requires mutex { (user.mutex ≡ self.now) × (other.mutex ≡ self.now) }
        requires join { P.joins user.view other.view (M.both user.view other.view) }
        ensures { result ≡ record user { parts = user.parts + other.parts; view = M.both user.view other.view } }
    {
        self.join::<M>(user, other)
    }

    /// States what the user knows of the value that it acquired.
    pub fn known(&self, guard: &RuledGuard<T, V>)
        requires { Meets P.rule guard.now.taken guard.now.user.view }
        ensures { P.knows guard.now.taken guard.now.user.view }
    {}

    /// Consumes the mutex and its only user as `into_inner` does, and states what that user knows of the value.
    pub fn into_inner_ready(self, user: User<T, V>) -> T
        requires mutex { user.mutex ≡ self }
        requires alone { user.parts ≡ all_parts }
        ensures { P.ends result user.view }
    {
        self.into_inner(user)
    }
}
