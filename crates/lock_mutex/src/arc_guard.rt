//! The mutex guard that owns a reference to its mutex.
ghost use Rattle.std.specs.Prelude.{◌≡◌, true, IfSome, Some};
ghost use Rattle.std.specs.Arc.{arc_value};
ghost use Rattle.lock_guard.specs.Closure.{ReadsSomeValue, AnswersSomeValue};
ghost use Rattle.lock_guard.specs.Held.{held_token};
ghost use Rattle.lock_mutex.specs.ArcMutexGuard.{arc_of, tried_arc_token};

use crate::Mutex;
use crate::owned::OwnedMutex;
use lock_guard::guard::{Acquire, AcquireFair, Held, Release};
use lock_traits::{RawMutex, RawMutexFair};
use std::sync::Arc;

/// A guard that owns a reference to its mutex, so it may outlive every borrow of it. It releases the mutex on drop.
///
/// It lends the value to closures, and locks the value's lock for the length of each call.
#[derive(Drop)]
pub struct ArcGuard<L: Acquire> {
    held: Held<L>,
}

/// The guard that owns a reference to its mutex.
pub type ArcMutexGuard<R, T> = ArcGuard<OwnedMutex<R, T>>;

impl<R: RawMutex + Drop, T: Drop> ArcGuard<OwnedMutex<R, T>> {
    pub(crate) fn new(mutex: Arc<Mutex<R, T>>, token: R::Guard) -> ArcMutexGuard<R, T>
        requires { R.is_own (arc_value mutex).raw token ≡ true }
        ensures lock { arc_of result ≡ mutex }
        ensures token { held_token result.held ≡ Some token }
    {
        ArcGuard {
            held: Held::new(OwnedMutex { mutex }, token),
        }
    }

    /// Makes the guard of the token, if the raw lock gave one.
    pub(crate) fn of_token(mutex: Arc<Mutex<R, T>>, token: Option<R::Guard>) -> Option<Self>
        requires { IfSome token (λ t. R.is_own (arc_value mutex).raw t ≡ true) }
        ensures lock { IfSome result (λ guard. arc_of guard ≡ mutex) }
        ensures token { tried_arc_token result ≡ token }
    {
        Some(ArcGuard::new(mutex, token?))
    }

    /// Returns the mutex of the guard.
    pub fn mutex(guard: &ArcMutexGuard<R, T>) -> &Arc<Mutex<R, T>>
        ensures { result.now ≡ arc_of guard.now }
    {
        &guard.held.lock.mutex
    }

    /// Releases the mutex, and returns the guard's reference to it.
    pub fn into_arc(guard: ArcMutexGuard<R, T>) -> Arc<Mutex<R, T>>
        ensures { result ≡ arc_of guard }
    {
        let (lock, token) = guard.held.into_token();
        lock.release(token);
        lock.mutex
    }

    /// Runs `f` on the value, holding the value's lock for the length of the call.
    pub fn with<U, F: FnOnce(&T) -> U>(guard: &ArcMutexGuard<R, T>, f: F) -> U
        requires { F.IsAlwaysCallable f }
        ensures { ReadsSomeValue F.FnOnce f result }
    {
        guard.held.lock.mutex.with_value(f)
    }

    /// Runs `f` on the value, which it may change, holding the value's lock for the length of the call.
    pub fn with_mut<U, F: FnOnce(&mut T) -> U>(guard: &mut ArcMutexGuard<R, T>, f: F) -> U
        requires { F.IsAlwaysCallable f }
        ensures answer { AnswersSomeValue F.FnOnce f result }
        ensures lock { arc_of guard.new ≡ arc_of guard.old }
    {
        guard.held.lock.mutex.with_value_mut(f)
    }

    /// Releases the mutex, runs `f`, and reacquires the mutex, blocking until it is available.
    pub fn unlocked<U, F: FnOnce() -> U>(guard: &mut ArcMutexGuard<R, T>, f: F) -> U
        requires { F.IsAlwaysCallable f }
        ensures answer { F.post f result }
        ensures lock { arc_of guard.new ≡ arc_of guard.old }
    {
        guard.held.unlocked(f)
    }
}

impl<R: RawMutexFair + Drop, T: Drop> ArcGuard<OwnedMutex<R, T>> {
    /// Releases the mutex by a fair release.
    pub fn unlock_fair(guard: ArcMutexGuard<R, T>) {
        guard.held.unlock_fair();
    }

    /// `into_arc`, by a fair release.
    pub fn into_arc_fair(guard: ArcMutexGuard<R, T>) -> Arc<Mutex<R, T>>
        ensures { result ≡ arc_of guard }
    {
        let (lock, token) = guard.held.into_token();
        lock.release_fair(token);
        lock.mutex
    }

    /// `unlocked`, by a fair release.
    pub fn unlocked_fair<U, F: FnOnce() -> U>(guard: &mut ArcMutexGuard<R, T>, f: F) -> U
        requires { F.IsAlwaysCallable f }
        ensures answer { F.post f result }
        ensures lock { arc_of guard.new ≡ arc_of guard.old }
    {
        guard.held.unlocked_fair(f)
    }

    /// Releases the mutex by a fair release, and reacquires it, blocking until it is available.
    pub fn bump(guard: &mut ArcMutexGuard<R, T>)
        ensures { arc_of guard.new ≡ arc_of guard.old }
    {
        guard.held.bump();
    }
}
