//! The rule of a mutex, and how a user's view changes.
ghost use Rattle.std.specs.Prelude.{List};

use atomic_table::TableRule;
use std::marker::PhantomData;

/// The rule: what holds of the value and of the views of all users whenever the mutex is free. While a guard is held,
/// the rule holds of the value as it was acquired.
pub trait MutexRule<T, V> {
    ghost rule: { T → List V → Type 0 };

    /// The view of the first user, for the first value.
    ghost first: { T → V };
}

/// What a user knows after a release: a function of the value as it was acquired, the user's view, and the value that
/// is released.
pub trait ViewUpdate<T, V> {
    ghost next: { T → V → T → V };
}

/// How far a user has come in a call, and whether it holds a guard. It exists in contracts only.
pub enum UserStage<T> {
    /// The user holds no guard and makes no call.
    Free,
    /// The user is making the mutex, with this value.
    Opens(T),
    /// The user holds a guard, which acquired this value.
    Holds(T),
    /// The user is blocked. It loaded this epoch, and has yet to mark the mutex as awaited.
    Watches(u64),
    /// The user is blocked. It loaded this epoch, then marked the mutex as awaited, and sleeps until the epoch ends.
    Sleeps(u64),
    /// The user released the mutex, which was awaited, and has yet to load the epoch.
    Owes,
    /// The user released the mutex, which was awaited, and has yet to end this epoch.
    OwesAt(u64),
}

/// What the mutex keeps of a user. It exists in contracts only.
pub struct UserView<T, V> {
    /// The user's parts of the mutex. A user that was joined to another has none.
    pub parts: u64,
    pub own: V,
    pub stage: UserStage<T>,
}

/// The rule of the word, the epoch, the slot and all views, derived from the rule of the mutex.
pub struct SlotRule<P> {
    rule: PhantomData<P>,
}

impl<T, V, P: MutexRule<T, V>> TableRule<Option<T>, UserView<T, V>, T> for SlotRule<P> {
    ghost use Rattle.lock_ruled.specs.Slots.{IsRuled, opener};

    ghost holds = { λ value. IsRuled P.rule };

    ghost first = { λ value. opener value (P.first value) };
}
