//! A registered wait that keeps a token.
ghost use Rattle.std.specs.Prelude.{◌≡◌};

use crate::sleepers::event_count::Registered;
use std::marker::Model;

/// A registered wait that keeps a held lock. Since `register_with` took it, the lock is released after the registration: a
/// notification that follows the release ends the sleep.
///
/// Only the calls of an `EventCount` make one, and no clause can: what contracts see has a private field.
pub(crate) struct Registration<T> {
    registered: Registered,
    token: T,
}

impl<T> Model for Registration<T> {
    ghost use Rattle.lock_wake.specs.EventSeals.{Keeper, keeper, keeper_code};

    ghost Value = { Keeper T };

    ghost coded = { keeper_code T.code };

    ghost view = { λ r. keeper r.registered.events r.registered.number r.token };
}

impl<T> Registration<T> {
    pub(crate) fn new(registered: Registered, token: T) -> Registration<T>
        ensures wait { (result.events ≡ registered.events) × (result.number ≡ registered.number) }
        ensures token { result.token ≡ token }
    {
        Registration { registered, token }
    }

    /// Returns the wait and the token, to release the lock before the sleep.
    pub(crate) fn released(self) -> (Registered, T)
        ensures wait { (result.0.events ≡ self.events) × (result.0.number ≡ self.number) }
        ensures token { result.1 ≡ self.token }
    {
        let Registration { registered, token } = self;
        (registered, token)
    }
}
