//! The mutex under a rule.
ghost use Rattle.std.specs.Prelude.{◌≡◌, ◌-◌, ◌+◌, ◌<◌, [], ◌∷◌, IfOk, IfErr};
ghost use Rattle.lock_modes.specs.declared.fault.Fault.TheVariants as fault;
ghost use Rattle.lock_ruled.specs.Ruled.{all_parts, first_user, Splits, Joins};

mod found_held;
mod steps;

use crate::guard::RuledGuard;
use crate::plays::{JoinParts, Open, SplitParts, Stay};
use crate::released::Changed;
use crate::rule::{MutexRule, SlotRule, UserView};
use crate::user::User;
use atomic_table::{Join, Split, Table};
use lock_modes::Fault;
use std::alloc::Global;
use std::marker::Model;

/// The word: `FREE`, `TAKEN` or `AWAITED`.
const WORD: usize = 0;

/// The epoch, which counts the releases of an awaited mutex.
const EPOCH: usize = 1;

/// The mutex is free.
const FREE: u64 = 0;

/// The mutex is held.
const TAKEN: u64 = 1;

/// The mutex is held, and a user may sleep until it is released.
const AWAITED: u64 = 2;

/// The epoch at which no user sleeps. It is never reached: each epoch takes a release.
const LAST_EPOCH: u64 = u64::MAX;

/// A mutex under a rule: a word, an epoch, and one slot for the value. `lock` exchanges the value out of the slot, and
/// `unlock` exchanges it back in.
///
/// Blocked users sleep until an epoch ends, and no wake-up of theirs is lost: see `every_state_forgets_no_user`. That law
/// does not speak of users that wait for a condition (`lock_when`). Only this module and the one below it reach the table.
#[derive(Drop)]
pub struct RuledMutex<T: Drop, V, P: MutexRule<T, V>> {
    table: Table<Option<T>, UserView<T, V>, T, SlotRule<P>, Global>,
    /// The users that sleep until the value has changed.
    pub(crate) changed: Changed,
}

impl<T: Drop, V, P: MutexRule<T, V>> Model for RuledMutex<T, V, P> {
    ghost use Rattle.std.specs.Prelude.{◌≡◌};
    ghost use Rattle.atomic_table.specs.Seated.{TableId};

    ghost Value = { TableId };

    ghost view = { λ m. m.table.shared.table_id };

    ghost invariant = { λ m. (m.table.shared.table_id.words ≡ 2) × (m.table.shared.table_id.slots ≡ 1) };
}

impl<T: Drop, V, P: MutexRule<T, V>> RuledMutex<T, V, P> {
    /// Makes an unlocked mutex of this value, and its only user. No other call allocates.
    pub fn new(alloc: Global, value: T) -> Result<(RuledMutex<T, V, P>, User<T, V>), Fault>
        requires { P.rule value (P.first value ∷ []) }
        ensures user { IfOk result (λ made. made.1 ≡ first_user made.0 (P.first value)) }
        ensures fault { IfErr result (λ error. error ≡ fault.OutOfMemory) }
    {
        let changed = Changed::new(alloc)?;
        let Ok((table, mut seat)) = Table::vacant(alloc, &[TAKEN, 0], 1, &value) else {
            return Err(Fault::OutOfMemory);
        };
        table.shared.load::<Open>(&mut seat, WORD);
        let mutex = RuledMutex { table, changed };
        let user = mutex.unlock::<Stay>(RuledGuard { value, seat });
        Ok((mutex, user))
    }

    /// Makes a second user, for another thread. It gets one part of the mutex, and the first keeps the others.
    pub fn split<M: Split<V>>(&self, user: User<T, V>) -> (User<T, V>, User<T, V>)
        requires mutex { user.mutex ≡ self.now }
        requires parts { 1 < user.parts }
        requires rule { Splits P.rule user.view (M.left user.view) (M.right user.view) }
        ensures first { result.0 ≡ record user { parts = user.parts - 1; view = M.left user.view } }
        ensures second { result.1 ≡ record { mutex = self.now; parts = 1; view = M.right user.view } }
    {
        let mut seat = user.seat;
        let other = self.table.shared.split_seat::<SplitParts<M>>(&mut seat);
        (User { seat }, User { seat: other })
    }

    /// Joins two users to one with the parts of both. The rule no longer has a view of the other.
    pub fn join<M: Join<V>>(&self, user: User<T, V>, other: User<T, V>) -> User<T, V>
        requires mutex { (user.mutex ≡ self.now) × (other.mutex ≡ self.now) }
        requires rule { Joins P.rule user.view other.view (M.both user.view other.view) }
        ensures { result ≡ record user { parts = user.parts + other.parts; view = M.both user.view other.view } }
    {
        let mut seat = user.seat;
        self.table
            .shared
            .join_seat::<JoinParts<M>>(&mut seat, other.seat);
        User { seat }
    }

    /// Consumes the mutex and its only user, and returns the value, of which the rule holds with that user's view.
    pub fn into_inner(self, user: User<T, V>) -> T
        requires mutex { user.mutex ≡ self }
        requires alone { user.parts ≡ all_parts }
        ensures { P.rule result (user.view ∷ []) }
    {
        let RuledMutex { table, changed: _ } = self;
        let mut closed = table.close_with(user.seat);
        let slot = closed.take(0);
        closed.free();
        match slot {
            Some(value) => value,
            None => unreachable!(),
        }
    }
}
