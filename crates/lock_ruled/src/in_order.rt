//! The rule of a queue: what was popped is a beginning of what was pushed.
use crate::ready::ReadyRule;
use crate::rule::{MutexRule, ViewUpdate};
use atomic_table::{Join, Split};
use std::collections::LinkedList;
use std::marker::PhantomData;

/// The items of a value, the oldest first.
pub trait Items<T, X> {
    ghost use Rattle.std.specs.Prelude.{List};

    ghost items: { T → List X };
}

/// What a user may do at the ends of a queue, and what it did there. It exists in contracts only.
pub struct Log<X> {
    /// 1 for the one user that pushes, and 0 for the others.
    pub pushes: u64,
    /// 1 for the one user that pops, and 0 for the others.
    pub pops: u64,
    pub pushed: LinkedList<X>,
    pub popped: LinkedList<X>,
}

/// The rule: the items that were popped, followed by those in the value, are the items that were pushed. One user
/// pushes, and one pops. The first user does both.
pub struct InOrder<M> {
    items: PhantomData<M>,
}

impl<T, X, M: Items<T, X>> MutexRule<T, Log<X>> for InOrder<M> {
    ghost use Rattle.std.specs.Prelude.{[]};
    ghost use Rattle.lock_ruled.specs.InOrder.{IsInOrder, both_ends};

    ghost rule = { λ value logs. IsInOrder (M.items value) logs };

    ghost first = { λ value. both_ends (M.items value) [] };
}

impl<T, X, M: Items<T, X>> ReadyRule<T, Log<X>> for InOrder<M> {
    ghost use Rattle.lock_ruled.specs.InOrder.{Passes, IsDivided, IsUnited, EndsWith, IsWhole};
    ghost use Rattle.lock_ruled.specs.InOrders.{passes_keep, divisions_keep, unions_keep, met_items, last_items};

    ghost updates = { λ value log value' log'. Passes (M.items value) log (M.items value') log' };

    ghost splits = { IsDivided };

    ghost joins = { IsUnited };

    ghost knows = { λ value log. EndsWith (M.items value) log };

    ghost ends = { λ value log. IsWhole (M.items value) log };

    ghost update_keeps = { passes_keep M.items };

    ghost split_keeps = { divisions_keep M.items };

    ghost join_keeps = { unions_keep M.items };

    ghost met_is_known = { met_items M.items };

    ghost last_is_known = { last_items M.items };
}

/// The user pushed what follows the items that it found.
pub struct Pushes<M> {
    items: PhantomData<M>,
}

impl<T, X, M: Items<T, X>> ViewUpdate<T, Log<X>> for Pushes<M> {
    ghost use Rattle.std.specs.Prelude.{◌++◌, drop, length};

    ghost next = { λ taken log value.
        record log { pushed = log.pushed ++ drop (length (M.items taken)) (M.items value) } };
}

/// The user popped the first of the items that it found.
pub struct Pops<M> {
    items: PhantomData<M>,
}

impl<T, X, M: Items<T, X>> ViewUpdate<T, Log<X>> for Pops<M> {
    ghost use Rattle.std.specs.Prelude.{◌++◌, take};

    ghost next = { λ taken log value. record log { popped = log.popped ++ take 1 (M.items taken) } };
}

/// The user neither pushed nor popped.
pub struct Looks;

impl<T, X> ViewUpdate<T, Log<X>> for Looks {
    ghost next = { λ taken log value. log };
}

/// Of two users, the first keeps the end where it pushes, and the second gets the end where it pops. A join gives both
/// ends to one user.
pub struct Roles;

impl<X> Split<Log<X>> for Roles {
    ghost use Rattle.std.specs.Prelude.{[]};

    ghost left = { λ log. record log { pops = 0; popped = [] } };

    ghost right = { λ log. record log { pushes = 0; pushed = [] } };
}

impl<X> Join<Log<X>> for Roles {
    ghost use Rattle.std.specs.Prelude.{[]};
    ghost use Rattle.lock_ruled.specs.InOrder.{united};

    ghost both = { united };

    ghost spent = { record { pushes = 0; pops = 0; pushed = []; popped = [] } };
}
