//! The kinds of step on the word and the epoch, and what each tells the user that makes it.
ghost use Rattle.lock_ruled.specs.Plays.{AcquiresValue, MarksAwaited, ReleasesValue, OpensMutex, WatchesEpoch, Leaves, NotesEpoch};
ghost use Rattle.lock_ruled.specs.Slots.{one_fewer, one_part, both_of, spent_view};

use crate::rule::{MutexRule, UserView, ViewUpdate};
use atomic_table::{Join, Play, Split};
use std::marker::PhantomData;

/// A step that acquires the value if it is free.
pub(crate) struct TryLock<P> {
    rule: PhantomData<P>,
}

impl<T, V, P: MutexRule<T, V>> Play<Option<T>, UserView<T, V>> for TryLock<P> {
    ghost then = { λ s. AcquiresValue P.rule };
}

/// A step of a blocked user that marks the mutex as awaited, and acquires the value if it is free.
pub(crate) struct MarkAwaited<P> {
    rule: PhantomData<P>,
}

impl<T, V, P: MutexRule<T, V>> Play<Option<T>, UserView<T, V>> for MarkAwaited<P> {
    ghost then = { λ s. MarksAwaited P.rule };
}

/// The step that releases the value.
pub(crate) struct Unlock<M> {
    turn: PhantomData<M>,
}

impl<T, V, M: ViewUpdate<T, V>> Play<Option<T>, UserView<T, V>> for Unlock<M> {
    ghost then = { λ s. ReleasesValue M.next };
}

/// The step that takes the empty slot while the mutex is made.
pub(crate) struct Open;

impl<T, V> Play<Option<T>, UserView<T, V>> for Open {
    ghost then = { λ s. OpensMutex };
}

/// A load of the epoch by a user that is to be blocked.
pub(crate) struct WatchMutexEpoch;

impl<T, V> Play<Option<T>, UserView<T, V>> for WatchMutexEpoch {
    ghost then = { λ s. WatchesEpoch };
}

/// A load of the epoch by a user that slept.
pub(crate) struct Leave;

impl<T, V> Play<Option<T>, UserView<T, V>> for Leave {
    ghost then = { λ s. Leaves };
}

/// A load of the epoch by a due user.
pub(crate) struct NoteMutexEpoch;

impl<T, V> Play<Option<T>, UserView<T, V>> for NoteMutexEpoch {
    ghost then = { λ s. NotesEpoch };
}

/// The view stays.
pub(crate) struct Stay;

impl<T, V> ViewUpdate<T, V> for Stay {
    ghost next = { λ taken view value. view };
}

/// A split of a user: the second gets one part.
pub(crate) struct SplitParts<M> {
    split: PhantomData<M>,
}

impl<T, V, M: Split<V>> Split<UserView<T, V>> for SplitParts<M> {
    ghost left = { one_fewer M.left };

    ghost right = { one_part M.right };
}

/// A join of two users, with the parts of both.
pub(crate) struct JoinParts<M> {
    join: PhantomData<M>,
}

impl<T, V, M: Join<V>> Join<UserView<T, V>> for JoinParts<M> {
    ghost both = { both_of M.both };

    ghost spent = { spent_view M.spent };
}
