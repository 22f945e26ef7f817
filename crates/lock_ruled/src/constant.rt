//! The rule of a value whose measure never changes.
use crate::ledger::Measure;
use crate::ready::ReadyRule;
use crate::rule::{MutexRule, ViewUpdate};
use atomic_table::{Join, Split};
use std::marker::PhantomData;

/// The rule: the measure of the value stays. A user's view is that measure.
pub struct Constant<M> {
    measure: PhantomData<M>,
}

impl<T, M: Measure<T>> MutexRule<T, u64> for Constant<M> {
    ghost use Rattle.lock_ruled.specs.Bounds.{AllKnow};

    ghost rule = { AllKnow M.measure };

    ghost first = { M.measure };
}

impl<T, M: Measure<T>> ReadyRule<T, u64> for Constant<M> {
    ghost use Rattle.std.specs.Prelude.{◌≡◌};
    ghost use Rattle.lock_ruled.specs.Bounds.{same_keeps, copies_keep, either_keeps, met_known, last_known};

    ghost updates = { λ value view value' view'. (M.measure value' ≡ M.measure value) × (view' ≡ view) };

    ghost splits = { λ view left right. (left ≡ view) × (right ≡ view) };

    ghost joins = { λ view other both. both ≡ view };

    ghost knows = { λ value view. view ≡ M.measure value };

    ghost ends = { λ value view. view ≡ M.measure value };

    ghost update_keeps = { same_keeps M.measure };

    ghost split_keeps = { copies_keep M.measure };

    ghost join_keeps = { either_keeps M.measure };

    ghost met_is_known = { met_known M.measure };

    ghost last_is_known = { last_known M.measure };
}

/// The view stays, and both users of a split have it.
pub struct SameView;

impl<T> ViewUpdate<T, u64> for SameView {
    ghost next = { λ taken view value. view };
}

impl Split<u64> for SameView {
    ghost left = { λ view. view };

    ghost right = { λ view. view };
}

impl Join<u64> for SameView {
    ghost both = { λ view other. view };

    ghost spent = { 0 };
}
