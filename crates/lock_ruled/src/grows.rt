//! The rule of a value whose measure never shrinks.
use crate::ledger::Measure;
use crate::ready::ReadyRule;
use crate::rule::{MutexRule, ViewUpdate};
use atomic_table::{Join, Split};
use std::marker::PhantomData;

/// The rule: the measure of the value only grows. A user's view is a lower bound of it.
pub struct Grows<M> {
    measure: PhantomData<M>,
}

impl<T, M: Measure<T>> MutexRule<T, u64> for Grows<M> {
    ghost use Rattle.lock_ruled.specs.Bounds.{AllBound};

    ghost rule = { AllBound M.measure };

    ghost first = { M.measure };
}

impl<T, M: Measure<T>> ReadyRule<T, u64> for Grows<M> {
    ghost use Rattle.std.specs.Prelude.{◌≤◌, max};
    ghost use Rattle.lock_ruled.specs.Bounds.{growth_keeps, bounds_keep, greater_keeps, met_bound, last_bound};

    ghost updates = { λ value view value' view'. (M.measure value ≤ M.measure value') × (view' ≤ M.measure value') };

    ghost splits = { λ view left right. (left ≤ view) × (right ≤ view) };

    ghost joins = { λ view other both. both ≤ max view other };

    ghost knows = { λ value view. view ≤ M.measure value };

    ghost ends = { λ value view. view ≤ M.measure value };

    ghost update_keeps = { growth_keeps M.measure };

    ghost split_keeps = { bounds_keep M.measure };

    ghost join_keeps = { greater_keeps M.measure };

    ghost met_is_known = { met_bound M.measure };

    ghost last_is_known = { last_bound M.measure };
}

/// A user knows the value that it released last. Of two joined users, the one knows the greater bound.
pub struct Bound<M> {
    measure: PhantomData<M>,
}

impl<T, M: Measure<T>> ViewUpdate<T, u64> for Bound<M> {
    ghost next = { λ taken view value. M.measure value };
}

impl<M> Split<u64> for Bound<M> {
    ghost left = { λ view. view };

    ghost right = { λ view. view };
}

impl<M> Join<u64> for Bound<M> {
    ghost use Rattle.std.specs.Prelude.{max};

    ghost both = { max };

    ghost spent = { 0 };
}
