//! The rule of a tally: the value is the sum of what users added.
use crate::ledger::Measure;
use crate::ready::ReadyRule;
use crate::rule::{MutexRule, ViewUpdate};
use atomic_table::{Join, Split};
use std::marker::PhantomData;

/// The rule: the measure of the value is the sum of what all users added, modulo 2^64. A user's view is what it added.
pub struct Tally<M> {
    measure: PhantomData<M>,
}

impl<T, M: Measure<T>> MutexRule<T, u64> for Tally<M> {
    ghost use Rattle.std.specs.Prelude.{◌%◌, ◌^◌};
    ghost use Rattle.lock_ruled.specs.Tally.{IsTally};

    ghost rule = { λ value views. IsTally (M.measure value) views };

    ghost first = { λ value. M.measure value };
}

impl<T, M: Measure<T>> ReadyRule<T, u64> for Tally<M> {
    ghost use Rattle.std.specs.Prelude.{◌≡◌, ◌+◌, ◌%◌, ◌^◌, ◌<◌};
    ghost use Rattle.lock_ruled.specs.Tally.{Adds};
    ghost use Rattle.lock_ruled.specs.Tallies.{adds_keep, parts_keep, sums_keep, met_tally, last_tally};

    ghost updates = { λ value view value' view'. Adds (M.measure value) view (M.measure value') view' };

    ghost splits = { λ view left right. left + right ≡ view };

    ghost joins = { λ view other both. both ≡ view + other };

    ghost knows = { λ value view. M.measure value < 2 ^ 64 };

    ghost ends = { λ value view. M.measure value ≡ view % 2 ^ 64 };

    ghost update_keeps = { adds_keep M.measure };

    ghost split_keeps = { parts_keep M.measure };

    ghost join_keeps = { sums_keep M.measure };

    ghost met_is_known = { met_tally M.measure };

    ghost last_is_known = { last_tally M.measure };
}

/// The user added one more.
pub struct AddsOne;

impl<T> ViewUpdate<T, u64> for AddsOne {
    ghost use Rattle.std.specs.Prelude.{◌+◌};

    ghost next = { λ taken view value. view + 1 };
}

/// A new user added nothing. Of two joined users, the one has added what both did.
pub struct Sums;

impl Split<u64> for Sums {
    ghost left = { λ view. view };

    ghost right = { λ view. 0 };
}

impl Join<u64> for Sums {
    ghost use Rattle.std.specs.Prelude.{◌+◌};

    ghost both = { λ view other. view + other };

    ghost spent = { 0 };
}
