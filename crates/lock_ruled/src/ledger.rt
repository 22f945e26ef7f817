//! A ledger: a rule by which the measure of the value and the shares of all users add up to a fixed total.
use crate::ready::ReadyRule;
use crate::rule::{MutexRule, ViewUpdate};
use atomic_table::{Join, Split};
use std::marker::PhantomData;

/// How much a value has of what a ledger counts.
pub trait Measure<T> {
    ghost use Rattle.std.specs.Prelude.{ℕ};

    ghost measure: { T → ℕ };
}

/// What a user has, and all that there is. It exists in contracts only.
pub struct Share {
    pub own: u64,
    pub all: u64,
}

/// The rule: the measure of the value and what all users have make up all that there is, which each user knows. The
/// first user has nothing.
pub struct Ledger<M> {
    measure: PhantomData<M>,
}

impl<T, M: Measure<T>> MutexRule<T, Share> for Ledger<M> {
    ghost use Rattle.lock_ruled.specs.Ledger.{IsBalanced};

    ghost rule = { λ value shares. IsBalanced (M.measure value) shares };

    ghost first = { λ value. record { own = 0; all = M.measure value } };
}

impl<T, M: Measure<T>> ReadyRule<T, Share> for Ledger<M> {
    ghost use Rattle.std.specs.Prelude.{◌≡◌, ◌+◌, ◌≤◌};
    ghost use Rattle.lock_ruled.specs.Ledger.{Moves, IsShared, IsMerged};
    ghost use Rattle.lock_ruled.specs.Ledgers.{moves_keep, shares_keep, merges_keep, met_share, last_share};

    ghost updates = { λ value share value' share'. Moves (M.measure value) share (M.measure value') share' };

    ghost splits = { IsShared };

    ghost joins = { IsMerged };

    ghost knows = { λ value share. M.measure value + share.own ≤ share.all };

    ghost ends = { λ value share. M.measure value + share.own ≡ share.all };

    ghost update_keeps = { λ value share value' share'. moves_keep (M.measure value) (M.measure value') share share' };

    ghost split_keeps = { shares_keep M.measure };

    ghost join_keeps = { merges_keep M.measure };

    ghost met_is_known = { λ value share. met_share M.measure value share };

    ghost last_is_known = { λ value share. last_share (M.measure value) share };
}

/// A release after which the user has what the value lost, or no longer has what the value gained.
pub struct Settles<M> {
    measure: PhantomData<M>,
}

impl<T, M: Measure<T>> ViewUpdate<T, Share> for Settles<M> {
    ghost use Rattle.std.specs.Prelude.{◌+◌, ◌-◌};

    ghost next = { λ taken share value. record share { own = share.own + M.measure taken - M.measure value } };
}

/// A new user has nothing. Of two joined users, the one has what both had.
pub struct Shares;

impl Split<Share> for Shares {
    ghost left = { λ share. share };

    ghost right = { λ share. record share { own = 0 } };
}

impl Join<Share> for Shares {
    ghost use Rattle.std.specs.Prelude.{◌+◌};

    ghost both = { λ share other. record share { own = share.own + other.own } };

    ghost spent = { record { own = 0; all = 0 } };
}
