//! Which waits may hold up which.
ghost use Rattle.std.specs.Prelude.{◌≡◌, ◌+◌, ◌&&◌, map, nat_lt, not, option_map, true, false, []};
ghost use Rattle.std.proofs.Common.{get_or};
ghost use Rattle.std.specs.Option.{unwrap_or};
ghost use Rattle.lock_modes.specs.Holds.{no_hold};
ghost use Rattle.lock_modes.specs.Modes.{admits, readers, tokens};
ghost use Rattle.lock_plan.specs.Worlds.{no_lock};
ghost use Rattle.lock_plan_laws.specs.WaitRanks.{excludes, is_sole, may_hold_up};
ghost use Rattle.lock_plan_order.specs.LockOrders.{held_in};
ghost use Rattle.lock_plan_order.specs.WaitChecks.{are_together, are_two, holds_at, is_same, known_in, may_be_held_up, meet_from};

use crate::lookups::{bag_of, holds_at, is_held, lock_at};
use crate::wait_place::WaitPlace;
use lock_modes::{Bag, Mode};
use lock_plan::{Holds, PlanLock};

/// Locks, and what a party with each program holds at each place.
#[derive(Clone, Copy)]
pub(crate) struct Setting<'a> {
    pub(crate) locks: &'a [PlanLock],
    /// For each lock whether it may refuse any mode next to any hold: by a line, a bar, or the number of its readers.
    pub(crate) strict: &'a [bool],
    /// For each program whether any number of parties run it.
    pub(crate) many: &'a [bool],
    pub(crate) known: &'a [Vec<Option<Holds>>],
}

impl Setting<'_> {
    /// Returns whether a party at the wait `y` may hold up one at `x`: both can be there at one time, and `y` holds what may
    /// refuse `x`.
    pub(crate) fn may_be_held_up(self, x: WaitPlace, y: WaitPlace) -> bool
        ensures { result ≡ may_be_held_up self.entry x y }
    {
        let bag = bag_of(holds_at(self.known, y.program, y.place), x.lock);
        let limit = lock_at(self.locks, x.lock).limit;
        may_hold_up(is_strict(self.strict, x.lock), limit, x.mode, bag) && self.are_together(x, y)
    }

    /// Returns whether both waits can be at one time: of two parties, or of one that does not own a reentrant lock.
    fn are_together(self, x: WaitPlace, y: WaitPlace) -> bool
        ensures { result ≡ are_together self.entry x y }
    {
        let can_be_two = are_two(self.many, x, y)
            && meet_from(
                self.locks,
                holds_at(self.known, x.program, x.place),
                holds_at(self.known, y.program, y.place),
            );
        can_be_two || (is_same(x, y) && !lock_at(self.locks, x.lock).kind.is_reentrant())
    }
}

/// Returns whether two parties can be at the waits, as far as their programs say.
fn are_two(many: &[bool], x: WaitPlace, y: WaitPlace) -> bool
    ensures { result ≡ are_two many.now x y }
{
    x.program != y.program || many.get(x.program).copied().unwrap_or(false)
}

fn is_same(x: WaitPlace, y: WaitPlace) -> bool
    ensures { result ≡ is_same x y }
{
    x.program == y.program && x.place == y.place
}

fn is_strict(strict: &[bool], lock: usize) -> bool
    ensures { result ≡ get_or strict.now lock true }
{
    strict.get(lock).copied().unwrap_or(true)
}

/// Returns whether no lock is a gate that keeps two parties with these holds apart.
fn meet_from(locks: &[PlanLock], hs: Option<&Holds>, ks: Option<&Holds>) -> bool
    ensures { result ≡ meet_from locks.now 0 (unwrap_or (option_map (λ h. h.now) hs.entry) []) (unwrap_or (option_map (λ h. h.now) ks.entry) []) }
{
    let mut number = 0usize;
    for lock in locks {
        if excludes(*lock, bag_of(hs, number), bag_of(ks, number)) {
            return false;
        }
        number += 1;
    }
    true
}

/// Returns whether two parties cannot hold these of one lock at one time.
fn excludes(lock: PlanLock, a: Bag, b: Bag) -> bool
    ensures { result ≡ excludes lock a b }
{
    let is_one_sole = is_sole(lock, a) || is_sole(lock, b);
    (is_one_sole && (is_held(a) && is_held(b))) || (a.upgradable > 0 && b.upgradable > 0)
}

/// Returns whether a party that holds this of a lock holds it alone.
fn is_sole(lock: PlanLock, bag: Bag) -> bool
    ensures { result ≡ is_sole lock bag }
{
    lock.kind.is_reentrant() || bag.exclusive > 0
}

/// Returns whether a party that holds this of a lock may hold up an acquisition in the mode.
fn may_hold_up(is_strict: bool, limit: u64, mode: Mode, bag: Bag) -> bool
    ensures { result ≡ may_hold_up is_strict limit mode bag }
{
    is_held(bag) && (is_strict || !admits(limit, bag, mode))
}

/// Returns whether the mode is admitted next to what is held. Unlike [`Bag::admits`] it takes any bag.
fn admits(limit: u64, bag: Bag, mode: Mode) -> bool
    ensures { result ≡ admits limit bag mode }
{
    match mode {
        Mode::Shared => bag.exclusive == 0 && reads_below(bag, limit),
        Mode::Exclusive => !is_held(bag),
        Mode::Upgradable => bag.exclusive == 0 && (bag.upgradable == 0 && reads_below(bag, limit)),
    }
}

fn reads_below(bag: Bag, limit: u64) -> bool
    ensures { result ≡ nat_lt (readers bag) limit }
{
    bag.shared < limit && bag.upgradable < limit - bag.shared
}
