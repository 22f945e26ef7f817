//! Whether all programs keep an order of the locks.
ghost use Rattle.std.specs.Prelude.{◌≡◌, [], map, not, ◌&&◌, IsTrue};
ghost use Rattle.std.proofs.Common.{get_or};
ghost use Rattle.std.specs.List.{list_all};
ghost use Rattle.lock_plan.specs.Checks.{fit_machines};
ghost use Rattle.lock_plan_laws.specs.OrderChecks.{goes_up, is_above, is_below, keeps_at, keeps_from, keeps_order};
ghost use Rattle.lock_plan_order.specs.LockOrders.{AreKept, AreKnown, IsKept, held_in, none_reentrant, rank_in};

use crate::coverage::{covers_at, fit_machines};
use crate::lookups::{held_of, is_free, program_of};
use lock_modes::{Hold, LockStep, ModeStep};
use lock_plan::{Act, Holds, PlanLock, ProgramPlace, act_in};
use step_search::Budget;

/// Returns whether an order covers the locks, and each of the programs keeps it, as far as it is seen before the budget ends.
pub(crate) fn is_kept<B: Budget>(
    order: &[usize],
    locks: &[PlanLock],
    programs: &[Vec<ProgramPlace>],
    known: &[Vec<Option<Holds>>],
    budget: &mut B,
) -> bool
    requires { AreKnown locks.now (map (λ v. v.items) programs.now) (map held_in known.now) }
    ensures { IsTrue result → IsKept locks.now (map (λ v. v.items) programs.now) order.now }
{
    if !fit_machines(locks) || !none_reentrant(locks) {
        return false;
    }
    are_kept(order, programs, known, budget)
}

/// Returns whether none of the locks is reentrant.
fn none_reentrant(locks: &[PlanLock]) -> bool
    ensures { result ≡ none_reentrant locks.now }
{
    locks.iter().all(|lock| !lock.kind.is_reentrant())
}

/// Returns whether each of the programs keeps the order.
fn are_kept<B: Budget>(
    order: &[usize],
    programs: &[Vec<ProgramPlace>],
    known: &[Vec<Option<Holds>>],
    budget: &mut B,
) -> bool
    ensures { IsTrue result → AreKept order.now (map (λ v. v.items) programs.now) (map held_in known.now) }
{
    for party in 0..programs.len() {
        if !keeps_from(
            order,
            program_of(programs, party),
            held_of(known, party),
            budget,
        ) {
            return false;
        }
    }
    true
}

/// Returns whether a program keeps the order, at each place of which the holds are known.
fn keeps_from<B: Budget>(
    order: &[usize],
    program: &[ProgramPlace],
    known: &[Option<Holds>],
    budget: &mut B,
) -> bool
    ensures { IsTrue result → IsTrue (keeps_from (rank_in order.now) program.now 0 known.now) }
{
    let mut place = 0usize;
    for held in known {
        if !budget.lasts(place) || !keeps_at(order, act_in(program, place), held) {
            return false;
        }
        place += 1;
    }
    true
}

/// Returns whether an act keeps the order where its party has these holds, if they are known.
fn keeps_at(order: &[usize], here: Option<Act>, held: &Option<Holds>) -> bool
    ensures { result ≡ keeps_at (rank_in order.now) here held.now }
{
    match held {
        None => true,
        Some(holds) => covers_at(here, held) && keeps_order(order, holds, here),
    }
}

/// Returns whether an act keeps the order where its party has these holds.
fn keeps_order(order: &[usize], holds: &Holds, here: Option<Act>) -> bool
    ensures { result ≡ keeps_order (rank_in order.now) holds.now here }
{
    match here {
        Some(Act::Call(call)) => goes_up(order, holds, call.lock, call.step),
        _ => true,
    }
}

/// Returns whether a call keeps the order where its party has these holds.
fn goes_up(order: &[usize], holds: &Holds, lock: usize, step: LockStep) -> bool
    ensures { result ≡ goes_up (rank_in order.now) holds.now lock step }
{
    match step {
        LockStep::Modes(ModeStep::Acquire(_)) => is_above(order, lock, holds),
        _ => true,
    }
}

/// Returns whether a lock is above all locks that are held.
fn is_above(order: &[usize], lock: usize, holds: &Holds) -> bool
    ensures { result ≡ is_above (rank_in order.now) lock 0 holds.now }
{
    for held in 0..holds.len() {
        if !is_below(order, lock, held, holds.hold(held)) {
            return false;
        }
    }
    true
}

/// Returns whether a lock with this hold is not held, or is below another one.
fn is_below(order: &[usize], lock: usize, held: usize, hold: Hold) -> bool
    ensures { result ≡ is_below (rank_in order.now) lock held hold }
{
    is_free(hold) || rank_in(order, held) < rank_in(order, lock)
}

/// Returns the place of a lock in the order, or 0 if it has none.
fn rank_in(order: &[usize], lock: usize) -> usize
    ensures { result ≡ rank_in order.now lock }
{
    order.iter().position(|other| *other == lock).unwrap_or(0)
}
