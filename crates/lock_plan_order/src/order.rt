//! The look for an order of the locks, or for ranks of the waits.
ghost use Rattle.std.specs.Prelude.{◌≡◌, map, not, Ok, IfErr, IfOk, IsTrue};
ghost use Rattle.lock_plan.specs.Checks.{IsFault, parties_fault};
ghost use Rattle.lock_plan_order.specs.LockOrders.{AreKnown, IsInTime, IsLockOrder, IsOrderFault, held_in};
ghost use Rattle.lock_plan_order.specs.WaitChecks.{waits_of as all_waits};

use crate::circle::Ranking;
use crate::held_waits::{held_waits, sorted};
use crate::lenient::strict_locks;
use crate::lock_order::{LockOrder, Obstacle};
use crate::lock_ranks::is_kept;
use crate::obstacles::add_obstacles;
use crate::order_fault::OrderFault;
use crate::setting::Setting;
use crate::wait_place::WaitPlace;
use crate::wait_ranks::{has_no_circle, waits_of};
use lock_plan::{Holds, PlanFault, PlanLock, ProgramPlace, known_holds};
use std::alloc::{AllocError, Global};
use step_search::Budget;

/// The most waits of which each two are compared, which takes about a second.
const MOST_WAITS: usize = 4096;

/// Returns an order of the locks that each of the programs keeps; else [`LockOrder::NoCircle`] if no waits make a circle; else
/// what is in the way.
///
/// Without obstacles, no run of parties with these programs leads into a stop or a circle: with an order for any number of
/// parties with each program, and else for any number where `many` has `true`, and one of each other.
///
/// # Errors
///
/// `Plan` for the first wrong act, program by program; `OutOfTime` where the budget ended before an order or ranks of the waits
/// were found; `Plan` of `OutOfMemory`.
pub fn find_order<B: Budget>(
    alloc: Global,
    locks: &[PlanLock],
    programs: &[Vec<ProgramPlace>],
    many: &[bool],
    budget: &mut B,
) -> Result<LockOrder, OrderFault>
    ensures order { IfOk result (IsLockOrder locks.now (map (λ v. v.items) programs.now) many.now) }
    ensures wrong { IfErr result (IsOrderFault (parties_fault locks.now 0 (map (λ v. v.items) programs.now))) }
    ensures ended { IfErr result (IsInTime (B.has_ended budget.new)) }
{
    let known = all_known(alloc, locks, programs)?;
    let order = match order_of(alloc, locks, programs, many, known.as_slice(), budget) {
        Ok(order) => order,
        Err(_) => return Err(OrderFault::Plan(PlanFault::OutOfMemory)),
    };
    if is_broken(&order) && !budget.lasts(known.len()) {
        return Err(OrderFault::OutOfTime);
    }
    Ok(order)
}

/// Returns whether no order and no ranks were found.
fn is_broken(order: &LockOrder) -> bool {
    matches!(order, LockOrder::Broken(_))
}

/// Returns what a party with each of the programs holds at each place.
fn all_known(
    alloc: Global,
    locks: &[PlanLock],
    programs: &[Vec<ProgramPlace>],
) -> Result<Vec<Vec<Option<Holds>>>, PlanFault>
    ensures known { IfOk result (λ known.
        AreKnown locks.now (map (λ v. v.items) programs.now) (map held_in known.items)) }
    ensures wrong { IfErr result (IsFault (parties_fault locks.now 0 (map (λ v. v.items) programs.now))) }
{
    let mut known = Vec::new(alloc);
    let mut rest = programs;
    while let Some((program, after)) = rest.split_first() {
        let held = known_holds(alloc, locks, program.as_slice(), known.len())?;
        known.push(held)?;
        rest = after;
    }
    Ok(known)
}

/// Returns an order of the locks, or whether the waits make no circle, or what is in the way.
///
/// `known` is what a party with each program holds at each place.
fn order_of<B: Budget>(
    alloc: Global,
    locks: &[PlanLock],
    programs: &[Vec<ProgramPlace>],
    many: &[bool],
    known: &[Vec<Option<Holds>>],
    budget: &mut B,
) -> Result<LockOrder, AllocError>
    requires { AreKnown locks.now (map (λ v. v.items) programs.now) (map held_in known.now) }
    ensures { IfOk result (IsLockOrder locks.now (map (λ v. v.items) programs.now) many.now) }
{
    let waits = waits_of(alloc, programs, known)?;
    let held = held_waits(alloc, known, waits.as_slice(), budget)?;
    let order = sorted(alloc, locks.len(), held.as_slice(), budget)?;
    if is_kept(order.as_slice(), locks, programs, known, budget) {
        return Ok(LockOrder::Kept(order));
    }
    by_waits(
        alloc,
        locks,
        programs,
        many,
        known,
        waits.as_slice(),
        budget,
    )
}

/// Returns whether the waits make no circle, or what is in the way.
fn by_waits<B: Budget>(
    alloc: Global,
    locks: &[PlanLock],
    programs: &[Vec<ProgramPlace>],
    many: &[bool],
    known: &[Vec<Option<Holds>>],
    waits: &[WaitPlace],
    budget: &mut B,
) -> Result<LockOrder, AllocError>
    requires waits { waits.now ≡ all_waits (map (λ v. v.items) programs.now) (map held_in known.now) }
    requires known { AreKnown locks.now (map (λ v. v.items) programs.now) (map held_in known.now) }
    ensures { IfOk result (IsLockOrder locks.now (map (λ v. v.items) programs.now) many.now) }
{
    let strict = strict_locks(alloc, locks, many, known, budget)?;
    let setting = Setting {
        locks,
        strict: strict.as_slice(),
        many,
        known,
    };
    let mut found = Vec::new(alloc);
    if waits.len() > MOST_WAITS {
        found.push(Obstacle::TooManyWaits)?;
    } else {
        let ranking = Ranking::of(alloc, setting, waits, budget)?;
        if has_no_circle(setting, programs, ranking.ranks.as_slice(), waits, budget) {
            return Ok(LockOrder::NoCircle);
        }
        ranking.add_circle(alloc, setting, waits, &mut found, budget)?;
    }
    add_obstacles(&mut found, locks, programs, known)?;
    Ok(LockOrder::Broken(found))
}
