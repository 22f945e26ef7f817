//! Whether the waits of programs have ranks, each below those that may hold it up.
ghost use Rattle.std.specs.Prelude.{◌≡◌, ◌&&◌, ◌++◌, [], map, nat_lt, not, IfOk, IsTrue, OnOk};
ghost use Rattle.std.proofs.Common.{get_or};
ghost use Rattle.std.specs.List.{list_all};
ghost use Rattle.lock_plan_order.specs.LockOrders.{AreKnown, AreStrict, IsWithoutCircle, held_in};
ghost use Rattle.lock_plan_order.specs.WaitChecks.{are_ranked, is_below_all, known_in, rank_at, rises, waits_in, waits_of as all_waits};

use crate::coverage::{are_covered, fit_machines};
use crate::lookups::{held_of, program_of};
use crate::setting::Setting;
use crate::wait_place::WaitPlace;
use lock_plan::{Holds, ProgramPlace, act_in};
use std::alloc::{AllocError, Global};
use step_search::Budget;

/// Returns the places at which a party of a program blocks for a lock while it holds one.
pub(crate) fn waits_of(
    alloc: Global,
    programs: &[Vec<ProgramPlace>],
    known: &[Vec<Option<Holds>>],
) -> Result<Vec<WaitPlace>, AllocError>
    ensures { IfOk result (λ waits. waits.items ≡ all_waits (map (λ v. v.items) programs.now) (map held_in known.now)) }
{
    let mut waits = Vec::new(alloc);
    for number in 0..programs.len() {
        add_waits(
            &mut waits,
            number,
            program_of(programs, number),
            held_of(known, number),
        )?;
    }
    Ok(waits)
}

/// Adds the waits of a program.
fn add_waits(
    waits: &mut Vec<WaitPlace>,
    number: usize,
    program: &[ProgramPlace],
    known: &[Option<Holds>],
) -> Result<(), AllocError>
    ensures { OnOk result (waits.new.items ≡ waits.old.items ++ waits_in number program.now known.now) }
{
    for place in 0..known.len() {
        if let Some(wait) = WaitPlace::at(number, place, act_in(program, place), &known[place]) {
            waits.push(wait)?;
        }
    }
    Ok(())
}

/// Returns whether the waits have these ranks, and an order covers the locks and all acts, as far as it is seen before the
/// budget ends.
pub(crate) fn has_no_circle<B: Budget>(
    setting: Setting,
    programs: &[Vec<ProgramPlace>],
    ranks: &[Vec<usize>],
    waits: &[WaitPlace],
    budget: &mut B,
) -> bool
    requires known { AreKnown setting.locks.now (map (λ v. v.items) programs.now) (known_in setting) }
    requires strict { AreStrict setting.locks.now setting.many.now (known_in setting) setting.strict.now }
    requires waits { waits.now ≡ all_waits (map (λ v. v.items) programs.now) (known_in setting) }
    ensures { IsTrue result → IsWithoutCircle setting.entry.locks.now (map (λ v. v.items) programs.now) setting.entry.many.now }
{
    if !fit_machines(setting.locks) || !are_covered(programs, setting.known) {
        return false;
    }
    are_ranked(setting, ranks, waits, budget)
}

/// Returns whether each wait is below all that may hold it up.
fn are_ranked<B: Budget>(
    setting: Setting,
    ranks: &[Vec<usize>],
    waits: &[WaitPlace],
    budget: &mut B,
) -> bool
    ensures { IsTrue result → IsTrue (are_ranked setting.entry (map (λ v. v.items) ranks.now) waits.now) }
{
    let mut rest = waits;
    while let Some((wait, after)) = rest.split_first() {
        if !budget.lasts(rest.len()) || !is_below_all(setting, ranks, waits, *wait) {
            return false;
        }
        rest = after;
    }
    true
}

fn is_below_all(
    setting: Setting,
    ranks: &[Vec<usize>],
    waits: &[WaitPlace],
    wait: WaitPlace,
) -> bool
    ensures { result ≡ is_below_all setting.entry (map (λ v. v.items) ranks.now) waits.now wait }
{
    waits
        .iter()
        .all(|other| rises(setting, ranks, wait, *other))
}

/// Returns whether `x` is below `y`, if `y` may hold it up.
fn rises(setting: Setting, ranks: &[Vec<usize>], x: WaitPlace, y: WaitPlace) -> bool
    ensures { result ≡ rises setting.entry (map (λ v. v.items) ranks.now) x y }
{
    !setting.may_be_held_up(x, y)
        || rank_at(ranks, x.program, x.place) < rank_at(ranks, y.program, y.place)
}

fn rank_at(ranks: &[Vec<usize>], program: usize, place: usize) -> usize
    ensures { result ≡ rank_at (map (λ v. v.items) ranks.now) program place }
{
    match ranks.get(program) {
        Some(ranks) => ranks.get(place).copied().unwrap_or(0),
        None => 0,
    }
}
