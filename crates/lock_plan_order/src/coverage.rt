//! Which locks and acts an order covers.
ghost use Rattle.std.specs.Prelude.{◌≡◌, map, not, IsTrue, List, Some, []};
ghost use Rattle.std.proofs.Common.{get_or};
ghost use Rattle.std.specs.List.{list_all};
ghost use Rattle.lock_modes.specs.declared.hold.Hold.{Hold as SpecHold};
ghost use Rattle.lock_plan.specs.Checks.{fit_machines};
ghost use Rattle.lock_plan_laws.specs.OrderChecks.{covers, covers_at, covers_from};
ghost use Rattle.lock_plan_laws.specs.Ranks.{is_ranked_step};
ghost use Rattle.lock_plan_order.specs.LockOrders.{AreCovered, held_in};

use crate::lookups::{are_free, held_of, program_of};
use lock_modes::{LockStep, Mode, ModeStep};
use lock_plan::{Act, Block, Holds, PlanLock, ProgramPlace, act_in};

/// Returns whether machines can be the locks.
pub(crate) fn fit_machines(locks: &[PlanLock]) -> bool
    ensures { result ≡ fit_machines locks.now }
{
    locks.iter().all(|lock| lock.fits_machine())
}

/// Returns whether an order covers each act of the programs.
pub(crate) fn are_covered(programs: &[Vec<ProgramPlace>], known: &[Vec<Option<Holds>>]) -> bool
    ensures { IsTrue result → AreCovered (map (λ v. v.items) programs.now) (map held_in known.now) }
{
    for program in 0..programs.len() {
        if !covers_from(program_of(programs, program), held_of(known, program)) {
            return false;
        }
    }
    true
}

/// Returns whether an order covers the acts of a program, at each place of which the holds are known.
fn covers_from(program: &[ProgramPlace], known: &[Option<Holds>]) -> bool
    ensures { result ≡ covers_from program.now 0 known.now }
{
    let mut place = 0usize;
    for held in known {
        if !covers_at(act_in(program, place), held) {
            return false;
        }
        place += 1;
    }
    true
}

/// Returns whether an order covers the act where its party has these holds, if they are known.
pub(crate) fn covers_at(here: Option<Act>, held: &Option<Holds>) -> bool
    ensures { result ≡ covers_at here held.now }
{
    match held {
        None => true,
        Some(holds) => is_silent(holds) && covers(holds, here),
    }
}

/// Returns whether a party with these holds has announced itself on no lock.
fn is_silent(holds: &Holds) -> bool
    ensures { result ≡ list_all (λ h. not h.announced) holds.now }
{
    for lock in 0..holds.len() {
        if holds.hold(lock).announced {
            return false;
        }
    }
    true
}

/// Returns whether an order covers the act where its party has these holds.
fn covers(holds: &Holds, here: Option<Act>) -> bool
    ensures { result ≡ covers holds.now here }
{
    match here {
        None => are_free(holds),
        Some(act) => covers_act(act),
    }
}

/// Returns whether an order covers the act: it is no upgrade, announcement, signal or timed sleep.
pub(crate) fn covers_act(act: Act) -> bool
    ensures { (holds : List SpecHold) → result ≡ covers holds (Some act) }
{
    match act {
        Act::Call(call) => is_ranked_step(call.step),
        Act::Choose(Block::TimedSleep(_)) | Act::Signal(_) => false,
        Act::Try(_) | Act::Choose(_) => true,
    }
}

/// Returns whether the step is neither an upgrade nor an announcement.
fn is_ranked_step(step: LockStep) -> bool
    ensures { result ≡ is_ranked_step step }
{
    match step {
        LockStep::Modes(ModeStep::Change(_, to)) => to != Mode::Exclusive,
        LockStep::Modes(ModeStep::Acquire(_) | ModeStep::Release(_)) | LockStep::Withdraw => true,
        LockStep::Announce => false,
    }
}
