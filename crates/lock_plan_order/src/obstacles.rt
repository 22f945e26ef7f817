//! Where an order of the locks says nothing of a plan. No proof rests on these functions.
use crate::coverage::covers_act;
use crate::lock_order::Obstacle;
use lock_plan::{Act, Holds, PlanLock, ProgramPlace, Signal};
use std::alloc::AllocError;

/// Adds each lock that is no machine's, the first act that an order does not cover, and the first party that ends while it holds
/// a lock.
pub(crate) fn add_obstacles(
    found: &mut Vec<Obstacle>,
    locks: &[PlanLock],
    programs: &[Vec<ProgramPlace>],
    known: &[Vec<Option<Holds>>],
) -> Result<(), AllocError> {
    for lock in 0..locks.len() {
        if !locks[lock].fits_machine() {
            found.push(Obstacle::Unfit(lock))?;
        }
    }
    if let Some(uncovered) = first_uncovered(programs) {
        found.push(uncovered)?;
    }
    if let Some(end) = first_end(programs, known) {
        found.push(end)?;
    }
    Ok(())
}

/// Returns the first act that an order does not cover. A row that idles comes last: some other act starts it.
fn first_uncovered(programs: &[Vec<ProgramPlace>]) -> Option<Obstacle> {
    let mut idle = None;
    for party in 0..programs.len() {
        for place in 0..programs[party].len() {
            let act = programs[party][place].act;
            if matches!(act, Act::Signal(Signal::Idle(_))) {
                idle = Some(Obstacle::Uncovered(party, place));
            } else if !covers_act(act) {
                return Some(Obstacle::Uncovered(party, place));
            }
        }
    }
    idle
}

/// Returns the first party that ends while it holds a lock, and that lock.
fn first_end(programs: &[Vec<ProgramPlace>], known: &[Vec<Option<Holds>>]) -> Option<Obstacle> {
    for party in 0..programs.len() {
        if let Some(lock) = held_at_end(known, party, programs[party].len()) {
            return Some(Obstacle::Ends(party, lock));
        }
    }
    None
}

/// Returns the first lock that a party holds at its end.
fn held_at_end(known: &[Vec<Option<Holds>>], party: usize, end: usize) -> Option<usize> {
    match known.get(party)?.get(end) {
        Some(Some(holds)) => holds.first_held(),
        _ => None,
    }
}
