//! What a row does and holds at a node. A row past the last has ended and holds nothing.

use lock_modes::Hold;
use lock_plan::{Act, Block, Plan, Signal, Turn};
use std::alloc::{AllocError, Global};

/// Returns the place of a row.
pub(crate) fn place_at(plan: &Plan, node: u128, row: usize) -> usize {
    if row >= plan.parties() {
        return 0;
    }
    plan.place(node, row)
}

/// Returns the next act of a row, or `None` where it has ended.
pub(crate) fn act_at(plan: &Plan, node: u128, row: usize) -> Option<Act> {
    if row >= plan.parties() {
        return None;
    }
    plan.act(node, row)
}

/// Returns what the next act of a row does, or `None` where it has ended or is not there.
pub(crate) fn turn_at(
    alloc: Global,
    plan: &Plan,
    node: u128,
    row: usize,
) -> Result<Option<Turn>, AllocError> {
    if row >= plan.parties() {
        return Ok(None);
    }
    plan.turn(alloc, node, row)
}

/// Returns whether the next act of a row waits, is refused, or is behind another party.
pub(crate) fn is_stopped(
    alloc: Global,
    plan: &Plan,
    node: u128,
    row: usize,
) -> Result<bool, AllocError> {
    if row >= plan.parties() {
        return Ok(false);
    }
    let stopped = plan.stopped_at(alloc, node, row)?;
    Ok(stopped.is_some())
}

/// Returns what a row holds of a lock.
pub(crate) fn hold_at(plan: &Plan, node: u128, row: usize, lock: usize) -> Hold {
    if row >= plan.parties() {
        return Hold::none();
    }
    plan.hold(node, row, lock)
}

/// Returns the condition variable on which a row sleeps.
pub(crate) fn sleep_of(plan: &Plan, node: u128, row: usize) -> Option<usize> {
    cond_of(act_at(plan, node, row))
}

/// Returns the condition variable on which a row with this act sleeps.
fn cond_of(act: Option<Act>) -> Option<usize> {
    match act {
        Some(Act::Signal(Signal::Sleep(cond)) | Act::Choose(Block::TimedSleep(cond))) => Some(cond),
        _ => None,
    }
}
