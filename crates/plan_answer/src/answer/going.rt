//! The parties that go on in a deadlock of others, and those that always have a step.
use crate::answer::source::Source;
use crate::answer::stand::{is_stopped, turn_at};
use crate::answer::stop::has_refused;
use lock_plan::{Stopped, Turn};
use std::alloc::AllocError;

/// Appends a line for each party that has a step at a node and is not stopped, if none of the stopped ones is refused.
pub(crate) fn write_going_lines(
    text: &mut String,
    source: &Source,
    node: u128,
    stopped: &[Stopped],
) -> Result<(), AllocError> {
    if has_refused(stopped) {
        return Ok(());
    }
    for row in 0..source.plan.parties() {
        let turn = turn_at(source.alloc, source.plan, node, row)?;
        let is_stopped = is_stopped(source.alloc, source.plan, node, row)?;
        if matches!(turn, Some(Turn::Goes | Turn::Announces)) && !is_stopped {
            writeln!(text, "{} goes on", source.names.party(row))?;
        }
    }
    Ok(())
}

/// Appends a line for each party that never waits.
pub(crate) fn write_always_steps(text: &mut String, source: &Source) -> Result<(), AllocError> {
    for row in 0..source.plan.parties() {
        if source.plan.never_waits(source.alloc, row)? {
            writeln!(text, "{} always has a step", source.names.party(row))?;
        }
    }
    Ok(())
}
