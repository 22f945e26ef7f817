//! The cells of a drawing.

use crate::answer::mark::{Marked, Style, add_marks, write_marks};
use crate::answer::source::Source;
use crate::answer::stand::{act_at, hold_at, is_stopped, sleep_of};
use lock_plan::{Act, Signal};
use plan_text::Names;
use std::alloc::AllocError;

/// A row of a drawing.
#[derive(Clone, Copy)]
pub(crate) enum Row {
    /// The names of the parties.
    Parties,
    /// What the parties hold at a node, after a step of this party.
    After(u128, usize),
    /// What the parties wait for at a node.
    Stop(u128),
}

/// Appends the cell of a party.
pub(crate) fn write_cell(
    text: &mut String,
    source: &Source,
    row: Row,
    party: usize,
) -> Result<(), AllocError> {
    match row {
        Row::Parties => text.push_str(source.names.party(party)),
        Row::After(node, mover) => write_step_cell(text, source, node, mover, party),
        Row::Stop(node) => write_stop_cell(text, source, node, party),
    }
}

/// Appends a cell after a step: whether the party made it, what the party holds, and whether it sleeps.
fn write_step_cell(
    text: &mut String,
    source: &Source,
    node: u128,
    mover: usize,
    party: usize,
) -> Result<(), AllocError> {
    let marks = locks_held(source, node, party)?;
    text.push_str(if party == mover { "* " } else { "" })?;
    let is_idle = idles(act_at(source.plan, node, party));
    write_held(text, source.names, is_idle, marks.as_slice())?;
    write_sleep(text, source.names, sleep_of(source.plan, node, party))
}

/// Returns whether a party with this act idles.
fn idles(act: Option<Act>) -> bool {
    matches!(act, Some(Act::Signal(Signal::Idle(_))))
}

/// Appends what a party holds; a dot for nothing, or a dash where it idles.
fn write_held(
    text: &mut String,
    names: &Names,
    is_idle: bool,
    marks: &[Marked],
) -> Result<(), AllocError> {
    if marks.is_empty() {
        text.push(if is_idle { '-' } else { '.' })
    } else {
        write_marks(text, Style::Letters, names, marks)
    }
}

/// Appends the condition variable on which a party sleeps.
fn write_sleep(text: &mut String, names: &Names, sleep: Option<usize>) -> Result<(), AllocError> {
    match sleep {
        None => Ok(()),
        Some(cond) => write!(text, " zz {}", names.condvar(cond)),
    }
}

/// Returns which locks a party holds at a node, and in which modes.
fn locks_held(source: &Source, node: u128, party: usize) -> Result<Vec<Marked>, AllocError> {
    let mut marks = Vec::new(source.alloc);
    for lock in 0..source.plan.locks().len() {
        add_marks(
            &mut marks,
            false,
            lock,
            hold_at(source.plan, node, party, lock),
        )?;
    }
    Ok(marks)
}

/// Appends a cell of the last row: an arrow to what the party waits for, or a dot.
fn write_stop_cell(
    text: &mut String,
    source: &Source,
    node: u128,
    party: usize,
) -> Result<(), AllocError> {
    if is_stopped(source.alloc, source.plan, node, party)? {
        write_arrow(text, source.names, act_at(source.plan, node, party))
    } else {
        text.push('.')
    }
}

/// Appends an arrow to what a party with this act waits for.
fn write_arrow(text: &mut String, names: &Names, act: Option<Act>) -> Result<(), AllocError> {
    let awaited = match act {
        Some(Act::Call(call)) => names.lock(call.lock),
        Some(Act::Signal(Signal::Sleep(cond))) => names.condvar(cond),
        Some(
            Act::Signal(
                Signal::Join(row)
                | Signal::Add(row, _)
                | Signal::Take(row)
                | Signal::AssertAtLeast(row, _, _),
            ),
        ) => names.row(row),
        _ => return text.push('.'),
    };
    write!(text, "-> {awaited}")
}
