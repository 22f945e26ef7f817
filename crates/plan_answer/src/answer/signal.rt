//! The texts of choices and signals.

use crate::answer::source::Source;
use crate::answer::stand::sleep_of;
use lock_plan::{Block, Signal};
use plan_text::{Names, write_look};
use std::alloc::{AllocError, Global};

/// Appends a choice of the first way or the other one.
pub(crate) fn write_choice(
    text: &mut String,
    names: &Names,
    other: bool,
    block: Block,
) -> Result<(), AllocError> {
    match block {
        Block::Repeat => write!(text, "repeat{}", turn_text(other)),
        Block::Either => write!(text, "either{}", turn_text(other)),
        Block::AtLeast(row, number) => {
            text.push_str("if ")?;
            write_look(text, names, (row, number), true)?;
            text.push_str(value_text(!other))
        }
        Block::TryAdd(row, _) => write_try(text, names, (row, true), other),
        Block::TryTake(row) => write_try(text, names, (row, false), other),
        Block::TimedSleep(cond) => { write!(text, "timeout {}", names.condvar(cond)) }
    }
}

/// Appends a try that moves a counter up or down.
fn write_try(
    text: &mut String,
    names: &Names,
    moved: (usize, bool),
    other: bool,
) -> Result<(), AllocError> {
    text.push_str("try ")?;
    write_move(text, names, moved)?;
    text.push_str(if other { ": refused" } else { ": admitted" })
}

/// Appends what moves a counter up or down: the word of its kind, and its name.
pub(crate) fn write_move(
    text: &mut String,
    names: &Names,
    moved: (usize, bool),
) -> Result<(), AllocError> {
    let (row, is_up) = moved;
    write!(text, "{} {}", names.move_word(row, is_up), names.row(row))
}

fn value_text(value: bool) -> &'static str {
    if value { ": true" } else { ": false" }
}

fn turn_text(other: bool) -> &'static str {
    if other { ": past" } else { ": in" }
}

/// Appends a signal that goes this way from a node.
pub(crate) fn write_signal(
    text: &mut String,
    source: &Source,
    node: u128,
    way: usize,
    signal: Signal,
) -> Result<(), AllocError> {
    match signal {
        Signal::Idle(_) | Signal::Sleep(_) => Ok(()),
        Signal::Start(row) => write!(text, "start {}", source.names.row(row)),
        Signal::Join(row) => write!(text, "join {}", source.names.row(row)),
        Signal::Add(row, _) => write_move(text, source.names, (row, true)),
        Signal::Take(row) => write_move(text, source.names, (row, false)),
        Signal::Set(row, place) => write_set(text, source.names, row, place),
        Signal::AssertAtLeast(row, number, value) => {
            write_assert(text, source.names, (row, number), value)
        }
        Signal::NotifyOne(cond) => {
            let rows = woken(source.alloc, way)?;
            write_notice(text, "notify_one ", source.names, cond, rows.as_slice())
        }
        Signal::NotifyAll(cond) => {
            let rows = sleepers(source, node, cond)?;
            write_notice(text, "notify_all ", source.names, cond, rows.as_slice())
        }
    }
}

/// Appends what gives a counter the value of a place of its program.
fn write_set(text: &mut String, names: &Names, row: usize, place: usize) -> Result<(), AllocError> {
    let (name, value) = (names.row(row), names.value(row, place));
    match (names.is_flag(row), value) {
        (true, 0) => write!(text, "clear {name}"),
        (true, _) => write!(text, "set {name}"),
        (false, value) => write!(text, "set {name} {value}"),
    }
}

/// Appends an assertion that a row is at this number or above, or that it is not.
pub(crate) fn write_assert(
    text: &mut String,
    names: &Names,
    look: (usize, usize),
    value: bool,
) -> Result<(), AllocError> {
    text.push_str("assert ")?;
    write_look(text, names, look, value)
}

/// Returns the row that a notification of one wakes if it goes this way.
fn woken(alloc: Global, way: usize) -> Result<Vec<usize>, AllocError> {
    let mut rows = Vec::new(alloc);
    if let Some(row) = way.checked_sub(1) {
        rows.push(row)?;
    }
    Ok(rows)
}

/// Returns the rows that sleep on a condition variable at a node, in order.
fn sleepers(source: &Source, node: u128, cond: usize) -> Result<Vec<usize>, AllocError> {
    let mut rows = Vec::new(source.alloc);
    for row in 0..source.plan.parties() {
        if sleep_of(source.plan, node, row) == Some(cond) {
            rows.push(row)?;
        }
    }
    Ok(rows)
}

/// Appends a notification: its word, its condition variable, and the rows that it wakes.
fn write_notice(
    text: &mut String,
    word: &str,
    names: &Names,
    cond: usize,
    rows: &[usize],
) -> Result<(), AllocError> {
    let cond = names.condvar(cond);
    write!(text, "{word}{cond}: wakes ")?;
    write_rows(text, names, rows)
}

/// Appends the names of rows, or `none`.
fn write_rows(text: &mut String, names: &Names, rows: &[usize]) -> Result<(), AllocError> {
    let Some((first, rest)) = rows.split_first() else {
        return text.push_str("none");
    };
    text.push_str(names.row(*first))?;
    for row in rest {
        write!(text, ", {}", names.row(*row))?;
    }
    Ok(())
}
