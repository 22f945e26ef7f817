//! The stopped parties, and who holds what.

use crate::answer::line_mark::write_mark;
use crate::answer::mark::{Marked, Style, add_marks, write_marks};
use crate::answer::signal::{write_assert, write_move};
use crate::answer::source::Source;
use crate::answer::step::{lock_at, write_call};
use lock_modes::{LockStep, Mode, ModeStep};
use lock_plan::{Act, PartyHold, PlanLock, Signal, Stopped};
use std::alloc::{AllocError, Global};

/// Returns the word for a stop with these stopped parties.
pub(crate) fn stop_word(list: &[Stopped]) -> &'static str {
    if has_refused_call(list) {
        "refused"
    } else if has_refused(list) {
        "assertion"
    } else {
        "deadlock"
    }
}

fn has_refused_call(list: &[Stopped]) -> bool {
    list.iter().any(|stopped| is_refused_call(*stopped))
}

/// Returns whether the act of a stopped party is refused.
pub(crate) fn has_refused(list: &[Stopped]) -> bool {
    list.iter().any(|stopped| stopped.is_refused)
}

/// Returns whether a stopped party's call is refused.
fn is_refused_call(stopped: Stopped) -> bool {
    stopped.is_refused && stopped.act.call().is_some()
}

/// Appends a line for each of these parties, which wait or are refused at a node, with the mark before it.
pub(crate) fn write_stop_lines(
    text: &mut String,
    source: &Source,
    node: u128,
    list: &[Stopped],
) -> Result<(), AllocError> {
    for stopped in list {
        write_stopped(text, source, node, stopped)?;
    }
    Ok(())
}

/// Appends the line of a stopped party, with the mark before it.
fn write_stopped(
    text: &mut String,
    source: &Source,
    node: u128,
    stopped: &Stopped,
) -> Result<(), AllocError> {
    write_mark(text, source, node, stopped.party)?;
    let party = source.names.party(stopped.party);
    write!(text, "{party}{}", says(stopped.is_refused))?;
    write_awaited(text, source, stopped.act)?;
    match stopped.behind {
        None => write_holders(text, source, node, stopped.act)?,
        Some(first) => write!(text, " behind {}", source.names.party(first))?,
    }
    text.push('\n')
}

fn says(is_refused: bool) -> &'static str {
    if is_refused {
        " refused "
    } else {
        " waits for "
    }
}

/// Appends what a party with this act waits for: its call, a notification, a counter, or the end of a row; or what it asserts.
pub(crate) fn write_awaited(
    text: &mut String,
    source: &Source,
    act: Act,
) -> Result<(), AllocError> {
    match act {
        Act::Call(call) => write_call(text, source, call),
        Act::Signal(Signal::Sleep(cond)) => {
            write!(text, "notify {}", source.names.condvar(cond))
        }
        Act::Signal(Signal::Join(row)) => write!(text, "join {}", source.names.row(row)),
        Act::Signal(Signal::AssertAtLeast(row, number, value)) => {
            write_assert(text, source.names, (row, number), value)
        }
        Act::Signal(Signal::Add(row, _)) => write_move(text, source.names, (row, true)),
        Act::Signal(Signal::Take(row)) => write_move(text, source.names, (row, false)),
        Act::Signal(_) | Act::Try(_) | Act::Choose(_) => Ok(()),
    }
}

/// Appends who holds the lock of a call at a node.
fn write_holders(
    text: &mut String,
    source: &Source,
    node: u128,
    act: Act,
) -> Result<(), AllocError> {
    match act {
        Act::Call(call) => {
            let holds = source.plan.holds_of(source.alloc, node, call.lock)?;
            let lock = lock_at(source.plan, call.lock);
            write_call_holders(text, source, lock, holds.as_slice(), call.step)
        }
        Act::Try(_) | Act::Choose(_) | Act::Signal(_) => Ok(()),
    }
}

/// Appends who holds the lock for which a step waits; if it has all its readers, each hold and the limit.
fn write_call_holders(
    text: &mut String,
    source: &Source,
    lock: PlanLock,
    holds: &[PartyHold],
    step: LockStep,
) -> Result<(), AllocError> {
    let is_full = is_full(lock.limit, holds, step);
    let marks = holders(source.alloc, is_full, holds)?;
    text.push_str(": ")?;
    write_marks(text, Style::Words, source.names, marks.as_slice())?;
    if is_full {
        write!(text, " (limit {})", lock.limit)?;
    }
    Ok(())
}

/// Returns whether a step waits for a lock that has all its readers.
pub(crate) fn is_full(limit: u64, holds: &[PartyHold], step: LockStep) -> bool {
    adds_reader(step) && room_after(limit, holds) == 0
}

/// Returns whether a step adds a reader.
fn adds_reader(step: LockStep) -> bool {
    matches!(
        step,
        LockStep::Modes(ModeStep::Acquire(Mode::Shared | Mode::Upgradable))
    )
}

/// Returns how much of the room for so many readers holds leave.
fn room_after(limit: u64, holds: &[PartyHold]) -> u64 {
    let mut room = limit;
    for it in holds {
        let bag = it.hold.bag;
        room = room
            .saturating_sub(bag.shared)
            .saturating_sub(bag.upgradable);
    }
    room
}

/// Returns which parties have these holds, and in which modes.
pub(crate) fn holders(
    alloc: Global,
    is_each: bool,
    holds: &[PartyHold],
) -> Result<Vec<Marked>, AllocError> {
    let mut marks = Vec::new(alloc);
    for it in holds {
        add_marks(&mut marks, is_each, it.party, it.hold)?;
    }
    Ok(marks)
}
