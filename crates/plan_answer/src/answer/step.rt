//! The steps of a trace.

use crate::answer::line_mark::write_mark;
use crate::answer::run::{Made, Run};
use crate::answer::signal::{write_choice, write_signal};
use crate::answer::source::Source;
use crate::answer::stand::{act_at, sleep_of, turn_at};
use crate::answer::words::step_word;
use lock_modes::{Kind, LockStep};
use lock_plan::{Act, Plan, PlanCall, PlanLock, Turn};
use std::alloc::AllocError;

/// Appends the steps of a run, a line each, with the mark before it.
pub(crate) fn write_steps(text: &mut String, source: &Source, run: &Run) -> Result<(), AllocError> {
    for made in &run.steps {
        write_step(text, source, *made)?;
    }
    Ok(())
}

/// Appends the line of a step, with the mark before it.
fn write_step(text: &mut String, source: &Source, made: Made) -> Result<(), AllocError> {
    write_mark(text, source, made.before, made.step.party)?;
    write!(text, "{} ", source.names.party(made.step.party))?;
    write_made(text, source, made)?;
    text.push('\n')
}

/// Appends what a step does, with the mark before it.
pub(crate) fn write_marked(
    text: &mut String,
    source: &Source,
    made: Made,
) -> Result<(), AllocError> {
    write_mark(text, source, made.before, made.step.party)?;
    write_made(text, source, made)
}

/// Appends what a step does, or nothing where its party has ended.
pub(crate) fn write_made(text: &mut String, source: &Source, made: Made) -> Result<(), AllocError> {
    let other = made.step.way == 1;
    match act_at(source.plan, made.before, made.step.party) {
        None => Ok(()),
        Some(Act::Call(call)) => write_made_call(text, source, made, call),
        Some(Act::Try(call)) => {
            text.push_str("try ")?;
            write_call(text, source, call)?;
            text.push_str(if other { ": refused" } else { ": admitted" })
        }
        Some(Act::Choose(block)) => write_choice(text, source.names, other, block),
        Some(Act::Signal(signal)) => {
            let Made { step, before, .. } = made;
            write_signal(text, source, before, step.way, signal)
        }
    }
}

/// Appends what a step with a call does: the call, an announcement for it, or a wait, if its party sleeps after it.
fn write_made_call(
    text: &mut String,
    source: &Source,
    made: Made,
    call: PlanCall,
) -> Result<(), AllocError> {
    let party = made.step.party;
    match sleep_of(source.plan, made.after, party) {
        Some(cond) => {
            let cond = source.names.condvar(cond);
            write!(text, "wait {cond} {}", source.names.lock(call.lock))
        }
        None => {
            let turn = turn_at(source.alloc, source.plan, made.before, party)?;
            let step = made_step(turn, call.step);
            write_call(text, source, PlanCall { step, ..call })
        }
    }
}

/// Returns what a call's step does: the call, or an announcement for it.
fn made_step(turn: Option<Turn>, step: LockStep) -> LockStep {
    match turn {
        Some(Turn::Announces) => LockStep::Announce,
        _ => step,
    }
}

/// Appends a call: its word and its lock.
pub(crate) fn write_call(
    text: &mut String,
    source: &Source,
    call: PlanCall,
) -> Result<(), AllocError> {
    let is_rwlock = lock_at(source.plan, call.lock).kind.is_rwlock();
    let word = step_word(is_rwlock, call.step);
    write!(text, "{word} {}", source.names.lock(call.lock))
}

/// Returns the lock with this number.
pub(crate) fn lock_at(plan: &Plan, lock: usize) -> PlanLock {
    match plan.locks().get(lock) {
        Some(lock) => *lock,
        None => PlanLock {
            kind: Kind::Mutex,
            limit: 0,
            bar: false,
            fair: false,
        },
    }
}
