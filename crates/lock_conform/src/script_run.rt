//! A script's lines, made on a lock.
ghost use Rattle.std.specs.Prelude.{◌≡◌, ◌<◌, ◌≤◌, IfOk, min, length};
ghost use Rattle.lock_conform.specs.Done.{lines_done};
ghost use Rattle.lock_conform.specs.Refusals.{IsOutright};
ghost use Rattle.lock_conform.specs.Reports.{IsReport};

use crate::comparison::Comparison;
use crate::driven::{Driven, ScriptGuard, call_guard};
use crate::lines::Lines;
use crate::manner::ParkBy;
use crate::report::Report;
use crate::script_call::ScriptCall;
use crate::script_guards::{GuardState, ScriptGuards};
use lock_machine::{Call, Form, Reply, Want, Way};
use lock_modes::{Fault, PartyId};
use lock_recorder::CallLog;
use lock_script::PairOp;
use std::alloc::{AllocError, Global};

/// Makes the lines of a script on a lock, whose raw calls the log records.
pub fn run_on<D: Driven>(
    alloc: Global,
    driven: &D,
    log: CallLog,
    lines: Lines,
    park_by: ParkBy,
) -> Result<Report, AllocError>
    ensures { IfOk result (IsReport lines.calls.items lines.replies.items) }
{
    let comparison = Comparison::new(alloc, lines, log);
    let mut guards = ScriptGuards::new(alloc);
    let comparison = match park_by {
        ParkBy::Release => {
            let end = comparison.lines().len();
            make_lines(driven, &mut guards, comparison, end)?
        }
        ParkBy::Unlocked => make_lines_unlocked(driven, &mut guards, comparison)?,
    };
    drop(guards);
    Ok(comparison.into_report())
}

/// Makes the lines up to the line `end`.
fn make_lines<D: Driven>(
    driven: &D,
    guards: &mut ScriptGuards<D::Guard>,
    mut comparison: Comparison,
    end: usize,
) -> Result<Comparison, AllocError>
    ensures lines { IfOk result (λ made. made.lines ≡ comparison.lines) }
    ensures ended { IfOk result (λ made. min end (length made.lines.replies.items) ≤ lines_done made) }
    ensures kept { IfOk result (λ made. lines_done comparison ≤ lines_done made) }
{
    let last = end.min(comparison.lines().len());
    for at in 0..last {
        if comparison.done() <= at {
            comparison = make_next(driven, guards, comparison)?;
        }
    }
    Ok(comparison)
}

/// Makes all lines. Those until a parked guard is resumed are made in a closure of `unlocked`.
fn make_lines_unlocked<D: Driven>(
    driven: &D,
    guards: &mut ScriptGuards<D::Guard>,
    mut comparison: Comparison,
) -> Result<Comparison, AllocError>
    ensures lines { IfOk result (λ made. made.lines ≡ comparison.lines) }
    ensures ended { IfOk result (λ made. length made.lines.replies.items ≤ lines_done made) }
{
    let all = comparison.lines().len();
    for at in 0..all {
        if comparison.done() <= at {
            comparison = match parked_until(&comparison) {
                Some(parked) => park_unlocked(driven, guards, comparison, parked)?,
                None => make_next(driven, guards, comparison)?,
            };
        }
    }
    Ok(comparison)
}

/// Answers the next line by the lock's reply, or by the `Desk`'s if the line is not made.
fn make_next<D: Driven>(
    driven: &D,
    guards: &mut ScriptGuards<D::Guard>,
    comparison: Comparison,
) -> Result<Comparison, AllocError>
    requires { lines_done comparison < length comparison.lines.replies.items }
    ensures lines { IfOk result (λ made. made.lines ≡ comparison.lines) }
    ensures next { IfOk result (λ made. lines_done comparison < lines_done made) }
{
    let line = comparison.next();
    let reply = if comparison.makes(line) {
        make_line(driven, guards, line)?
    } else {
        line.wanted
    };
    answered(comparison, reply)
}

/// A guard that is parked until a later line resumes it.
#[derive(Clone, Copy)]
struct ParkedUntil {
    number: u64,
    way: Way,
    /// The line that resumes it.
    end: usize,
}

/// Returns the guard that the next line parks, if a later line resumes it.
fn parked_until(comparison: &Comparison) -> Option<ParkedUntil>
    requires { lines_done comparison.now < length comparison.now.lines.replies.items }
{
    let line = comparison.next();
    let (number, way) = match line.call {
        Call::Park(_, number) if comparison.makes(line) => (number, Way::Plain),
        Call::ParkFair(_, number) if comparison.makes(line) => (number, Way::Fair),
        _ => return None,
    };
    let lines = comparison.lines();
    for end in comparison.done()..lines.len() {
        let line = lines.line(end);
        match line.call {
            Call::Resume(_, resumed) if resumed == number && line.is_done() => {
                return Some(ParkedUntil { number, way, end });
            }
            Call::Abandon(_, ended) if ended == number && line.is_done() => {
                return None;
            }
            _ => {}
        }
    }
    None
}

/// Parks a guard by `unlocked`, whose closure makes the lines until the guard is resumed.
fn park_unlocked<D: Driven>(
    driven: &D,
    guards: &mut ScriptGuards<D::Guard>,
    comparison: Comparison,
    parked: ParkedUntil,
) -> Result<Comparison, AllocError>
    ensures lines { IfOk result (λ made. made.lines ≡ comparison.lines) }
    ensures next { IfOk result (λ made. lines_done comparison < length comparison.lines.replies.items
        → lines_done comparison < lines_done made) }
{
    let Some((want, guard)) = guards.take_held(parked.number) else {
        return answered(comparison, Reply::Refused(Fault::UnknownGuard));
    };
    guards.put(parked.number, GuardState::Parked(want));
    let (guard, made) = guard.unlocked(parked.way, || {
        make_lines_within(driven, guards, comparison, parked.end)
    });
    let state = match guard {
        Some(guard) => GuardState::Held(want, guard),
        None => GuardState::Gone,
    };
    guards.put(parked.number, state);
    answered(made?, Reply::Done)
}

/// Answers a `park`, and makes the lines up to the line `end`. If the run ends before, it releases all guards, since
/// the parked guard would block on them.
fn make_lines_within<D: Driven>(
    driven: &D,
    guards: &mut ScriptGuards<D::Guard>,
    comparison: Comparison,
    end: usize,
) -> Result<Comparison, AllocError>
    ensures lines { IfOk result (λ made. made.lines ≡ comparison.lines) }
    ensures next { IfOk result (λ made. lines_done comparison < length comparison.lines.replies.items
        → lines_done comparison < lines_done made) }
{
    let made = match answered(comparison, Reply::Done) {
        Ok(comparison) => make_lines(driven, guards, comparison, end),
        Err(refused) => Err(refused),
    };
    let goes_on = match &made {
        Ok(comparison) => !comparison.has_difference(),
        Err(_) => false,
    };
    if !goes_on {
        guards.release_all();
    }
    made
}

/// Answers the next line.
fn answered(mut comparison: Comparison, reply: Reply<i64>) -> Result<Comparison, AllocError>
    ensures lines { IfOk result (λ answered. answered.lines ≡ comparison.lines) }
    ensures done { IfOk result (λ answered. lines_done comparison ≤ lines_done answered) }
    ensures next { IfOk result (λ answered. lines_done comparison < length comparison.lines.replies.items
        → lines_done comparison < lines_done answered) }
{
    comparison.answer(reply)?;
    Ok(comparison)
}

/// Makes a line on the lock, and returns its reply.
fn make_line<D: Driven>(
    driven: &D,
    guards: &mut ScriptGuards<D::Guard>,
    line: ScriptCall,
) -> Result<Reply<i64>, AllocError>
    requires { ¬ IsOutright line.wanted }
{
    let reply = match line.made() {
        Call::Acquire(want, form, party) => match acquire(driven, want, form, party)? {
            Some(guard) => Reply::Guard(guards.add(want, guard)?),
            None => Reply::NoGuard,
        },
        Call::Resume(party, number) => resume(driven, guards, line.resume_form(), party, number)?,
        Call::Abandon(_, number) => {
            guards.take(number);
            Reply::Done
        }
        Call::Unlock(_, number, _)
        | Call::Park(_, number)
        | Call::ParkFair(_, number)
        | Call::Bump(_, number)
        | Call::Upgrade(_, _, number)
        | Call::Downgrade(_, number)
        | Call::DowngradeToUpgradable(_, number)
        | Call::WithUpgraded(_, _, number, _)
        | Call::Get(_, number, _)
        | Call::Change(_, number, _) => make_on_guard::<D>(guards, line.made(), number),
        call => driven.call_lock(call),
    };
    Ok(line.told(reply))
}

/// Acquires the lock, or returns `None` if the lock refuses.
fn acquire<D: Driven>(
    driven: &D,
    want: Want,
    form: Form,
    party: PartyId,
) -> Result<Option<D::Guard>, AllocError> {
    match driven.acquire(want, form, party) {
        Ok(guard) => Ok(Some(guard)),
        Err(Fault::OutOfMemory) => Err(AllocError),
        Err(_) => Ok(None),
    }
}

/// Acquires a parked guard again.
fn resume<D: Driven>(
    driven: &D,
    guards: &mut ScriptGuards<D::Guard>,
    form: Form,
    party: PartyId,
    number: u64,
) -> Result<Reply<i64>, AllocError> {
    let GuardState::Parked(want) = guards.take(number) else {
        return Ok(Reply::Refused(Fault::UnknownGuard));
    };
    let (state, reply) = match acquire(driven, want, form, party)? {
        Some(guard) => (GuardState::Held(want, guard), Reply::Done),
        None => (GuardState::Parked(want), Reply::NoGuard),
    };
    guards.put(number, state);
    Ok(reply)
}

/// Makes a call on a held guard. A guard that is parked is released.
fn make_on_guard<D: Driven>(
    guards: &mut ScriptGuards<D::Guard>,
    call: Call<PairOp>,
    number: u64,
) -> Reply<i64> {
    let Some((want, guard)) = guards.take_held(number) else {
        return Reply::Refused(Fault::UnknownGuard);
    };
    let (call, released) = match call {
        Call::Park(party, _) => (
            Call::Unlock(party, number, Way::Plain),
            GuardState::Parked(want),
        ),
        Call::ParkFair(party, _) => (
            Call::Unlock(party, number, Way::Fair),
            GuardState::Parked(want),
        ),
        call => (call, GuardState::Gone),
    };
    let (guard, reply) = call_guard::<D>(guard, call);
    let state = match guard {
        Some(guard) if matches!(reply, Reply::Done) => {
            GuardState::Held(want_after(call, want), guard)
        }
        Some(guard) => GuardState::Held(want, guard),
        None => released,
    };
    guards.put(number, state);
    reply
}

/// Returns what an acquisition of a guard asks for, once the call on the guard is made.
fn want_after(call: Call<PairOp>, want: Want) -> Want {
    match call {
        Call::Upgrade(_, _, _) => Want::Write,
        Call::Downgrade(_, _) => Want::Read,
        Call::DowngradeToUpgradable(_, _) => Want::UpgradableRead,
        _ => want,
    }
}
