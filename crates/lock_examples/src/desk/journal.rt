//! An audit of a journal of steps.
ghost use Rattle.std.specs.Prelude.{◌≡◌, ◌↔◌, ◌<◌, ◌^◌, true, IfOk, IsOk, IsOkAnd};
ghost use Rattle.lock_api.specs.Modes as modes;
ghost use Rattle.lock_api.specs.Modes.{empty_bag, tokens};
ghost use Rattle.lock_api.specs.ModeRuns.{IsModeRun, Permits, Replays};

use lock_api::Fault;
use lock_api::model::{Bag, Mode, ModeStep};
use lock_api::raw::{MAX_LIMIT, RecordingRaw};
use std::alloc::Global;
use std::clone::Clone;
use std::sync::Wait;

/// Returns the bag after the steps, if each was permitted where it was made, from the empty bag. Otherwise returns the
/// number of the first step that was not.
pub fn audit(limit: u64, steps: &[ModeStep]) -> Result<Bag, usize>
    ensures run { IfOk result (λ out. IsModeRun limit empty_bag steps.now out) }
    ensures told { IsOk result ↔ Replays limit steps.now }
{
    let mut out = Bag::empty();
    for index in 0..steps.len() {
        let step = steps[index];
        if !permits(limit, out, step) {
            return Err(index);
        }
        out = out.after(step);
    }
    Ok(out)
}

/// Returns whether the bag permits the step.
fn permits(limit: u64, out: Bag, step: ModeStep) -> bool
    requires { tokens out < 2 ^ 64 }
    ensures { (result ≡ true) ↔ Permits limit out step }
{
    match step {
        ModeStep::Acquire(mode) => out.admits(limit, mode),
        ModeStep::Release(_) => out.has(step),
        ModeStep::Change(from, to) => out.has(step) && is_move(from, to) && out.may_become(to),
    }
}

/// Returns whether one mode can change to the other.
fn is_move(from: Mode, to: Mode) -> bool
    ensures { result ≡ modes.is_move from to }
{
    match from {
        Mode::Shared => false,
        Mode::Exclusive => to != Mode::Exclusive,
        Mode::Upgradable => to != Mode::Upgradable,
    }
}

/// An audit of a lock's own journal finds nothing wrong, whatever threads did with the lock.
pub fn audit_lock<W: Wait + Clone + Drop>(
    alloc: Global,
    raw: &RecordingRaw<W>,
) -> Result<Result<Bag, usize>, Fault>
    ensures { IfOk result (λ audited. IsOk audited) }
{
    let steps = raw.journal(alloc)?;
    Ok(audit(MAX_LIMIT, &steps))
}
