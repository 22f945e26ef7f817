//! Which calls can never be made.
ghost use Rattle.std.specs.Prelude.{◌≡◌, ℕ, ◌<◌, ◌^◌, length, Option};
ghost use Rattle.std.proofs.Common.{get_or};
ghost use Rattle.lock_modes.specs.Modes.{is_move, tokens};
ghost use Rattle.lock_modes.specs.Holds.{no_hold};
ghost use Rattle.lock_plan.specs.Worlds.{no_lock};
ghost use Rattle.lock_plan.specs.Holds.{lines_up};
ghost use Rattle.lock_plan.specs.CallFaults.{is_of_kind, is_over, lack_of, fault_on, call_fault};

use crate::call::{PlanCall, is_write};
use crate::fault::CallFault;
use crate::holds::Holds;
use crate::lock::PlanLock;
use lock_modes::{Hold, Kind, LockStep, Mode, ModeStep};

/// Returns why a call can never be made by a party with these holds.
pub(crate) fn call_fault(locks: &[PlanLock], holds: &Holds, call: PlanCall) -> Option<CallFault>
    requires long { length holds.now ≡ length locks.now }
    requires few { (l : ℕ) → tokens (get_or holds.now l no_hold).bag < 2 ^ 64 }
    ensures { result ≡ call_fault locks.now holds.now call }
{
    if call.lock >= locks.len() {
        return Some(CallFault::UnknownLock);
    }
    fault_on(locks[call.lock], holds.hold(call.lock), call.step)
}

/// Returns whether the call acquires a fair lock. Such a lock refuses a try while another party waits in line, and a plan
/// does not say who came first.
pub(crate) fn tries_fair(locks: &[PlanLock], call: PlanCall) -> bool
    ensures { result ≡ lines_up (get_or locks.now call.lock no_lock) call.step }
{
    PlanLock::at(locks, call.lock).lines_up(call.step)
}

/// Returns why a call on this lock can never be made with this hold.
fn fault_on(lock: PlanLock, own: Hold, step: LockStep) -> Option<CallFault>
    requires { tokens own.bag < 2 ^ 64 }
    ensures { result ≡ fault_on lock own step }
{
    if !is_of_kind(lock.kind, step) {
        Some(CallFault::WrongKind)
    } else if !own.has(step) {
        Some(lack_of(step))
    } else if is_over(lock, own, step) {
        Some(CallFault::TooManyLevels)
    } else if step == LockStep::Announce && own.announced {
        Some(CallFault::AlreadyAnnounced)
    } else {
        None
    }
}

/// Returns the fault of a step that needs what the hold does not have.
fn lack_of(step: LockStep) -> CallFault
    ensures { result ≡ lack_of step }
{
    match step {
        LockStep::Withdraw => CallFault::NotAnnounced,
        LockStep::Modes(_) | LockStep::Announce => CallFault::NotHeld,
    }
}

/// Returns whether locks of the kind have the call.
fn is_of_kind(kind: Kind, step: LockStep) -> bool
    ensures { result ≡ is_of_kind kind step }
{
    match step {
        LockStep::Modes(ModeStep::Acquire(mode)) => mode == Mode::Exclusive || kind.is_rwlock(),
        LockStep::Modes(ModeStep::Release(mode)) => mode == Mode::Exclusive || kind.is_rwlock(),
        LockStep::Modes(ModeStep::Change(from, to)) => is_move(from, to) && kind.is_rwlock(),
        LockStep::Announce | LockStep::Withdraw => kind.is_rwlock(),
    }
}

/// Returns whether a hold can change from the one mode to the other.
fn is_move(from: Mode, to: Mode) -> bool
    ensures { result ≡ is_move from to }
{
    match from {
        Mode::Shared => false,
        Mode::Exclusive => to != Mode::Exclusive,
        Mode::Upgradable => to != Mode::Upgradable,
    }
}

/// Returns whether the call acquires a level above the limit.
fn is_over(lock: PlanLock, own: Hold, step: LockStep) -> bool
    requires { tokens own.bag < 2 ^ 64 }
    ensures { result ≡ is_over lock own step }
{
    is_write(step) && lock.kind.is_reentrant() && own.bag.tokens() >= lock.limit
}
