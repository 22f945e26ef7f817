//! A script over the raw lock that is chosen.
ghost use Rattle.std.specs.Prelude.{◌≡◌, ◌≤◌, IfOk, OnOk};
ghost use Rattle.lock_script.specs.Session.{HasLimits, replies_to};
ghost use Rattle.lock_conform.specs.Reports.{IsReport};

use crate::choice::RawChoice;
use crate::wrong::{Mistake, WrongRaw};
use lock_conform::{Deadline, Manner, Report, run_mutex, run_reentrant, run_rwlock};
use lock_modes::{Fault, MAX_LIMIT};
use lock_raws::{LockCore, NoTime, RawLock, RealTime, WordCore};
use lock_raws_fair::FairCore;
use lock_raws_monitor::{Monitor, Recorded, TableArbiter};
use lock_script::{DeskScript, Maker};
use lock_traits::{
    RawMutex, RawMutexFair, RawMutexTimed, RawRwLock, RawRwLockTimed, RawRwLockUpgradeDowngrade,
    RawRwLockUpgradeFair, RawRwLockUpgradeTimed,
};
use std::alloc::Global;
use std::clone::Clone;
use std::sync::Wait;
use std::time::Clock;

/// The core of the fair raw locks.
type Fair<W, T> = FairCore<TableArbiter, W, T>;

/// Runs the script over the raw lock that is chosen.
pub fn run_chosen<W: Wait + Clock + Clone + Drop>(
    alloc: Global,
    waiter: W,
    raw: RawChoice,
    manner: Manner,
    script: DeskScript,
) -> Result<Report, Fault>
    ensures limits { result ≡ Err Fault.BadLimits → ¬ HasLimits script.maker }
    ensures in_range { OnOk result (¬ (¬ HasLimits script.maker)) }
    ensures report { IfOk result
        (IsReport script.calls.items (replies_to script.maker script.calls.items)) }
{
    match raw {
        RawChoice::Word => over_core::<WordCore<W, NoTime>>(alloc, waiter, manner, script),
        RawChoice::Table => over_core::<Monitor<TableArbiter, W>>(alloc, waiter, manner, script),
        RawChoice::Timed => over_core::<WordCore<W, RealTime>>(alloc, waiter, manner, script),
        RawChoice::Recording => over_core::<Monitor<Recorded, W>>(alloc, waiter, manner, script),
        RawChoice::Fair => over_core::<Fair<W, NoTime>>(alloc, waiter, manner, script),
        RawChoice::TimedFair => over_core::<Fair<W, RealTime>>(alloc, waiter, manner, script),
        RawChoice::Wrong(mistake) => over_wrong(alloc, waiter, mistake, manner, script),
    }
}

/// Runs the script over a raw lock with that core.
fn over_core<C: LockCore>(
    alloc: Global,
    waiter: C::Waiter,
    manner: Manner,
    script: DeskScript,
) -> Result<Report, Fault>
where
    C::Duration: Default,
    C::Instant: Deadline<C::Waiter>,
    C::Token: Send,
    ensures limits { result ≡ Err Fault.BadLimits → ¬ HasLimits script.maker }
    ensures in_range { OnOk result (¬ (¬ HasLimits script.maker)) }
    ensures report { IfOk result
        (IsReport script.calls.items (replies_to script.maker script.calls.items)) }
{
    let raw: RawLock<C> = made_for(alloc, waiter, script.maker, 0)?;
    over_raw(alloc, raw, manner, script)
}

/// Runs the script over a `WordRaw` with that mistake.
fn over_wrong<W: Wait + Clone + Drop>(
    alloc: Global,
    waiter: W,
    mistake: Mistake,
    manner: Manner,
    script: DeskScript,
) -> Result<Report, Fault>
    ensures limits { result ≡ Err Fault.BadLimits → ¬ HasLimits script.maker }
    ensures in_range { OnOk result (¬ (¬ HasLimits script.maker)) }
    ensures report { IfOk result
        (IsReport script.calls.items (replies_to script.maker script.calls.items)) }
{
    let more = if mistake == Mistake::ExtraReader {
        1
    } else {
        0
    };
    let raw: RawLock<WordCore<W, NoTime>> = made_for(alloc, waiter, script.maker, more)?;
    over_raw(alloc, WrongRaw::over(raw, mistake), manner, script)
}

/// Makes a raw lock for a script. A table has a place for each reader, so the lock is made with no more readers than the
/// script has places, and so many more.
fn made_for<C: LockCore>(
    alloc: Global,
    waiter: C::Waiter,
    maker: Maker,
    more: u64,
) -> Result<RawLock<C>, Fault>
    requires { more ≤ 1 }
    ensures { result ≡ Err Fault.BadLimits → ¬ HasLimits maker }
{
    match maker {
        Maker::RwLock(places, readers, _) => {
            let readers = places.min(readers).saturating_add(more).min(MAX_LIMIT);
            RawRwLock::new(alloc, waiter, readers)
        }
        Maker::Mutex(_, _) | Maker::Reentrant(_, _, _) => RawMutex::new(alloc, waiter),
    }
}

/// Runs the script over the raw lock.
fn over_raw<R>(alloc: Global, raw: R, manner: Manner, script: DeskScript) -> Result<Report, Fault>
where
    R: RawMutexFair + RawMutexTimed + Drop,
    R: RawRwLockUpgradeFair + RawRwLockUpgradeDowngrade + RawRwLockUpgradeTimed,
    <R as RawMutex>::Guard: Send,
    <R as RawMutexTimed>::Duration: Default,
    <R as RawMutexTimed>::Instant: Deadline<<R as RawMutex>::Waiter>,
    <R as RawRwLockTimed>::Duration: Default,
    <R as RawRwLockTimed>::Instant: Deadline<<R as RawRwLock>::Waiter>,
    ensures limits { result ≡ Err Fault.BadLimits → ¬ HasLimits script.maker }
    ensures in_range { OnOk result (¬ (¬ HasLimits script.maker)) }
    ensures report { IfOk result
        (IsReport script.calls.items (replies_to script.maker script.calls.items)) }
{
    match script.maker {
        Maker::Mutex(_, _) => run_mutex(alloc, raw, script, manner),
        Maker::RwLock(_, _, _) => run_rwlock(alloc, raw, script, manner),
        Maker::Reentrant(_, _, _) => run_reentrant(alloc, raw, script, manner),
    }
}
