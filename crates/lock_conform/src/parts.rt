//! What a run of a script needs.
ghost use Rattle.std.specs.Prelude.{◌≡◌, ◌↔◌, IfOk, IfErr, IsOkUnless};
ghost use Rattle.lock_script.specs.Session.{HasLimits, replies_to};
ghost use Rattle.lock_conform.specs.Makers.{IsRunFault, kind_of};

use crate::lines::Lines;
use lock_modes::{Fault, Kind};
use lock_recorder::{CallLog, Recorder};
use lock_script::{DeskScript, Maker, Pair};
use std::alloc::Global;
use std::sync::Arc;

/// What a run of a script on a lock needs.
#[derive(Drop)]
pub struct RunParts<R> {
    /// The raw lock.
    pub raw: R,
    /// The first value.
    pub pair: Pair,
    /// The record of the raw lock's calls.
    pub log: CallLog,
    pub lines: Lines,
}

/// Returns what a run of the script on a lock of that kind needs.
pub fn run_parts<R: Drop>(
    alloc: Global,
    kind: Kind,
    raw: R,
    script: DeskScript,
) -> Result<RunParts<Recorder<R>>, Fault>
    ensures kind { (result ≡ Err Fault.WrongKind) ↔ ¬ (kind_of script.maker ≡ kind) }
    ensures limits { (result ≡ Err Fault.BadLimits) ↔ ((kind_of script.maker ≡ kind) × ¬ HasLimits script.maker) }
    ensures fault { IfErr result IsRunFault }
    ensures calls { IfOk result (λ made. made.lines.calls.items ≡ script.calls.items) }
    ensures replies { IfOk result (λ made.
        made.lines.replies.items ≡ replies_to script.maker script.calls.items) }
{
    let (made, pair) = kind_and_pair(script.maker);
    if made != kind {
        return Err(Fault::WrongKind);
    }
    let lines = Lines::of_script(alloc, script)?;
    let raw = Recorder::over(alloc, raw)?;
    let log = raw.log()?;
    Ok(RunParts {
        raw,
        pair,
        log,
        lines,
    })
}

/// Returns an `Arc` of the lock.
pub fn shared<L: Drop>(alloc: Global, lock: L) -> Result<Arc<L>, Fault>
    ensures { IsOkUnless result Fault.OutOfMemory }
{
    match Arc::new(alloc, lock) {
        Ok(lock) => Ok(lock),
        Err(_) => Err(Fault::OutOfMemory),
    }
}

/// Returns the kind of a script's lock, and its first value.
fn kind_and_pair(maker: Maker) -> (Kind, Pair)
    ensures { result.0 ≡ kind_of maker }
{
    match maker {
        Maker::Mutex(_, pair) => (Kind::Mutex, pair),
        Maker::RwLock(_, _, pair) => (Kind::RwLock, pair),
        Maker::Reentrant(_, _, pair) => (Kind::Reentrant, pair),
    }
}
