//! A raw lock with a journal.
ghost use Rattle.std.specs.Prelude.{◌≡◌, ◌↔◌, IfOk, IfErr, IsOkUnless};
ghost use Rattle.lock_modes.specs.Limits.{IsLimit, IsMakerFault};
ghost use Rattle.lock_modes.specs.ModeRuns.{Replays};

use crate::lock_core::LockCore;
use crate::raw_lock::RawLock;
use lock_modes::{Fault, MAX_LIMIT, ModeStep};
use std::alloc::Global;

/// A core that keeps a journal of its steps.
pub trait RecordingCore: LockCore {
    /// Makes an unlocked core, whose journal has room for `entries` steps. At most `readers` tokens are shared or upgradable at a
    /// time.
    fn with_room(
        alloc: Global,
        waiter: Self::Waiter,
        readers: u64,
        entries: usize,
    ) -> Result<Self, Fault>
        ensures limits { (result ≡ Err Fault.BadLimits) ↔ (IsLimit readers → ⊥) }
        ensures in_range { IfOk result (λ _. IsLimit readers) }
        ensures fault { IfErr result IsMakerFault };

    /// Returns the recorded steps. The answer may be stale at once.
    fn journal(&self, alloc: Global) -> Result<Vec<ModeStep>, Fault>
        ensures replays { IfOk result (λ steps. Replays MAX_LIMIT steps.items) }
        ensures fault { IsOkUnless result Fault.OutOfMemory };

    /// Returns whether a step found the journal full. The answer may be stale at once.
    fn stopped(&self) -> bool;
}

impl<C: RecordingCore> RawLock<C> {
    /// Makes an unlocked lock, whose journal has room for `entries` steps.
    pub fn with_room(
        alloc: Global,
        waiter: C::Waiter,
        readers: u64,
        entries: usize,
    ) -> Result<RawLock<C>, Fault>
        ensures limits { (result ≡ Err Fault.BadLimits) ↔ (IsLimit readers → ⊥) }
        ensures in_range { IfOk result (λ _. IsLimit readers) }
        ensures fault { IfErr result IsMakerFault }
    {
        let core: C = RecordingCore::with_room(alloc, waiter, readers, entries)?;
        Ok(RawLock { core })
    }

    /// Returns the recorded steps. The answer may be stale at once.
    ///
    /// The steps replay under the largest readers' limit. They replay under the lock's own limit too, which no contract
    /// can name.
    pub fn journal(&self, alloc: Global) -> Result<Vec<ModeStep>, Fault>
        ensures replays { IfOk result (λ steps. Replays MAX_LIMIT steps.items) }
        ensures fault { IsOkUnless result Fault.OutOfMemory }
    {
        self.core.journal(alloc)
    }

    /// Returns whether a step found the journal full. The answer may be stale at once.
    pub fn stopped(&self) -> bool {
        self.core.stopped()
    }
}
