//! Checks of the raw calls of a mapped guard, which was acquired in the mode since the last check.
use crate::raw_lock::call_watch::CallWatch;
use lock_guard::guard::{LockGuardFair, LockGuardMut, Mapped};
use lock_modes::Mode;
use lock_parts::{Project, TryView};
use lock_recorder::RawCall::{Lock, UnlockFair};

/// Reads the part, and releases the guard by a fair release.
pub fn watch_fair_end<G: LockGuardFair, P: TryView<G::Value>>(
    part: Mapped<G, P>,
    mode: Mode,
    watch: &mut CallWatch,
) {
    Mapped::get(&part);
    watch.saw(&[Lock(mode)]);
    Mapped::unlock_fair(part);
    watch.saw(&[UnlockFair(mode)]);
}

/// Writes the part, and drops the guard.
pub fn watch_write<G: LockGuardMut, P: Project<G::Value, Part = (u64, u64)> + Copy>(
    part: Mapped<G, P>,
    mode: Mode,
    watch: &mut CallWatch,
) {
    let mut part = part;
    *part = (5, 2);
    Mapped::get_mut(&mut part);
    watch.saw_hold(part, mode);
}
