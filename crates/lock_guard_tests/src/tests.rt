//! What no contract and no script of `conform/` says of these locks.
mod arc;
mod gated;
mod rwlock;

use lock_raws_monitor::{Monitor, TableArbiter};

/// The core of a `TokenRaw`. A test names the core, since each trait of a named raw lock would be proved anew.
type Table = Monitor<TableArbiter, HostRuntime>;

/// Whether a try gave no guard.
fn is_refused<G: Drop>(guard: Option<G>) -> bool {
    guard.is_none()
}
