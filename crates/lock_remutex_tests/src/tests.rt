//! What no contract and no script of `conform/` says of the reentrant lock.
mod calls;
mod full_count;
mod makers;
mod only_level;
mod owners;
mod texts;
mod threads;

use lock_raws_monitor::{Monitor, TableArbiter};

/// The core of a `TokenRaw`. A test names the core, since each trait of a named raw lock would be proved anew.
type Table = Monitor<TableArbiter, HostRuntime>;
