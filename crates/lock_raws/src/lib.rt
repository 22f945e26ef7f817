//! Raw locks: `RawLock`, which implements all raw traits over a `LockCore`. `WordCore` is a core over one packed atomic word whose
//! waiters sleep.
#![tactic(auto)]

mod lock_core;
mod mutex;
mod raw_lock;
mod real_time;
mod recording_core;
mod rwlock;
mod timing;
mod tokens;
mod word_core;

pub use lock_core::LockCore;
pub use raw_lock::RawLock;
pub use real_time::{RealTime, TimedRaw};
pub use recording_core::RecordingCore;
pub use timing::{NoTime, Timing};
pub use tokens::{ExclusiveToken, SharedToken, UpgradableToken};
pub use word_core::{WordCore, WordRaw};
