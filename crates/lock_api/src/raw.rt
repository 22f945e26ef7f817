//! The raw locks and raw condition variables of the library, and what the author of another one needs.

mod full_raw_lock;

pub use full_raw_lock::{FullRawLock, FullRawLockTimed, WaiterOf};
pub use lock_events::Begun;
pub use lock_modes::{DEFAULT_LEVELS, DEFAULT_READERS, Levels, MAX_LIMIT, is_limit};
pub use lock_one_word::{OneRule, OneView, WordLock, WordToken};
pub use lock_raws::{
    ExclusiveToken, LockCore, NoTime, RawLock, RealTime, RecordingCore, SharedToken, TimedRaw,
    Timing, UpgradableToken, WordCore, WordRaw,
};
pub use lock_raws_condvar::{SleepingCondvar, SpuriousCondvar, TimedCondvar};
pub use lock_raws_fair::{
    FairArbiter, FairCore, FairRaw, FairStep, FairToken, FairWake, Line, LineStep, PendingUpgrade,
    TIMED_SPAN, Ticket, TimedFairRaw,
};
pub use lock_raws_monitor::{
    Arbiter, DEFAULT_ENTRIES, Monitor, MonitorWake, Recorded, RecordingArbiter, RecordingRaw,
    TableArbiter, TokenArbiter, TokenRaw, Unchanged, upgraded,
};
pub use lock_time::{Passed, time_left, time_until};
pub use lock_wake::{CountRule, EventCount, HeldLock, LockWaits, Notified, Registered, Slept};
pub use lock_word::seated::{Attempt, Party, SeatView, SeatedLock, WordRule};
pub use lock_word::{
    Down, ExWant, Occupancy, has_bar, has_exclusive, has_tokens, unblocks, with_bar,
};
